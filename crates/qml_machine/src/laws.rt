//! Laws of the definitions, each as the contract of a call that does nothing.

ghost use Rattle.std.specs.Prelude.{◌≡◌, Bool, false, List, []};
ghost use Rattle.qml_base.specs.declared.numbers.Place.{Place};
ghost use Rattle.qml_syntax.specs.declared.token.Token.{Token};
ghost use Rattle.qml_syntax.specs.declared.mark.Mark.TheVariants as m;
ghost use Rattle.qml_syntax.specs.Tree.{Units, Names, Stmt, Object, Members, group, Document, Script};
ghost use Rattle.qml_syntax.specs.Ends.{Sees};
ghost use Rattle.qml_syntax.specs.Reads.{ReadsStmt};
ghost use Rattle.qml_syntax.specs.ReadsDocument.{ReadsObject, ReadsMember, ReadsMembers, ReadsSemi, ReadsDocument, ReadsScript};
ghost use Rattle.qml_machine.specs.DocumentMachine.{Entry, run, start_of};
ghost use Rattle.qml_machine.specs.DocumentAnswer.{IsAnswer};
ghost use Rattle.std.specs.Prelude.{◌∷◌, ◌++◌};
ghost use Rattle.qml_syntax.specs.declared.token.TokenKind.TheVariants as k;
ghost use Rattle.qml_machine.specs.DocumentAnswer.{TellsText, IsSame, parse_of};
ghost use Rattle.qml_machine.specs.KeptDocument.{keep_run, keep_start, ends_of};

/// At most one document reads given tokens.
#[tactic(auto, using(crate::proofs::DocumentExact::one_document))]
pub fn one_document()
    ensures { (tokens : List Token) (d e : Document) → ReadsDocument d tokens [] → ReadsDocument e tokens [] → d ≡ e }
{}

/// At most one script file reads given tokens.
#[tactic(auto, using(crate::proofs::DocumentExact::one_script))]
pub fn one_script()
    ensures { (tokens : List Token) (d e : Script) → ReadsScript d tokens [] → ReadsScript e tokens [] → d ≡ e }
{}

/// Where an object can be read as a value, no statement can: none reads a front of the same tokens so that the members of
/// an object, and its `}`, go on behind it.
#[tactic(auto, using(crate::proofs::ObjectFirst::no_statement))]
pub fn object_and_no_statement()
    ensures { (o : Object) (s : Stmt) (semicolon : Bool) (ms : Members) (tokens rest a b c d : List Token) →
        ReadsObject o tokens rest → ReadsStmt false s tokens a →
        ReadsSemi semicolon a b → ReadsMembers ms b c → Sees (k.Mark m.RightBrace) c d → ⊥ }
{}

/// Where an object can be read as a member, no group can.
#[tactic(auto, using(crate::proofs::ObjectFirst::no_group))]
pub fn object_and_no_group()
    ensures { (o : Object) (n : Units) (p : Place) (ns : Names) (ms : Members) (tokens rest a : List Token) →
        ReadsObject o tokens rest → ReadsMember (group n p ns ms) tokens a → ⊥ }
{}

/// The machine stops at the first token with which no read prefix goes on, and gives the tree that reads the tokens
/// before it, or none where no tree does.
#[tactic(auto, using(crate::proofs::DocumentExact::exact))]
pub fn machine_is_exact()
    ensures { (y : Entry) (tokens : List Token) →
        IsAnswer y tokens (run tokens (start_of y)).tree (run tokens (start_of y)).rest }
{}

/// Of the tokens of a file the machine gives the tree that reads all of them before the end; `Syntax` exactly where no
/// tree does, at the first token, the end included, with which no read prefix goes on; and `TooDeep` exactly where there is
/// such a tree with a node deeper than 100, at the first token of the first such node.
#[tactic(auto, using(crate::proofs::DocumentFronts::text_answer))]
pub fn machine_answers_files()
    ensures { (y : Entry) (before : List Token) (e : Token) →
        e.what ≡ k.End → TellsText IsSame y before e (parse_of y (before ++ e ∷ [])) }
{}

/// Rows for what is made and frames for what is open, moved by one token at a time, end where the machine does, with the
/// rows of its tree.
#[tactic(auto, using(crate::proofs::KeptDocumentExact::kept_same))]
pub fn kept_states_end_as_the_machine()
    ensures { (y : Entry) (tokens : List Token) → keep_run tokens (keep_start y) ≡ ends_of (run tokens (start_of y)) }
{}
