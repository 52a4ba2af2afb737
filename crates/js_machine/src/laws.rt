//! Laws of the definitions, each as the contract of a call that does nothing.

ghost use Rattle.std.specs.Prelude.{◌≡◌, ℕ, ◌<◌, length, Bool, false, List, []};
ghost use Rattle.qml_syntax.specs.declared.token.Token.{Token};
ghost use Rattle.qml_syntax.specs.Tree.{Expr, Stmt, Stmts};
ghost use Rattle.qml_syntax.specs.Reads.{Reads, ReadsStmt, ReadsStmts};
ghost use Rattle.js_machine.specs.Machine.{Entry, go, start_of};
ghost use Rattle.js_machine.specs.Answer.{IsAnswer};
ghost use Rattle.js_machine.specs.Front.{AreWhole, FrontAnswer, IsSame, parse_of};
ghost use Rattle.js_machine.specs.Kept.{kept_go, kept_start, ends_of, closed_again, over_again};
ghost use Rattle.js_machine.specs.Moves.{Open, close_at, is_over};
ghost use Rattle.qml_syntax.specs.Nodes.{Table};

/// At most one expression reads given tokens.
#[tactic(auto, using(crate::proofs::Exact::one_expression))]
pub fn one_expression()
    ensures { (tokens : List Token) (d e : Expr) → Reads d tokens [] → Reads e tokens [] → d ≡ e }
{}

/// At most one statement reads given tokens.
#[tactic(auto, using(crate::proofs::Exact::one_statement))]
pub fn one_statement()
    ensures { (tokens : List Token) (d e : Stmt) → ReadsStmt false d tokens [] → ReadsStmt false e tokens [] → d ≡ e }
{}

/// At most one list of statements reads given tokens.
#[tactic(auto, using(crate::proofs::Exact::one_body))]
pub fn one_body()
    ensures { (tokens : List Token) (d e : Stmts) →
        ReadsStmts false d tokens [] → ReadsStmts false e tokens [] → d ≡ e }
{}

/// The machine stops at the first token with which no read prefix goes on, and gives the tree that reads the tokens
/// before it, or none where no tree does.
#[tactic(auto, using(crate::proofs::Exact::exact))]
pub fn machine_is_exact()
    ensures { (y : Entry) (tokens : List Token) →
        IsAnswer y tokens (go tokens (start_of y)).tree (go tokens (start_of y)).rest }
{}

/// Among the tokens of a file the machine gives, at each place, the tree of the longest read front and where it ends;
/// `Syntax` exactly where no tree reads this front, at the token behind it; and `TooDeep` exactly where there is such a
/// tree with a node deeper than 100, at the first token of the first such node. So `Syntax` is told before `TooDeep`.
#[tactic(auto, using(crate::proofs::Fronts::front_answer))]
pub fn machine_answers_at_each_place()
    ensures { (y : Entry) (tokens : List Token) (from : ℕ) →
        AreWhole tokens → from < length tokens → FrontAnswer IsSame y tokens from (parse_of y tokens from) }
{}

/// Nodes of the parts that are made and frames for what is open, moved by one token at a time, end where the machine
/// does, with the nodes of its tree.
#[tactic(auto, using(crate::proofs::KeptExact::kept_same))]
pub fn kept_states_end_as_the_machine()
    ensures { (y : Entry) (tokens : List Token) → kept_go tokens (kept_start y) ≡ ends_of (go tokens (start_of y)) }
{}

/// Closing some of what is open leaves the whole as it was: closing all of it then gives what closing all at once gives.
#[tactic(auto, using(crate::proofs::Again::closed_stays))]
pub fn closing_leaves_the_whole()
    ensures { (i : ℕ) (fs : Open) (s : Table) (tight : ℕ) (target : Bool) →
        closed_again (close_at i fs s tight target) ≡ close_at 0 fs s tight target }
{}

/// Statements that have been ended stay ended as they were.
#[tactic(auto, using(crate::proofs::Again::over_stays))]
pub fn ended_statements_stay()
    ensures { (fs : Open) (s : Table) → over_again (is_over fs s) ≡ is_over fs s }
{}
