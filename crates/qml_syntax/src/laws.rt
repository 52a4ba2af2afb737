//! Laws of the definitions, each as the contract of a call that does nothing.

ghost use Rattle.std.specs.Prelude.{◌≡◌, ◌∷◌, ◌++◌, ◌+◌, ℕ, Bool, List, map, reverse, sum_by};
ghost use Rattle.qml_syntax.specs.declared.token.Token.{Token};
ghost use Rattle.qml_syntax.specs.declared.node.Node.{Node};
ghost use Rattle.qml_syntax.specs.Tree.{Expr, Stmt, Stmts, Document, Script, Whole};
ghost use Rattle.qml_syntax.specs.Reads.{Reads, ReadsStmt, ReadsStmts};
ghost use Rattle.qml_syntax.specs.ReadsDocument.{ReadsDocument, ReadsScript};
ghost use Rattle.qml_syntax.specs.Depth.{deep, deep_stmt, deep_stmts, deep_document, deep_script};
ghost use Rattle.qml_syntax.specs.Standing.{first_deep, nodes, nodes_stmt, nodes_stmts, nodes_document, nodes_script};
ghost use Rattle.qml_syntax.specs.Nodes.{Item, of_expr, of_stmt, Parts, Table, apply, parts_in};
ghost use Rattle.qml_syntax.specs.Listed.{listed, listed_stmt, listed_whole};
ghost use Rattle.qml_syntax.specs.Opened.{node_of, parts_of, item_at, whole_in, IsListing, IsLevel};
ghost use Rattle.qml_syntax.specs.Places.{part_at, places_of, behind};
ghost use Rattle.qml_syntax.specs.Starts.{nodes_of};
ghost use Rattle.qml_syntax.specs.Flat.{kinds_of, flat, flat_stmt, flat_stmts, flat_document, flat_script};

/// An expression written out is the tokens that it reads.
#[tactic(auto, using(crate::proofs::FlatLemmas::is_flat))]
pub fn expression_is_flat()
    ensures { (e : Expr) (tokens rest : List Token) → Reads e tokens rest → kinds_of tokens ≡ flat e ++ kinds_of rest }
{}

/// A statement written out is the tokens that it reads, in a loop and outside.
#[tactic(auto, using(crate::proofs::FlatLemmas::is_flat_stmt))]
pub fn statement_is_flat()
    ensures { (looped : Bool) (s : Stmt) (tokens rest : List Token) →
        ReadsStmt looped s tokens rest → kinds_of tokens ≡ flat_stmt s ++ kinds_of rest }
{}

/// A list of statements written out is the tokens that it reads.
#[tactic(auto, using(crate::proofs::FlatLemmas::is_flat_stmts))]
pub fn body_is_flat()
    ensures { (looped : Bool) (ss : Stmts) (tokens rest : List Token) →
        ReadsStmts looped ss tokens rest → kinds_of tokens ≡ flat_stmts ss ++ kinds_of rest }
{}

/// A document written out is the tokens that it reads.
#[tactic(auto, using(crate::proofs::FlatDocumentLemmas::document_is))]
pub fn document_is_flat()
    ensures { (d : Document) (tokens rest : List Token) →
        ReadsDocument d tokens rest → kinds_of tokens ≡ flat_document d ++ kinds_of rest }
{}

/// A script file written out is the tokens that it reads.
#[tactic(auto, using(crate::proofs::FlatDocumentLemmas::script_is))]
pub fn script_is_flat()
    ensures { (s : Script) (tokens rest : List Token) →
        ReadsScript s tokens rest → kinds_of tokens ≡ flat_script s ++ kinds_of rest }
{}

/// An expression is too deep at the first of its nodes that stands deeper than 100, and nowhere where none does.
#[tactic(auto, using(crate::proofs::DepthLemmas::is_deep))]
pub fn expression_is_deep()
    ensures { (d : ℕ) (e : Expr) → deep d e ≡ first_deep (nodes d e) }
{}

/// A statement is too deep at the first of its nodes that stands deeper than 100, and nowhere where none does.
#[tactic(auto, using(crate::proofs::DepthLemmas::is_deep_stmt))]
pub fn statement_is_deep()
    ensures { (d : ℕ) (s : Stmt) → deep_stmt d s ≡ first_deep (nodes_stmt d s) }
{}

/// A list of statements is too deep at the first of its nodes that stands deeper than 100, and nowhere where none does.
#[tactic(auto, using(crate::proofs::DepthLemmas::is_deep_stmts))]
pub fn body_is_deep()
    ensures { (d : ℕ) (ss : Stmts) → deep_stmts d ss ≡ first_deep (nodes_stmts d ss) }
{}

/// A document is too deep at the first of its nodes that stands deeper than 100, and nowhere where none does.
#[tactic(auto, using(crate::proofs::DeepDocumentLemmas::document_deep))]
pub fn document_is_deep()
    ensures { (d : Document) → deep_document d ≡ first_deep (nodes_document d) }
{}

/// A script file likewise.
#[tactic(auto, using(crate::proofs::DeepDocumentLemmas::script_deep))]
pub fn script_is_deep()
    ensures { (s : Script) → deep_script s ≡ first_deep (nodes_script s) }
{}

/// The nodes of an expression, on top of others, leave that expression as the last part.
#[tactic(auto, using(crate::proofs::PartsLemmas::parts))]
pub fn expression_is_listed()
    ensures { (e : Expr) (s : Table) → parts_in (listed e s) ≡ of_expr e ∷ parts_in s }
{}

/// The nodes of a statement, on top of others, leave that statement as the last part.
#[tactic(auto, using(crate::proofs::PartsLemmas::parts_stmt))]
pub fn statement_is_listed()
    ensures { (d : Stmt) (s : Table) → parts_in (listed_stmt d s) ≡ of_stmt d ∷ parts_in s }
{}

/// The nodes of a whole tree are those of that tree.
#[tactic(auto, using(crate::proofs::RootLemmas::whole_found))]
pub fn tree_is_listed()
    ensures { (w : Whole) → whole_in (listed_whole w) ≡ Some w }
{}

/// No two trees have the same nodes.
#[tactic(auto, using(crate::proofs::RootLemmas::listed_once))]
pub fn tree_is_listed_once()
    ensures { (w v : Whole) → listed_whole w ≡ listed_whole v → w ≡ v }
{}

/// A part's node makes it of its parts, whatever stands before them.
#[tactic(auto, using(crate::proofs::GatherLemmas::level_is_made))]
pub fn level_is_made()
    ensures { (i : Item) (s : Parts) → apply (node_of i) (reverse (parts_of i) ++ s) ≡ i ∷ s }
{}

/// The node of an opened level makes the part at its place of those at the places of its parts, whatever stands before.
#[tactic(auto, using(crate::proofs::GatherLemmas::opened_is_made))]
pub fn opened_level_is_made()
    ensures { (t : Table) (at : ℕ) (x : Node) (places : List ℕ) →
        IsLevel t at x places → (s : Parts) → apply x (reverse (map (item_at t) places) ++ s) ≡ item_at t at ∷ s }
{}

/// The parts of a node stand at its places, in their order.
#[tactic(auto, using(crate::proofs::PlacesLemmas::parts_at_places))]
pub fn parts_stand_at_places()
    ensures { (t : Table) (at : ℕ) → IsListing t → map (part_at t) (places_of t at) ≡ parts_of (part_at t at) }
{}

/// Each place is that of a part in one node only: what stands behind it is what stands behind it in any node.
#[tactic(auto, using(crate::proofs::PlacesLemmas::stands_once))]
pub fn part_stands_once()
    ensures { (t : Table) (at place : ℕ) (before rest : List ℕ) →
        IsListing t → places_of t at ≡ before ++ place ∷ rest → behind t place ≡ rest }
{}

/// A part has one node more than the parts that it takes together.
#[tactic(auto, using(crate::proofs::GatherLemmas::level_size))]
pub fn level_is_counted()
    ensures { (i : Item) → nodes_of i ≡ 1 + sum_by nodes_of (parts_of i) }
{}
