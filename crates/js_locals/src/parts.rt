//! Where the parts of a tree stand.

ghost use Rattle.std.specs.Prelude.{IfOk, ◌≡◌, [], ◌∷◌, IfSome, MatchOption};
ghost use Rattle.qml_syntax.specs.Opened.{node_of, parts_of, IsListing};
ghost use Rattle.js_meaning.specs.Locals.{is_var};
ghost use Rattle.js_locals.specs.Laid.{is_key, is_var_node, ForParts, laid, is_expr_node};

use qml_syntax::{Declaration, Node, Tree};
use qml_text::NoMemory;

/// The node at a place.
#[tactic(auto, using(crate::proofs::LaidLemmas::part_here))]
pub fn node_at(tree: &Tree, at: usize) -> Option<&Node>
    ensures { IfSome result (λ n. n.now ≡ node_of ((laid tree.now).item at)) }
{
    tree.node(at)
}

/// Where the first part of the node at a place stands.
#[tactic(auto, using(crate::proofs::LaidLemmas::no_first_part, crate::proofs::LaidLemmas::first_part))]
pub fn first_part(tree: &Tree, at: usize) -> Option<usize>
    ensures { MatchOption result (parts_of ((laid tree.now).item at) ≡ []) (λ p. parts_of ((laid tree.now).item at) ≡ (laid tree.now).item p ∷ (laid tree.now).rest p) }
{
    let _root = tree.root();
    tree.first(at)
}

/// Where the part behind one stands.
#[tactic(auto, using(crate::proofs::LaidLemmas::no_next_part, crate::proofs::LaidLemmas::next_part))]
pub fn next_part(tree: &Tree, part: usize) -> Option<usize>
    ensures { MatchOption result ((laid tree.now).rest part ≡ []) (λ q. (laid tree.now).rest part ≡ (laid tree.now).item q ∷ (laid tree.now).rest q) }
{
    tree.next(part)
}

/// Whether a node is that of an expression.
pub fn is_expression(node: &Node) -> bool
    ensures { result ≡ is_expr_node node.now }
{
    match node {
        Node::Name(_, _) | Node::Number(_, _) | Node::Text(_, _) | Node::Literal(_, _) => true,
        Node::Paren(_) | Node::List(_, _) | Node::Fields(_, _) | Node::Steps => true,
        Node::Postfix(_, _) | Node::Signed(_, _, _) | Node::Chain(_, _, _) => true,
        Node::Choose | Node::Assign => true,
        _ => false,
    }
}

/// Whether it is the node of the key of a field.
pub fn is_key(node: &Node) -> bool
    ensures { result ≡ is_key node.now }
{
    match node {
        Node::Key(_, _, _) => true,
        _ => false,
    }
}

/// Whether it is the node of a name that is declared.
pub fn is_var_node(node: &Node) -> bool
    ensures { result ≡ is_var_node node.now }
{
    match node {
        Node::Var(_, _) => true,
        _ => false,
    }
}

/// Whether names are declared by `var`.
pub fn is_var(kind: Declaration) -> bool
    ensures { result ≡ is_var kind }
{
    match kind {
        Declaration::Var => true,
        Declaration::Let | Declaration::Const => false,
    }
}

/// Where test, update and statement stand of the `for` that begins at a place.
pub fn for_parts(tree: &Tree, at: usize) -> Result<(usize, usize, usize), NoMemory>
    ensures { IfOk result (λ p. ForParts (laid tree.now) at p.0 p.1 p.2) }
{
    let Some(test) = next_part(tree, at) else {
        return Err(NoMemory);
    };
    let Some(update) = next_part(tree, test) else {
        return Err(NoMemory);
    };
    let Some(body) = next_part(tree, update) else {
        return Err(NoMemory);
    };
    Ok((test, update, body))
}
