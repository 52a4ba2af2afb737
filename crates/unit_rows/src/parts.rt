//! Where the parts of bodies stand in trees.

ghost use Rattle.std.specs.Prelude.{◌≡◌, MatchOption, IfOk};
ghost use Rattle.qml_syntax.specs.Nodes.{mark};
ghost use Rattle.qml_syntax.specs.Opened.{node_of};
ghost use Rattle.js_locals.specs.Laid.{laid, is_stmt_node};
ghost use Rattle.unit_rows.specs.Placed.{HoldsStatement, AreStatementsAt, AreOfFunction, IsFunctionAt, AreNamesBehind, TakesName, is_parameter_node, is_function_node, holds_statements};

use js_locals::{first_part, next_part, node_at, row_behind};
use qml_syntax::{Node, Tree};
use qml_text::NoMemory;
use std::alloc::Global;

/// Where a body is evaluated from, where the names of a function's parameters stand, and the part behind which its statements
/// are.
#[derive(Drop)]
pub struct Places {
    pub text: usize,
    pub parameters: Vec<usize>,
    pub statements: Option<usize>,
}

fn is_statement(node: &Node) -> bool
    ensures { result ≡ is_stmt_node node.now }
{
    matches!(
        node,
        Node::Empty(_)
            | Node::Expression(_)
            | Node::Block(_)
            | Node::Declare(..)
            | Node::When(_)
            | Node::Either(_)
            | Node::While(_)
            | Node::For(_)
            | Node::Give(..)
            | Node::GiveValue(..)
            | Node::Stop(..)
            | Node::Again(..)
    )
}

fn is_parameter(node: &Node) -> bool
    ensures { result ≡ is_parameter_node node.now }
{
    matches!(node, Node::Parameter)
}

fn is_function(node: &Node) -> bool
    ensures { result ≡ is_function_node node.now }
{
    matches!(node, Node::Function(_))
}

fn has_statements(node: &Node) -> bool
    ensures { result ≡ holds_statements node.now }
{
    matches!(node, Node::Body | Node::Binding(_))
}

/// The node of the part at a place, if there is one.
#[tactic(auto, using(crate::proofs::PartLemmas::node_there, crate::proofs::PartLemmas::nothing_there))]
fn part_node(tree: &Tree, at: usize) -> Option<&Node>
    ensures { MatchOption result ((laid tree.now).item at ≡ mark) (λ node. node.now ≡ node_of ((laid tree.now).item at)) }
{
    tree.node(at)
}

/// Whether a statement stands at a place.
#[tactic(auto, using(crate::proofs::PartLemmas::statement_tested, crate::proofs::PartLemmas::no_statement))]
pub(crate) fn stands_statement(tree: &Tree, at: usize) -> bool
    ensures { HoldsStatement ((laid tree.now).item at) result }
{
    match part_node(tree, at) {
        Some(node) => is_statement(node),
        None => false,
    }
}

/// The part behind which the statements of a body, or of the function of a `Qt.binding`, stand.
#[tactic(auto, using(crate::proofs::PartLemmas::statements_stand, crate::proofs::PartLemmas::no_statements, crate::proofs::PartLemmas::no_statements_there))]
pub(crate) fn statements_at(tree: &Tree, at: usize) -> Result<Option<usize>, NoMemory>
    ensures { IfOk result (λ o. AreStatementsAt (laid tree.now) at o) }
{
    let Some(node) = part_node(tree, at) else {
        return Ok(None);
    };
    if !has_statements(node) {
        return Ok(None);
    }
    match first_part(tree, at) {
        Some(mark) => Ok(Some(mark)),
        None => Err(NoMemory),
    }
}

/// Where the name of a parameter stands, if the part at a place is one.
#[tactic(auto, using(crate::proofs::PartLemmas::takes_name, crate::proofs::PartLemmas::takes_none))]
fn parameter_name(tree: &Tree, at: usize) -> Result<Option<usize>, NoMemory>
    ensures { IfOk result (λ o. TakesName (laid tree.now) at o) }
{
    let Some(node) = node_at(tree, at) else {
        return Err(NoMemory);
    };
    if !is_parameter(node) {
        return Ok(None);
    }
    match first_part(tree, at) {
        Some(name) => Ok(Some(name)),
        None => Err(NoMemory),
    }
}

/// Where the names of the parameters behind a mark stand, and the part behind them.
#[tactic(auto, using(crate::proofs::NameLemmas::naming_first, crate::proofs::NameLemmas::naming_on, crate::proofs::NameLemmas::naming_last, crate::proofs::NameLemmas::naming_end))]
fn parameter_places(
    alloc: Global,
    tree: &Tree,
    mark: usize,
) -> Result<(Vec<usize>, Option<usize>), NoMemory>
    ensures { IfOk result (λ r. AreNamesBehind (laid tree.now) mark r.0.items r.1) }
{
    let mut places = Vec::new(alloc);
    let mut part = row_behind(tree, mark);
    'parameters: while let Some(at) = part {
        let Some(name) = parameter_name(tree, at)? else {
            return Ok((places, part));
        };
        places.push(name)?;
        part = row_behind(tree, at);
    }
    Ok((places, part))
}

/// The places of the parts of the function at a place.
#[tactic(auto, using(crate::proofs::PartLemmas::function_placed))]
fn function_parts(alloc: Global, tree: &Tree, at: usize) -> Result<Places, NoMemory>
    ensures { IfOk result (λ p. AreOfFunction (laid tree.now) at p) }
{
    let Some(name) = first_part(tree, at) else {
        return Err(NoMemory);
    };
    let Some(mark) = next_part(tree, name) else {
        return Err(NoMemory);
    };
    let (parameters, behind) = parameter_places(alloc, tree, mark)?;
    let Some(kind) = behind else {
        return Err(NoMemory);
    };
    let Some(text) = next_part(tree, kind) else {
        return Err(NoMemory);
    };
    let Some(statements) = first_part(tree, text) else {
        return Err(NoMemory);
    };
    Ok(Places {
        text,
        parameters,
        statements: Some(statements),
    })
}

/// The places of the parts of the function at a place, if one stands there.
#[tactic(auto, using(crate::proofs::PartLemmas::function_found, crate::proofs::PartLemmas::no_function, crate::proofs::PartLemmas::no_function_there))]
pub(crate) fn function_at(alloc: Global, tree: &Tree, at: usize) -> Result<Option<Places>, NoMemory>
    ensures { IfOk result (λ o. IsFunctionAt (laid tree.now) at o) }
{
    let Some(node) = part_node(tree, at) else {
        return Ok(None);
    };
    if !is_function(node) {
        return Ok(None);
    }
    let places = function_parts(alloc, tree, at)?;
    Ok(Some(places))
}
