//! Numbers of bodies.

ghost use Rattle.std.specs.Prelude.{◌≡◌, IfOk, OnOk};
ghost use Rattle.numbered_bodies.specs.NumberedRows as s;

use document_members::Member;
use document_tables::in_group;
use program_tables::UnitRow;
use qml_base::NoMemory;
use qml_syntax::{Node, Tree};
use std::alloc::Global;

/// A row of a member, with the number of its body; where it has none, with that of the next body.
#[derive(Clone, Copy, Debug)]
pub struct NumberedRow {
    pub row: usize,
    pub body: usize,
}

/// The rows of each object with the numbers of their bodies, and the rows that have a body, in the order of the
/// numbers.
#[derive(Drop)]
pub struct NumberedRows {
    pub objects: Vec<Vec<NumberedRow>>,
    pub bodies: Vec<usize>,
}

/// Whether a value with this node is a statement, and neither an object nor a list of objects.
fn is_statement(node: &Node) -> bool
    ensures { result ≡ s.is_statement node.now }
{
    match node {
        Node::Object | Node::ObjectList(_) => false,
        _ => true,
    }
}

/// Whether the value at a place is a statement.
#[tactic(auto, using(crate::proofs::StatementLemmas::statement_there, crate::proofs::StatementLemmas::nothing_there))]
fn is_statement_at(tree: &Tree, at: usize) -> bool
    ensures { result ≡ s.is_statement_at tree.now at }
{
    match tree.node(at) {
        Some(node) => is_statement(node),
        None => true,
    }
}

/// Whether a member has a body: a value that is a statement, or a function. What is declared in a group has none.
pub fn has_body(tree: &Tree, inside: bool, member: &Member) -> bool
    ensures { result ≡ s.has_body tree.now inside member.now }
{
    match member {
        Member::Property { value, .. } => match value {
            Some(at) => !inside && is_statement_at(tree, *at),
            None => false,
        },
        Member::Method { .. } => !inside,
        Member::Given { value, .. } => is_statement_at(tree, *value),
        _ => false,
    }
}

/// Whether the row of a number has a body.
fn row_has_body(tree: &Tree, rows: &[UnitRow], inside: &[bool], number: usize) -> bool
    ensures { result ≡ s.row_has_body tree.now rows.now inside.now number }
{
    match rows.get(number) {
        Some(row) => has_body(tree, in_group(inside, number), &row.member),
        None => false,
    }
}

/// Adds the row of a number with the number of its body, and to the rows that have a body, if it has one.
#[tactic(auto, using(crate::proofs::NumberLemmas::body_added, crate::proofs::NumberLemmas::no_body_added))]
fn add_row(
    tree: &Tree,
    rows: &[UnitRow],
    inside: &[bool],
    number: usize,
    own: &mut Vec<NumberedRow>,
    bodies: &mut Vec<usize>,
) -> Result<(), NoMemory>
    ensures { OnOk result (s.AddsRow tree.now rows.now inside.now number own.old.items own.new.items bodies.old.items bodies.new.items) }
{
    own.push(NumberedRow {
        row: number,
        body: bodies.len(),
    })?;
    if row_has_body(tree, rows, inside, number) {
        bodies.push(number)?;
    }
    Ok(())
}

/// The rows of an object with the numbers of their bodies. `bodies` are the rows that have one, up to here.
#[tactic(auto, using(crate::proofs::NumberLemmas::goes_on, crate::proofs::NumberLemmas::ends))]
fn numbered(
    alloc: Global,
    tree: &Tree,
    rows: &[UnitRow],
    inside: &[bool],
    numbers: &[usize],
    bodies: &mut Vec<usize>,
) -> Result<Vec<NumberedRow>, NoMemory>
    ensures { IfOk result (λ own. s.NumbersOf tree.now rows.now inside.now numbers.now own.items bodies.old.items bodies.new.items) }
{
    let mut own = Vec::new(alloc);
    'numbers: for number in numbers {
        add_row(tree, rows, inside, *number, &mut own, bodies)?;
    }
    Ok(own)
}

/// The rows of the objects, of which these lists are the numbers, with the numbers of their bodies. It takes time by the
/// number of rows and objects. Want of memory is the one error.
#[tactic(auto, using(crate::proofs::NumberLemmas::object_goes_on, crate::proofs::NumberLemmas::objects_end))]
pub fn numbered_rows(
    alloc: Global,
    tree: &Tree,
    rows: &[UnitRow],
    inside: &[bool],
    lists: &[Vec<usize>],
) -> Result<NumberedRows, NoMemory>
    ensures { IfOk result (λ made. s.AreAllNumbered tree.now rows.now inside.now lists.now made.objects.items made.bodies.items) }
{
    let mut objects = Vec::new(alloc);
    let mut bodies = Vec::new(alloc);
    'objects: for numbers in lists {
        let own = numbered(alloc, tree, rows, inside, numbers.as_slice(), &mut bodies)?;
        objects.push(own)?;
    }
    Ok(NumberedRows { objects, bodies })
}
