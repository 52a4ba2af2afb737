//! Chains of two operands alone, which show numbers.

ghost use Rattle.std.specs.Prelude.{◌≡◌, IfSome, IfOk};
ghost use Rattle.js_locals.specs.Laid.{laid};
ghost use Rattle.js_direct.specs.Showing.{WholeShows, Notes, noted};

use crate::pairs::{chain_value, is_chain};
use evaluation::{Evaluated, View};
use js_locals::{Locals, next_part, node_at};
use qml_base::{CellNo, Home};
use qml_syntax::Tree;
use qml_text::NoMemory;
use qml_value::Value;

/// The value of an expression, with the cells that are read for its operands.
#[derive(Drop)]
pub struct WholeValue {
    /// The cell that the first operand reads.
    pub first: Option<CellNo>,
    /// The cell that the second operand reads.
    pub second: Option<CellNo>,
    /// The value.
    pub value: Value,
}

/// The value of the expression at a place, if it is an operator between two operands that show numbers. It takes no memory.
#[inline]
pub fn whole_value<V: View>(
    view: &V,
    locals: &Locals,
    tree: &Tree,
    home: Home,
    at: usize,
) -> Option<WholeValue>
    ensures { IfSome result (λ p. WholeShows (record { names = V.names view.now; view = V.seen view.now }) (laid tree.now) home locals.now at p.first p.second p.value) }
{
    let node = node_at(tree, at)?;
    if !is_chain(node) {
        return None;
    }
    let pair = chain_value(view, locals, tree, home, at)?;
    let None = next_part(tree, pair.part) else {
        return None;
    };
    Some(WholeValue {
        first: pair.it.first,
        second: pair.it.second,
        value: pair.it.value,
    })
}

/// Notes the cell that an operand reads, if it reads one.
#[inline(always)]
fn note(reads: &mut Vec<CellNo>, cell: Option<CellNo>) -> Result<(), NoMemory>
    ensures { IfOk result (λ _. reads.new.items ≡ noted cell reads.old.items) }
{
    match cell {
        None => Ok(()),
        Some(cell) => {
            reads.push(cell)?;
            Ok(())
        }
    }
}

/// Notes the cells that two operands read.
#[inline(always)]
fn note_both(
    reads: &mut Vec<CellNo>,
    first: Option<CellNo>,
    second: Option<CellNo>,
) -> Result<(), NoMemory>
    ensures { IfOk result (λ _. reads.new.items ≡ noted second (noted first reads.old.items)) }
{
    note(reads, first)?;
    note(reads, second)?;
    Ok(())
}

/// Notes the cells that an expression reads, and gives its value; want of memory is the one other answer.
#[inline(always)]
pub fn whole_ended(reads: &mut Vec<CellNo>, it: WholeValue) -> Evaluated
    ensures { Notes it.first it.second it.value reads.old.items reads.new.items result }
{
    match note_both(reads, it.first, it.second) {
        Ok(()) => Evaluated::Value(it.value),
        Err(_) => Evaluated::NoMemory,
    }
}
