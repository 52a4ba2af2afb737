//! The values that cells hold once their outcomes are known.
ghost use Rattle.std.specs.Prelude.{◌≡◌, ◌≢◌, ◌^◌, ◌<◌, ◌≤◌, ℕ, length, IfOk, IfSome, IfNone};
ghost use Rattle.std.specs.Ordering.{int_eq};
ghost use Rattle.qml_model.specs.Settling.{changed};
ghost use Rattle.first_tree.specs.Sweeps.{read_in};
ghost use Rattle.first_tree.specs.Values.{held_by, held_all, SettlesValues};

use crate::tree::{Changed, SettleFault};
use qml_model::Outcome;
use sqlite_items::Items;
use std::alloc::{AllocError, Global};

/// The lowest cell that is past the limit.
fn lowest_past(table: &[Outcome]) -> Option<usize>
    ensures none { IfNone result ((c : ℕ) → read_in table.now c ≢ Outcome.Past) }
    ensures there { IfSome result (λ c. c < length table.now) }
    ensures past { IfSome result (λ c. read_in table.now c ≡ Outcome.Past) }
    ensures lowest { IfSome result (λ c. (d : ℕ) → d < c → read_in table.now d ≢ Outcome.Past) }
{
    for (c, outcome) in table.iter().enumerate() {
        if matches!(outcome, Outcome::Past) {
            return Some(c);
        }
    }
    None
}

/// What a cell holds by its outcome, after what it held.
fn held(outcome: Outcome, before: i64) -> i64
    ensures { result ≡ held_by outcome before }
{
    match outcome {
        Outcome::Value(n) => n,
        Outcome::Loop | Outcome::Past => before,
    }
}

/// Whether a cell holds by its outcome what it held.
fn is_kept(outcome: Outcome, before: i64) -> bool
    ensures { result ≡ int_eq before (held_by outcome before) }
{
    before == held(outcome, before)
}

/// The cells that will hold another value, by number.
fn differing(alloc: Global, table: &[Outcome], values: &[i64]) -> Result<Vec<u32>, AllocError>
    requires small { length values.now ≤ 2 ^ 32 }
    requires all { length table.now ≡ length values.now }
    ensures { IfOk result (λ cells. cells.items ≡ changed values.now (held_all table.now values.now)) }
{
    let mut cells = Vec::new(alloc);
    for (c, value) in values.iter().enumerate() {
        if !is_kept(table[c], *value) {
            cells.push(c as u32)?;
        }
    }
    Ok(cells)
}

/// Makes all cells hold by their outcomes.
fn hold(table: &[Outcome], values: &mut [i64])
    requires { length table.now ≡ length values.old }
    ensures { values.new ≡ held_all table.now values.old }
{
    for (c, outcome) in table.iter().enumerate() {
        values[c] = held(*outcome, values[c]);
    }
}

/// Settles the values by these outcomes, and gives the cells that changed.
pub fn settle(alloc: Global, table: &[Outcome], values: &mut [i64]) -> Result<Changed, SettleFault>
    requires small { length values.old ≤ 2 ^ 32 }
    requires all { length table.now ≡ length values.old }
    ensures { SettlesValues (read_in table.now) values.old result values.new }
{
    if let Some(c) = lowest_past(table) {
        return Err(SettleFault::Past { cell: c as u32 });
    }
    let cells = differing(alloc, table, values)?;
    hold(table, values);
    Ok(Changed {
        cells: Items::from_vec(cells),
    })
}
