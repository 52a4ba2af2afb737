//! Sweeps over one table of outcomes, until one changes nothing.
ghost use Rattle.std.specs.Prelude.{◌≡◌, ◌+◌, ◌<◌, ℕ, false, [], ◌∷◌, length, slice_set, count_by};
ghost use Rattle.qml_model.specs.Settling.{outcome_of, is_bound, fresh};
ghost use Rattle.first_tree.specs.Sweeps.{read_in, begun_from, swept_from, Evaluates};

use crate::evaluate;
use qml_base::Steps;
use qml_model::{Content, Outcome};
use std::sync::ledger::Ledger;

/// How many of the contents are bindings.
fn bindings(contents: &[Content]) -> usize
    ensures { result ≡ count_by is_bound contents.now }
{
    contents
        .iter()
        .filter(|content| matches!(content, Content::Sum(_)))
        .count()
}

/// Gives each cell its outcome at depth 0.
fn begin(contents: &[Content], table: &mut [Outcome])
    requires { length table.old ≡ length contents.now }
    ensures { table.new ≡ begun_from 0 contents.now table.old }
{
    for (c, content) in contents.iter().enumerate() {
        table[c] = evaluate::shallow(content);
    }
}

/// Evaluates the content of one cell over the table, and says whether its outcome became another.
fn visit<L: Ledger>(
    c: usize,
    content: &Content,
    table: &mut [Outcome],
    steps: &mut Steps<L>,
) -> bool
    requires { c < length table.old }
    ensures outcome { table.new ≡ slice_set table.old c (outcome_of (read_in table.old) content.now) }
    ensures same { result ≡ false → table.new ≡ table.old }
    ensures steps { steps.new ≡ steps.old + count_by is_bound (content.now ∷ []) }
{
    let outcome = evaluate::outcome(content, table, steps);
    let differs = outcome != table[c];
    table[c] = outcome;
    differs
}

/// Evaluates all contents once, in the order of their cells, and says whether an outcome became another.
fn sweep<L: Ledger>(contents: &[Content], table: &mut [Outcome], steps: &mut Steps<L>) -> bool
    requires { length table.old ≡ length contents.now }
    ensures outcomes { table.new ≡ swept_from 0 contents.now table.old }
    ensures same { result ≡ false → table.new ≡ table.old }
    ensures steps { steps.new ≡ steps.old + count_by is_bound contents.now }
{
    let mut differs = false;
    for (c, content) in contents.iter().enumerate() {
        if visit(c, content, table, steps) {
            differs = true;
        }
    }
    differs
}

/// Fills the table with the fresh outcomes.
pub fn refresh<L: Ledger>(contents: &[Content], table: &mut [Outcome], steps: &mut Steps<L>)
    requires { length table.old ≡ length contents.now }
    ensures outcomes { (c : ℕ) → read_in table.new c ≡ fresh contents.now c }
    ensures steps { Evaluates contents.now steps.old steps.new }
{
    begin(contents, table);
    for _ in 0..bindings(contents) {
        if !sweep(contents, table, steps) {
            return;
        }
    }
    let _ = sweep(contents, table, steps);
}
