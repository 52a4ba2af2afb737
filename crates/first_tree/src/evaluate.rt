//! Contents, evaluated over a table of outcomes.
ghost use Rattle.std.specs.Prelude.{◌≡◌, ◌+◌, ◌+ℤ◌, ◌-ℤ◌, ◌*ℤ◌, [], ◌∷◌, pos, count_by, if◌then◌else◌};
ghost use Rattle.qml_model.specs.Settling.{bounded, is_bound, factor_of, product_from, sum_from, outcome_of, shallow_of};
ghost use Rattle.first_tree.specs.Sweeps.{read_in};

use qml_base::{NUMBER_LIMIT, Steps};
use qml_model::{Content, Factor, Outcome, Product};
use std::sync::ledger::Ledger;

/// The greatest magnitude of a number.
pub const LIMIT: u64 = NUMBER_LIMIT;

fn product_of_two(a: i64, b: i64) -> Outcome
    ensures { result ≡ bounded (a *ℤ b) }
{
    match a.checked_mul(b) {
        Some(n) if n.unsigned_abs() <= LIMIT => Outcome::Value(n),
        _ => Outcome::Past,
    }
}

fn sum_of_two(a: i64, minus: bool, b: i64) -> Outcome
    ensures { result ≡ bounded (if minus then a -ℤ b else a +ℤ b) }
{
    let sum = if minus {
        a.checked_sub(b)
    } else {
        a.checked_add(b)
    };
    match sum {
        Some(n) if n.unsigned_abs() <= LIMIT => Outcome::Value(n),
        _ => Outcome::Past,
    }
}

fn factor(f: &Factor, table: &[Outcome]) -> Outcome
    ensures { result ≡ factor_of (read_in table.now) f.now }
{
    match f {
        Factor::Num(n) => Outcome::Value(*n),
        Factor::Cell(c) => match table.get(*c as usize) {
            Some(outcome) => *outcome,
            None => Outcome::Loop,
        },
    }
}

fn product(factors: &[Factor], table: &[Outcome]) -> Outcome
    ensures { result ≡ product_from (read_in table.now) (pos 1) factors.now }
{
    let mut product = 1;
    for f in factors {
        let n = match factor(f, table) {
            Outcome::Value(n) => n,
            other => return other,
        };
        product = match product_of_two(product, n) {
            Outcome::Value(n) => n,
            other => return other,
        };
    }
    Outcome::Value(product)
}

fn sum(products: &[Product], table: &[Outcome]) -> Outcome
    ensures { result ≡ sum_from (read_in table.now) (pos 0) products.now }
{
    let mut sum = 0;
    for p in products {
        let n = match product(p.factors.as_slice(), table) {
            Outcome::Value(n) => n,
            other => return other,
        };
        sum = match sum_of_two(sum, p.minus, n) {
            Outcome::Value(n) => n,
            other => return other,
        };
    }
    Outcome::Value(sum)
}

/// What a content comes to over these outcomes. Evaluating a binding is one step; a number takes none.
pub fn outcome<L: Ledger>(content: &Content, table: &[Outcome], steps: &mut Steps<L>) -> Outcome
    ensures outcome { result ≡ outcome_of (read_in table.now) content.now }
    ensures steps { steps.new ≡ steps.old + count_by is_bound (content.now ∷ []) }
{
    match content {
        Content::Plain(n) => Outcome::Value(*n),
        Content::Sum(products) => {
            steps.tick();
            sum(products.as_slice(), table)
        }
    }
}

/// What a content comes to at depth 0.
pub fn shallow(content: &Content) -> Outcome
    ensures { result ≡ shallow_of content.now }
{
    match content {
        Content::Plain(n) => Outcome::Value(*n),
        Content::Sum(_) => Outcome::Loop,
    }
}
