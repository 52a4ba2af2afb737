//! The values of properties.
ghost use Rattle.std.specs.Prelude.{◌≡◌, ◌<◌, ◌^◌, ◌≤◌, [], ◌∷◌, false, length, count_by, IfOk, IfSome};
ghost use Rattle.std.specs.Option.{option_map};
ghost use Rattle.first_form.specs.Document.{names_of};
ghost use Rattle.first_form.specs.Pieces.{is_mark, pieces_of};
ghost use Rattle.first_form.specs.Values.{factor_named, operand_of, factors_of, product_of, products_of, sum_of, number_in, negative_in, plain_of, content_of};

use crate::blanks::{alone, behind_spaces};
use crate::members::Program;
use crate::numbers::number;
use crate::pieces::cut_at;
use qml_model::{Content, Factor, Product};
use sqlite_items::Items;
use std::alloc::{AllocError, Global};

/// How many names and numbers a value may have.
const MOST_OPERANDS: usize = 1000;

/// A number, or the cell of a name.
#[tactic(auto, unfolding(crate::specs::Values::factor_named))]
fn factor(program: &Program, word: &[u8]) -> Option<Factor>
    ensures { result ≡ factor_named (names_of program.now) word.now }
{
    match number(word) {
        Some(n) => Some(Factor::Num(n as i64)),
        None => match program.cell(word) {
            Some(cell) => Some(Factor::Cell(cell)),
            None => None,
        },
    }
}

fn operand(program: &Program, bytes: &[u8]) -> Option<Factor>
    ensures { result ≡ operand_of (names_of program.now) bytes.now }
{
    match alone(bytes) {
        Some(word) => factor(program, word),
        None => None,
    }
}

/// The operands between the `*`.
fn factors(
    alloc: Global,
    program: &Program,
    bytes: &[u8],
) -> Result<Option<Items<Factor>>, AllocError>
    ensures { IfOk result (λ found. found ≡ factors_of (names_of program.now) (pieces_of (42 ∷ []) bytes.now)) }
{
    let mut factors = Items::new(alloc);
    let mut rest = bytes;
    'pieces: while let Some(found) = cut_at(rest, b"*") {
        match operand(program, found.before) {
            Some(f) => factors.push(f)?,
            None => return Ok(None),
        }
        rest = found.after;
    }
    match operand(program, rest) {
        Some(f) => {
            factors.push(f)?;
            Ok(Some(factors))
        }
        None => Ok(None),
    }
}

fn product(
    alloc: Global,
    program: &Program,
    minus: bool,
    bytes: &[u8],
) -> Result<Option<Product>, AllocError>
    ensures { IfOk result (λ found. found ≡ product_of (names_of program.now) minus bytes.now) }
{
    match factors(alloc, program, bytes)? {
        Some(factors) => Ok(Some(Product { minus, factors })),
        None => Ok(None),
    }
}

/// The products between the `+` and `-`.
fn products(
    alloc: Global,
    program: &Program,
    bytes: &[u8],
) -> Result<Option<Items<Product>>, AllocError>
    ensures { IfOk result (λ found. found ≡ products_of (names_of program.now) false (pieces_of (43 ∷ 45 ∷ []) bytes.now)) }
{
    let mut products = Items::new(alloc);
    let mut minus = false;
    let mut rest = bytes;
    'pieces: while let Some(found) = cut_at(rest, b"+-") {
        match product(alloc, program, minus, found.before)? {
            Some(p) => products.push(p)?,
            None => return Ok(None),
        }
        minus = found.mark == b'-';
        rest = found.after;
    }
    match product(alloc, program, minus, rest)? {
        Some(p) => {
            products.push(p)?;
            Ok(Some(products))
        }
        None => Ok(None),
    }
}

fn operators(bytes: &[u8]) -> usize
    ensures { result ≡ count_by (is_mark (43 ∷ 45 ∷ 42 ∷ [])) bytes.now }
{
    bytes.iter().filter(|b| b"+-*".contains(b)).count()
}

/// Names and numbers joined by `+`, `-` and `*`.
fn sum(alloc: Global, program: &Program, bytes: &[u8]) -> Result<Option<Items<Product>>, AllocError>
    ensures { IfOk result (λ found. found ≡ sum_of (names_of program.now) bytes.now) }
{
    if operators(bytes) >= MOST_OPERANDS {
        return Ok(None);
    }
    products(alloc, program, bytes)
}

fn lone_number(bytes: &[u8]) -> Option<u64>
    ensures exact { result ≡ number_in bytes.now }
    ensures small { IfSome result (λ n. n ≤ 2 ^ 53) }
{
    match alone(bytes) {
        Some(word) => number(word),
        None => None,
    }
}

fn negative(bytes: &[u8]) -> Option<i64>
    ensures { result ≡ negative_in bytes.now }
{
    match bytes.split_first() {
        Some((b'-', digits)) => lone_number(digits).map(|n| -(n as i64)),
        _ => None,
    }
}

/// A number, or `-` and a number.
fn plain(bytes: &[u8]) -> Option<i64>
    ensures { result ≡ plain_of bytes.now }
{
    match lone_number(bytes) {
        Some(n) => Some(n as i64),
        None => negative(behind_spaces(bytes)),
    }
}

/// What a value reads as. The names in it are those of members before it.
#[tactic(auto, unfolding(crate::specs::Values::content_of))]
pub fn content(
    alloc: Global,
    program: &Program,
    bytes: &[u8],
) -> Result<Option<Content>, AllocError>
    ensures { IfOk result (λ found. found ≡ content_of (names_of program.now) bytes.now) }
{
    if let Some(n) = plain(bytes) {
        return Ok(Some(Content::Plain(n)));
    }
    match sum(alloc, program, bytes)? {
        Some(products) => Ok(Some(Content::Sum(products))),
        None => Ok(None),
    }
}
