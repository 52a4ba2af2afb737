//! The pieces of a text between the places of a separator (ECMA-262, 22.1.3.23).

ghost use Rattle.std.specs.Prelude.{◌≡◌, ◌+◌, ◌<◌, ◌≤◌, ℕ, List, [], ◌∷◌, length, take, drop, map, IfOk, MatchOption};
ghost use Rattle.js_meaning.specs.Operate.{weighed};
ghost use Rattle.js_meaning.specs.Rows.{list_value};
ghost use Rattle.js_meaning.specs.Methods.{pieces, split_of, split_by, with_limit};

use crate::searching::found_from;
use evaluation::Ended;
use js_operators::{low_bits, weighed_list};
use qml_base::Cause;
use qml_text::{NoMemory, Text};
use qml_value::Value;
use std::alloc::Global;

/// The place of a separator, behind the first piece.
#[tactic(auto, using(crate::proofs::SplitLemmas::within, crate::proofs::SplitLemmas::are))]
fn cut_at(by: &[u16], units: &[u16]) -> Option<usize>
    requires { 0 < length by.now }
    ensures within { MatchOption result (Unit {0}) (λ k. k + length by.now ≤ length units.now) }
    ensures pieces { MatchOption result (pieces by.now 0 units.now ≡ units.now ∷ [])
        (λ k. pieces by.now 0 units.now ≡ take k units.now ∷ pieces by.now 0 (drop (k + length by.now) units.now)) }
{
    found_from(by, units, 0)
}

/// A text for each unit.
fn single_units(alloc: Global, units: &[u16]) -> Result<Vec<Value>, NoMemory>
    ensures { IfOk result (λ parts. parts.items ≡ map Value.Text (map (λ u. u ∷ []) units.now)) }
{
    let mut parts = Vec::with_capacity(alloc, units.len())?;
    let mut rest = units;
    'units: while let Some((unit, behind)) = rest.split_first() {
        let part = Text::from_slice(alloc, &[*unit])?;
        parts.push(Value::Text(part))?;
        rest = behind;
    }
    Ok(parts)
}

/// The pieces between the places of a separator.
fn pieces_between(alloc: Global, by: &[u16], units: &[u16]) -> Result<Vec<Value>, NoMemory>
    requires { 0 < length by.now }
    ensures { IfOk result (λ parts. parts.items ≡ map Value.Text (pieces by.now 0 units.now)) }
{
    let mut parts = Vec::new(alloc);
    let mut rest = units;
    'pieces: while let Some(at) = cut_at(by, rest) {
        let piece = Text::from_slice(alloc, &rest[..at])?;
        parts.push(Value::Text(piece))?;
        rest = &rest[at + by.len()..];
    }
    let last = Text::from_slice(alloc, rest)?;
    parts.push(Value::Text(last))?;
    Ok(parts)
}

/// A text cut at a separator; at the empty one it is cut into its units.
#[tactic(auto, using(crate::proofs::SplitLemmas::split_at_nothing, crate::proofs::SplitLemmas::split_at_units, crate::proofs::SplitLemmas::some_units))]
fn parts_of(alloc: Global, by: &Text, text: &Text) -> Result<Vec<Value>, NoMemory>
    ensures { IfOk result (λ parts. parts.items ≡ map Value.Text (split_of by.now text.now)) }
{
    if by.is_empty() {
        single_units(alloc, text.units())
    } else {
        pieces_between(alloc, by.units(), text.units())
    }
}

/// The list of at most so many of these parts.
fn first_parts(parts: Vec<Value>, most: u32) -> Ended
    ensures { (texts : List (List ℕ)) →
        parts.items ≡ map Value.Text texts → result ≡ weighed (list_value (map Value.Text (take most texts))) }
{
    let mut first = parts;
    first.truncate(most as usize);
    weighed_list(first)
}

/// The list of these parts, or of so many of them as the limit says.
fn limited(parts: Vec<Value>, limit: &Value) -> Ended
    ensures { (texts : List (List ℕ)) → parts.items ≡ map Value.Text texts → result ≡ with_limit limit.now texts }
{
    match limit {
        Value::Undefined => weighed_list(parts),
        Value::Num(most) => first_parts(parts, low_bits(most.get())),
        _ => Ended::Threw(Cause::Kind),
    }
}

/// `split` (ECMA-262, 22.1.3.23): without a separator the text is the only part.
pub(crate) fn split(
    alloc: Global,
    text: &Text,
    by: &Value,
    limit: &Value,
) -> Result<Ended, NoMemory>
    ensures { IfOk result (λ e. e ≡ split_by by.now text.now limit.now) }
{
    match by {
        Value::Undefined => {
            let mut parts = Vec::new(alloc);
            let copy = text.copy(alloc)?;
            parts.push(Value::Text(copy))?;
            Ok(limited(parts, limit))
        }
        Value::Text(by) => {
            let parts = parts_of(alloc, by, text)?;
            Ok(limited(parts, limit))
        }
        _ => Ok(Ended::Threw(Cause::Kind)),
    }
}
