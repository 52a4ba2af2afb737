//! Reading methods of texts (ECMA-262, 22.1.3).

ghost use Rattle.std.specs.Prelude.{◌≡◌, ◌≤◌, pos, length, take, drop, IfOk};
ghost use Rattle.js_meaning.specs.Operate.{truth};
ghost use Rattle.js_meaning.specs.Methods.{with_number_or, with_text, clamped, from_end, part, begins_with, ends_with, found_from, place_or, is_found, char_at, code_of, between, text_whole, text_search, text_method};

use crate::arguments::{clamped, from_end, number_or, place_in, place_or, size_number};
use crate::naming::named;
use crate::searching::{ends_with, found_from};
use crate::splitting::split;
use crate::texts::begins_with;
use evaluation::Ended;
use qml_base::Cause;
use qml_text::{NoMemory, Text};
use qml_value::{Num, Value};
use std::alloc::Global;

/// The units between two places, of which the second may come first.
#[tactic(auto, using(js_operators::proofs::WeightLemmas::no_part))]
fn part_of(alloc: Global, text: &Text, from: usize, to: usize) -> Result<Text, NoMemory>
    requires { to ≤ length text.now }
    ensures { IfOk result (λ t. t ≡ part from to text.now) }
{
    if from < to {
        text.sub(alloc, from, to)
    } else {
        Ok(Text::new())
    }
}

/// `slice` (ECMA-262, 22.1.3.22).
fn slice(alloc: Global, text: &Text, from: &Value, to: &Value) -> Result<Ended, NoMemory>
    ensures { IfOk result
        (λ e. e ≡ with_number_or (pos 0) from.now (λ a. with_number_or (pos (length text.now)) to.now (λ b.
        Ended.Value (Value.Text (part (from_end (length text.now) a) (from_end (length text.now) b) text.now))))) }
{
    let size = size_number(text.len())?;
    let Some(a) = number_or(from, 0) else {
        return Ok(Ended::Threw(Cause::Kind));
    };
    let Some(b) = number_or(to, size) else {
        return Ok(Ended::Threw(Cause::Kind));
    };
    let part = part_of(
        alloc,
        text,
        from_end(text.len(), a),
        from_end(text.len(), b),
    )?;
    Ok(Ended::Value(Value::Text(part)))
}

/// The units between two places, the lower one first.
#[tactic(auto, using(crate::proofs::MethodLemmas::upwards, crate::proofs::MethodLemmas::downwards))]
fn between(alloc: Global, text: &Text, a: usize, b: usize) -> Result<Ended, NoMemory>
    requires first { a ≤ length text.now }
    requires second { b ≤ length text.now }
    ensures { IfOk result (λ e. e ≡ between text.now a b) }
{
    if a <= b {
        let part = part_of(alloc, text, a, b)?;
        Ok(Ended::Value(Value::Text(part)))
    } else {
        let part = part_of(alloc, text, b, a)?;
        Ok(Ended::Value(Value::Text(part)))
    }
}

/// `substring` (ECMA-262, 22.1.3.25).
fn substring(alloc: Global, text: &Text, from: &Value, to: &Value) -> Result<Ended, NoMemory>
    ensures { IfOk result (λ e. e ≡ with_number_or (pos 0) from.now (λ a. with_number_or (pos (length text.now)) to.now
        (λ b. between text.now (clamped (length text.now) a) (clamped (length text.now) b)))) }
{
    let size = size_number(text.len())?;
    let Some(a) = number_or(from, 0) else {
        return Ok(Ended::Threw(Cause::Kind));
    };
    let Some(b) = number_or(to, size) else {
        return Ok(Ended::Threw(Cause::Kind));
    };
    between(alloc, text, clamped(text.len(), a), clamped(text.len(), b))
}

/// The unit at a place as a text, or the empty text outside.
#[tactic(auto, using(crate::proofs::MethodLemmas::unit_behind, crate::proofs::MethodLemmas::char_inside, crate::proofs::MethodLemmas::char_behind, crate::proofs::MethodLemmas::char_before))]
fn char_in(alloc: Global, text: &Text, z: i64) -> Result<Text, NoMemory>
    ensures { IfOk result (λ t. t ≡ char_at text.now z) }
{
    let Some(at) = place_in(z) else {
        return Ok(Text::new());
    };
    if at >= text.len() as u64 {
        return Ok(Text::new());
    }
    let place = at as usize;
    text.sub(alloc, place, place + 1)
}

/// `charAt` (ECMA-262, 22.1.3.2).
fn char_at(alloc: Global, text: &Text, at: &Value) -> Result<Ended, NoMemory>
    ensures { IfOk result
        (λ e. e ≡ with_number_or (pos 0) at.now (λ z. Ended.Value (Value.Text (char_at text.now z)))) }
{
    let Some(z) = number_or(at, 0) else {
        return Ok(Ended::Threw(Cause::Kind));
    };
    let unit = char_in(alloc, text, z)?;
    Ok(Ended::Value(Value::Text(unit)))
}

/// The first unit as a number; `range` where there is none.
fn code_of(units: &[u16]) -> Ended
    ensures { result ≡ code_of units.now }
{
    match units.split_first() {
        Some((unit, _)) => Ended::Value(Value::Num(Num::small(u32::from(*unit)))),
        None => Ended::Threw(Cause::Range),
    }
}

/// `charCodeAt` (ECMA-262, 22.1.3.3); outside it throws `range`.
fn char_code_at(alloc: Global, text: &Text, at: &Value) -> Result<Ended, NoMemory>
    ensures { IfOk result (λ e. e ≡ with_number_or (pos 0) at.now (λ z. code_of (char_at text.now z))) }
{
    let Some(z) = number_or(at, 0) else {
        return Ok(Ended::Threw(Cause::Kind));
    };
    let unit = char_in(alloc, text, z)?;
    Ok(code_of(unit.units()))
}

/// `indexOf` (ECMA-262, 22.1.3.9).
fn index_of(text: &Text, part: &Value, from: &Value) -> Result<Ended, NoMemory>
    ensures { IfOk result (λ e. e ≡ with_text part.now
        (λ p. with_number_or (pos 0) from.now (λ z. place_or (found_from p text.now (clamped (length text.now) z))))) }
{
    let Value::Text(sought) = part else {
        return Ok(Ended::Threw(Cause::Kind));
    };
    let Some(z) = number_or(from, 0) else {
        return Ok(Ended::Threw(Cause::Kind));
    };
    let from = clamped(text.len(), z);
    place_or(found_from(sought.units(), text.units(), from))
}

/// `includes` (ECMA-262, 22.1.3.8).
fn includes(text: &Text, part: &Value, from: &Value) -> Ended
    ensures { result ≡ with_text part.now (λ p.
        with_number_or (pos 0) from.now (λ z. truth (is_found (found_from p text.now (clamped (length text.now) z))))) }
{
    let Value::Text(sought) = part else {
        return Ended::Threw(Cause::Kind);
    };
    let Some(z) = number_or(from, 0) else {
        return Ended::Threw(Cause::Kind);
    };
    let from = clamped(text.len(), z);
    match found_from(sought.units(), text.units(), from) {
        Some(_) => Ended::Value(Value::Bool(true)),
        None => Ended::Value(Value::Bool(false)),
    }
}

/// `startsWith` (ECMA-262, 22.1.3.24).
fn starts_with(text: &Text, part: &Value, from: &Value) -> Ended
    ensures { result ≡ with_text part.now (λ p.
        with_number_or (pos 0) from.now (λ z. truth (begins_with p (drop (clamped (length text.now) z) text.now)))) }
{
    let Value::Text(sought) = part else {
        return Ended::Threw(Cause::Kind);
    };
    let Some(z) = number_or(from, 0) else {
        return Ended::Threw(Cause::Kind);
    };
    let at = clamped(text.len(), z);
    Ended::Value(Value::Bool(begins_with(sought.units(), &text.units()[at..])))
}

/// `endsWith` (ECMA-262, 22.1.3.7).
fn ends_before(text: &Text, part: &Value, to: &Value) -> Result<Ended, NoMemory>
    ensures { IfOk result (λ e. e ≡ with_text part.now (λ p. with_number_or
        (pos (length text.now)) to.now (λ z. truth (ends_with p (take (clamped (length text.now) z) text.now))))) }
{
    let size = size_number(text.len())?;
    let Value::Text(sought) = part else {
        return Ok(Ended::Threw(Cause::Kind));
    };
    let Some(z) = number_or(to, size) else {
        return Ok(Ended::Threw(Cause::Kind));
    };
    let end = clamped(text.len(), z);
    Ok(Ended::Value(Value::Bool(ends_with(sought.units(), &text.units()[..end]))))
}

/// The methods that go over the whole text.
fn whole_method(
    alloc: Global,
    text: &Text,
    name: &Text,
    v: &Value,
    w: &Value,
) -> Result<Ended, NoMemory>
    ensures { IfOk result (λ e. e ≡ text_whole text.now name.now v.now w.now) }
{
    if named(name, b"split") {
        split(alloc, text, v, w)
    } else if named(name, b"toString") {
        let copy = text.copy(alloc)?;
        Ok(Ended::Value(Value::Text(copy)))
    } else {
        Ok(Ended::Threw(Cause::Call))
    }
}

/// The methods that search, and those that go over the whole text.
fn search_method(
    alloc: Global,
    text: &Text,
    name: &Text,
    v: &Value,
    w: &Value,
) -> Result<Ended, NoMemory>
    ensures { IfOk result (λ e. e ≡ text_search text.now name.now v.now w.now) }
{
    if named(name, b"indexOf") {
        index_of(text, v, w)
    } else if named(name, b"includes") {
        Ok(includes(text, v, w))
    } else if named(name, b"startsWith") {
        Ok(starts_with(text, v, w))
    } else if named(name, b"endsWith") {
        ends_before(text, v, w)
    } else {
        whole_method(alloc, text, name, v, w)
    }
}

/// A reading method of a text, with its first two arguments.
pub(crate) fn text_method(
    alloc: Global,
    text: &Text,
    name: &Text,
    v: &Value,
    w: &Value,
) -> Result<Ended, NoMemory>
    ensures { IfOk result (λ e. e ≡ text_method text.now name.now v.now w.now) }
{
    if named(name, b"charAt") {
        char_at(alloc, text, v)
    } else if named(name, b"charCodeAt") {
        char_code_at(alloc, text, v)
    } else if named(name, b"slice") {
        slice(alloc, text, v, w)
    } else if named(name, b"substring") {
        substring(alloc, text, v, w)
    } else {
        search_method(alloc, text, name, v, w)
    }
}
