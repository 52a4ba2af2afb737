//! Arguments of calls, and places that they tell.

ghost use Rattle.std.specs.Prelude.{◌≡◌, ◌≤◌, ℤ, pos, true, IfOk, MatchOption};
ghost use Rattle.evaluation.specs.declared.came.Ended.{Ended as E};
ghost use Rattle.js_meaning.specs.Operate.{is_negative, threw_kind};
ghost use Rattle.js_meaning.specs.Rows.{at_place};
ghost use Rattle.js_meaning.specs.Methods.{clamped, from_end, with_number_or, place_or, item_or_null};

use evaluation::Ended;
use qml_text::NoMemory;
use qml_value::{Num, Value};

/// The first argument; an absent one is Undefined.
pub fn first_of<'a>(values: &'a [Value], absent: &'a Value) -> &'a Value
    requires { absent.now ≡ Value.Undefined }
    ensures { result.now ≡ at_place values.now 0 }
{
    match values.split_first() {
        Some((value, _)) => value,
        None => absent,
    }
}

/// The second argument; an absent one is Undefined.
pub(crate) fn second_of<'a>(values: &'a [Value], absent: &'a Value) -> &'a Value
    requires { absent.now ≡ Value.Undefined }
    ensures { result.now ≡ at_place values.now 1 }
{
    match values.split_first() {
        Some((_, rest)) => first_of(rest, absent),
        None => absent,
    }
}

/// A place in what has this size; below the start it is the start.
pub(crate) fn clamped(size: usize, z: i64) -> usize
    ensures is { result ≡ clamped size z }
    ensures within { result ≤ size }
{
    let n = z.unsigned_abs();
    if z < 0 {
        0
    } else if n > size as u64 {
        size
    } else {
        n as usize
    }
}

/// A place in what has this size; below the start it is counted from the end.
pub(crate) fn from_end(size: usize, z: i64) -> usize
    ensures is { result ≡ from_end size z }
    ensures within { result ≤ size }
{
    let n = z.unsigned_abs();
    if z < 0 {
        if n > size as u64 {
            0
        } else {
            size - n as usize
        }
    } else if n > size as u64 {
        size
    } else {
        n as usize
    }
}

/// The number that an argument is, or this one where it is absent.
pub(crate) fn number_or(value: &Value, absent: i64) -> Option<i64>
    ensures { MatchOption result ((go : ℤ → E) → with_number_or absent value.now go ≡ threw_kind)
        (λ z. (go : ℤ → E) → with_number_or absent value.now go ≡ go z) }
{
    match value {
        Value::Undefined => Some(absent),
        Value::Num(n) => Some(n.get()),
        _ => None,
    }
}

/// A size as a number.
pub(crate) fn size_number(size: usize) -> Result<i64, NoMemory>
    ensures { IfOk result (λ z. z ≡ pos size) }
{
    match i64::try_from(size) {
        Ok(z) => Ok(z),
        Err(_) => Err(NoMemory),
    }
}

/// A place counted from 0 on, if it is one.
pub(crate) fn place_in(z: i64) -> Option<u64>
    ensures { MatchOption result (is_negative z ≡ true) (λ n. z ≡ pos n) }
{
    if z < 0 { None } else { Some(z.unsigned_abs()) }
}

/// A place that was found, as a value: -1 where there is none.
pub(crate) fn place_or(found: Option<usize>) -> Result<Ended, NoMemory>
    ensures { IfOk result (λ e. e ≡ place_or found) }
{
    let place = match found {
        Some(at) => size_number(at)?,
        None => -1,
    };
    match Num::new(i128::from(place)) {
        Ok(n) => Ok(Ended::Value(Value::Num(n))),
        Err(_) => Err(NoMemory),
    }
}

/// The value at a place, if there is one.
#[tactic(auto, using(crate::proofs::MethodLemmas::at_inside, crate::proofs::MethodLemmas::at_outside, crate::proofs::MethodLemmas::item_inside, crate::proofs::MethodLemmas::item_outside))]
pub(crate) fn value_in(values: &[Value], at: u64) -> Option<&Value>
    ensures place { MatchOption result
        (at_place values.now at ≡ Value.Undefined) (λ v. at_place values.now at ≡ v.now) }
    ensures item { MatchOption result
        (item_or_null values.now at ≡ Value.Null) (λ v. item_or_null values.now at ≡ v.now) }
{
    if at < values.len() as u64 {
        Some(&values[at as usize])
    } else {
        None
    }
}
