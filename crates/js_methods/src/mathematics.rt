//! The functions of `Math`.

ghost use Rattle.std.specs.Prelude.{◌≡◌, ℤ, int_lt, if◌then◌else◌, MatchOption};
ghost use Rattle.evaluation.specs.declared.came.Ended.{Ended as E};
ghost use Rattle.js_meaning.specs.Rows.{at_place};
ghost use Rattle.js_meaning.specs.Operate.{bounded};
ghost use Rattle.js_meaning.specs.Methods.{math_method, is_rounding, magnitude, with_number, best, best_of};

use crate::arguments::first_of;
use crate::naming::named;
use evaluation::Ended;
use js_operators::within;
use qml_base::Cause;
use qml_text::Text;
use qml_value::{Num, Value};

/// The least number of these and one more (ECMA-262, 21.3.2.25).
fn least_of(first: Num, values: &[Value]) -> Ended
    ensures { result ≡ best_of int_lt first values.now }
{
    let mut least = first;
    let mut rest = values;
    'values: while let Some((value, behind)) = rest.split_first() {
        let Some(n) = number_in(value) else {
            return Ended::Threw(Cause::Kind);
        };
        least = lesser(n, least);
        rest = behind;
    }
    Ended::Value(Value::Num(least))
}

/// The greatest number of these and one more (ECMA-262, 21.3.2.24).
fn greatest_of(first: Num, values: &[Value]) -> Ended
    ensures { result ≡ best_of (λ a b. int_lt b a) first values.now }
{
    let mut greatest = first;
    let mut rest = values;
    'values: while let Some((value, behind)) = rest.split_first() {
        let Some(n) = number_in(value) else {
            return Ended::Threw(Cause::Kind);
        };
        greatest = greater(n, greatest);
        rest = behind;
    }
    Ended::Value(Value::Num(greatest))
}

/// The number that a value is.
fn number_in(value: &Value) -> Option<Num>
    ensures { MatchOption result
        ((go : ℤ → E) → with_number value.now go ≡ Ended.Threw Cause.Kind) (λ n. value.now ≡ Value.Num n) }
{
    match value {
        Value::Num(n) => Some(*n),
        _ => None,
    }
}

fn lesser(a: Num, b: Num) -> Num
    ensures { result ≡ (if int_lt a b then a else b) }
{
    if a.get() < b.get() { a } else { b }
}

fn greater(a: Num, b: Num) -> Num
    ensures { result ≡ (if int_lt b a then a else b) }
{
    if b.get() < a.get() { a } else { b }
}

fn least(values: &[Value]) -> Ended
    ensures { result ≡ best int_lt values.now }
{
    match values.split_first() {
        None => Ended::Threw(Cause::Kind),
        Some((value, rest)) => match number_in(value) {
            Some(n) => least_of(n, rest),
            None => Ended::Threw(Cause::Kind),
        },
    }
}

fn greatest(values: &[Value]) -> Ended
    ensures { result ≡ best (λ a b. int_lt b a) values.now }
{
    match values.split_first() {
        None => Ended::Threw(Cause::Kind),
        Some((value, rest)) => match number_in(value) {
            Some(n) => greatest_of(n, rest),
            None => Ended::Threw(Cause::Kind),
        },
    }
}

fn is_rounding(name: &Text) -> bool
    ensures { result ≡ is_rounding name.now }
{
    named(name, b"floor") || named(name, b"ceil") || named(name, b"trunc")
}

/// A whole number is rounded already.
fn whole(value: &Value) -> Ended
    ensures { result ≡ with_number value.now (λ z. Ended.Value (Value.Num z)) }
{
    match value {
        Value::Num(n) => Ended::Value(Value::Num(*n)),
        _ => Ended::Threw(Cause::Kind),
    }
}

fn absolute(value: &Value) -> Ended
    ensures { result ≡ with_number value.now (λ z. bounded (magnitude z)) }
{
    match value {
        Value::Num(n) => within(i128::from(n.get().unsigned_abs())),
        _ => Ended::Threw(Cause::Kind),
    }
}

/// A function of `Math` (ECMA-262, 21.3.2), with its arguments.
pub fn math(name: &Text, values: &[Value]) -> Ended
    ensures { result ≡ math_method name.now values.now }
{
    let absent = Value::Undefined;
    if is_rounding(name) {
        whole(first_of(values, &absent))
    } else if named(name, b"abs") {
        absolute(first_of(values, &absent))
    } else if named(name, b"min") {
        least(values)
    } else if named(name, b"max") {
        greatest(values)
    } else {
        Ended::Threw(Cause::Call)
    }
}
