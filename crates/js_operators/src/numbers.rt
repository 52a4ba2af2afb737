//! Arithmetic of whole numbers.

ghost use Rattle.std.specs.Prelude.{◌≡◌, ◌≢◌, ℤ, pos, int_div, int_rem, MatchOption};
ghost use Rattle.evaluation.specs.declared.came.Ended.{Ended};
ghost use Rattle.js_meaning.specs.Operate.{bounded, quotient, remainder, rounded, on_nums, threw_kind, is_negative, same_bool};
ghost use Rattle.js_meaning.specs.Operate.{rounded_quotient};

use evaluation::Ended;
use js_meaning::Rounding;
use qml_base::Cause;
use qml_value::{Num, Value};

/// A number, or Past where its magnitude passes 2^53 (ECMA-262, 21.1.2.6: whole numbers are exact up to one less).
pub fn within(n: i128) -> Ended
    ensures { result ≡ bounded n }
{
    match Num::new(n) {
        Ok(n) => Ended::Value(Value::Num(n)),
        Err(_) => Ended::Past,
    }
}

/// Two numbers, if both values are.
pub(crate) fn both_numbers(left: &Value, right: &Value) -> Option<(i64, i64)>
    ensures { MatchOption result ((f : ℤ → ℤ → Ended) → on_nums f left.now right.now ≡ threw_kind)
        (λ p. (f : ℤ → ℤ → Ended) → on_nums f left.now right.now ≡ f p.0 p.1) }
{
    match (left, right) {
        (Value::Num(a), Value::Num(b)) => Some((a.get(), b.get())),
        _ => None,
    }
}

/// A quotient, rounded towards zero.
fn quotient_of(a: i64, b: i64) -> i128
    requires { b ≢ pos 0 }
    ensures { result ≡ int_div a b }
{
    i128::from(a) / i128::from(b)
}

/// What is left over by a division.
fn remainder_of(a: i64, b: i64) -> i128
    requires { b ≢ pos 0 }
    ensures { result ≡ int_rem a b }
{
    i128::from(a) % i128::from(b)
}

/// `/` of numbers: an exact quotient (ECMA-262, 6.1.6.1.5 Number::divide, on whole numbers).
#[tactic(auto, using(js_meaning::proofs::NumberLemmas::quotient_is, js_meaning::proofs::NumberLemmas::quotient_isnt, js_meaning::proofs::NumberLemmas::quotient_zero))]
pub(crate) fn divided(a: i64, b: i64) -> Ended
    ensures { result ≡ quotient a b }
{
    if b == 0 {
        return Ended::Threw(Cause::Zero);
    }
    if remainder_of(a, b) == 0 {
        within(quotient_of(a, b))
    } else {
        Ended::Threw(Cause::Inexact)
    }
}

/// `%` of numbers, with the sign of the dividend (ECMA-262, 6.1.6.1.6 Number::remainder).
#[tactic(auto, using(js_meaning::proofs::NumberLemmas::remainder_is, js_meaning::proofs::NumberLemmas::remainder_zero))]
pub(crate) fn left_over(a: i64, b: i64) -> Ended
    ensures { result ≡ remainder a b }
{
    if b == 0 {
        return Ended::Threw(Cause::Zero);
    }
    within(remainder_of(a, b))
}

/// A quotient, rounded (ECMA-262, 21.3.2.10, 21.3.2.16 and 21.3.2.35).
fn rounded_of(how: Rounding, a: i64, b: i64) -> i128
    requires { b ≢ pos 0 }
    ensures { result ≡ rounded how a b }
{
    let whole = quotient_of(a, b);
    let exact = remainder_of(a, b) == 0;
    let same_side = (a < 0) == (b < 0);
    match how {
        Rounding::Down => if exact || same_side { whole } else { whole - 1 },
        Rounding::Up => if exact || !same_side {
            whole
        } else {
            whole + 1
        },
        Rounding::TowardsZero => whole,
    }
}

/// `/` of numbers directly inside a call that rounds.
#[tactic(auto, using(js_meaning::proofs::NumberLemmas::quotient_of_zero, js_meaning::proofs::NumberLemmas::quotient_rounded))]
pub(crate) fn divided_rounded(how: Rounding, a: i64, b: i64) -> Ended
    ensures { result ≡ rounded_quotient how a b }
{
    if b == 0 {
        return Ended::Threw(Cause::Zero);
    }
    within(rounded_of(how, a, b))
}
