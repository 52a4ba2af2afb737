//! All operators between two values.

ghost use Rattle.std.specs.Prelude.{◌≡◌, ◌-ℤ◌, ◌*ℤ◌, ℕ, ℤ, if◌then◌else◌, MatchOption, IfOk};
ghost use Rattle.evaluation.specs.declared.came.Ended.{Ended};
ghost use Rattle.js_meaning.specs.Operate.{low_bits, on_bits, bounded, threw_kind, operate, operate_rounded};

use crate::adding::plus;
use crate::bits::{low_bits, shifted_left, shifted_right, shifted_right_unsigned, with_sign};
use crate::conditions::{is_nothing, truth};
use crate::numbers::{both_numbers, divided, divided_rounded, left_over, within};
use crate::orders::{equal, greater, less, not_greater, not_less, same, unequal};
use evaluation::Ended;
use js_meaning::Rounding;
use qml_base::Cause;
use qml_syntax::Operator;
use qml_text::NoMemory;
use qml_value::Value;
use std::alloc::Global;

/// The 32 low bits of two numbers, if both values are numbers.
fn both_bits(left: &Value, right: &Value) -> Option<(u32, u32)>
    ensures { MatchOption result ((f : ℕ → ℕ → ℤ) → on_bits f left.now right.now ≡ threw_kind)
        (λ p. (f : ℕ → ℕ → ℤ) → on_bits f left.now right.now ≡ bounded (f p.0 p.1)) }
{
    match (left, right) {
        (Value::Num(a), Value::Num(b)) => Some((low_bits(a.get()), low_bits(b.get()))),
        _ => None,
    }
}

/// `-` of numbers (ECMA-262, 13.8.2 by 6.1.6.1.8 Number::subtract).
fn minus(left: &Value, right: &Value) -> Ended
    ensures { result ≡ operate Operator.Minus left.now right.now }
{
    match both_numbers(left, right) {
        Some((a, b)) => within(i128::from(a) - i128::from(b)),
        None => Ended::Threw(Cause::Kind),
    }
}

/// `*` of numbers (ECMA-262, 13.7 by 6.1.6.1.4 Number::multiply).
fn times(left: &Value, right: &Value) -> Ended
    ensures { result ≡ operate Operator.Times left.now right.now }
{
    match both_numbers(left, right) {
        Some((a, b)) => within(i128::from(a) * i128::from(b)),
        None => Ended::Threw(Cause::Kind),
    }
}

/// `/` of numbers: exact, or a throw (ECMA-262, 13.7 by 6.1.6.1.5 Number::divide).
fn quotient(left: &Value, right: &Value) -> Ended
    ensures { result ≡ operate Operator.Divide left.now right.now }
{
    match both_numbers(left, right) {
        Some((a, b)) => divided(a, b),
        None => Ended::Threw(Cause::Kind),
    }
}

/// `%` of numbers (ECMA-262, 13.7 by 6.1.6.1.6 Number::remainder).
fn remainder(left: &Value, right: &Value) -> Ended
    ensures { result ≡ operate Operator.Remainder left.now right.now }
{
    match both_numbers(left, right) {
        Some((a, b)) => left_over(a, b),
        None => Ended::Threw(Cause::Kind),
    }
}

/// `|` on 32 bits (ECMA-262, 13.12 by 6.1.6.1.19 Number::bitwiseOR).
fn bit_or(left: &Value, right: &Value) -> Ended
    ensures { result ≡ operate Operator.BitOr left.now right.now }
{
    match both_bits(left, right) {
        Some((a, b)) => within(i128::from(with_sign(a | b))),
        None => Ended::Threw(Cause::Kind),
    }
}

/// `^` on 32 bits (ECMA-262, 13.12 by 6.1.6.1.18 Number::bitwiseXOR).
fn bit_xor(left: &Value, right: &Value) -> Ended
    ensures { result ≡ operate Operator.BitXor left.now right.now }
{
    match both_bits(left, right) {
        Some((a, b)) => within(i128::from(with_sign(a ^ b))),
        None => Ended::Threw(Cause::Kind),
    }
}

/// `&` on 32 bits (ECMA-262, 13.12 by 6.1.6.1.17 Number::bitwiseAND).
fn bit_and(left: &Value, right: &Value) -> Ended
    ensures { result ≡ operate Operator.BitAnd left.now right.now }
{
    match both_bits(left, right) {
        Some((a, b)) => within(i128::from(with_sign(a & b))),
        None => Ended::Threw(Cause::Kind),
    }
}

/// `<<` on 32 bits, the count modulo 32 (ECMA-262, 13.9.1 by 6.1.6.1.9 Number::leftShift).
fn shift_left(left: &Value, right: &Value) -> Ended
    ensures { result ≡ operate Operator.ShiftLeft left.now right.now }
{
    match both_bits(left, right) {
        Some((a, b)) => within(i128::from(shifted_left(a, b))),
        None => Ended::Threw(Cause::Kind),
    }
}

/// `>>` on 32 bits, the count modulo 32 (ECMA-262, 13.9.2 by 6.1.6.1.10 Number::signedRightShift).
fn shift_right(left: &Value, right: &Value) -> Ended
    ensures { result ≡ operate Operator.ShiftRight left.now right.now }
{
    match both_bits(left, right) {
        Some((a, b)) => within(i128::from(shifted_right(a, b))),
        None => Ended::Threw(Cause::Kind),
    }
}

/// `>>>` on 32 bits, the count modulo 32 (ECMA-262, 13.9.3 by 6.1.6.1.11 Number::unsignedRightShift).
fn shift_right_unsigned(left: &Value, right: &Value) -> Ended
    ensures { result ≡ operate Operator.ShiftRightUnsigned left.now right.now }
{
    match both_bits(left, right) {
        Some((a, b)) => within(i128::from(shifted_right_unsigned(a, b))),
        None => Ended::Threw(Cause::Kind),
    }
}

/// The left operand or the right one, as `&&`, `||` and `??` give it (ECMA-262, 13.13).
fn either(is_left: bool, left: Value, right: Value) -> Ended
    ensures { result ≡ Ended.Value (if is_left then left else right) }
{
    if is_left {
        Ended::Value(left)
    } else {
        Ended::Value(right)
    }
}

/// An operator between two values (ECMA-262, 13.6 to 13.13, on these values).
pub fn operate(alloc: Global, op: Operator, left: Value, right: Value) -> Result<Ended, NoMemory>
    ensures { IfOk result (λ e. e ≡ operate op left right) }
{
    match op {
        Operator::Plus => plus(alloc, &left, &right),
        Operator::Minus => Ok(minus(&left, &right)),
        Operator::Times => Ok(times(&left, &right)),
        Operator::Divide => Ok(quotient(&left, &right)),
        Operator::Remainder => Ok(remainder(&left, &right)),
        Operator::Less => Ok(less(&left, &right)),
        Operator::Greater => Ok(greater(&left, &right)),
        Operator::LessEqual => Ok(not_greater(&left, &right)),
        Operator::GreaterEqual => Ok(not_less(&left, &right)),
        Operator::Equal => Ok(equal(&left, &right)),
        Operator::NotEqual => Ok(unequal(&left, &right)),
        Operator::StrictEqual => Ok(Ended::Value(Value::Bool(same(&left, &right)))),
        Operator::StrictNotEqual => Ok(Ended::Value(Value::Bool(!same(&left, &right)))),
        Operator::Coalesce => Ok(either(!is_nothing(&left), left, right)),
        Operator::Or => Ok(either(truth(&left), left, right)),
        Operator::And => Ok(either(!truth(&left), left, right)),
        Operator::BitOr => Ok(bit_or(&left, &right)),
        Operator::BitXor => Ok(bit_xor(&left, &right)),
        Operator::BitAnd => Ok(bit_and(&left, &right)),
        Operator::ShiftLeft => Ok(shift_left(&left, &right)),
        Operator::ShiftRight => Ok(shift_right(&left, &right)),
        Operator::ShiftRightUnsigned => Ok(shift_right_unsigned(&left, &right)),
    }
}

/// An operator whose quotient is rounded, as that directly inside `Math.floor` is.
pub fn operate_rounded(
    alloc: Global,
    how: Rounding,
    op: Operator,
    left: Value,
    right: Value,
) -> Result<Ended, NoMemory>
    ensures { IfOk result (λ e. e ≡ operate_rounded how op left right) }
{
    match op {
        Operator::Divide => Ok(match both_numbers(&left, &right) {
            Some((a, b)) => divided_rounded(how, a, b),
            None => Ended::Threw(Cause::Kind),
        }),
        _ => operate(alloc, op, left, right),
    }
}
