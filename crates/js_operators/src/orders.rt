//! Which values are equal, and which come before others.

ghost use Rattle.std.specs.Prelude.{◌≡◌, not, true};
ghost use Rattle.js_meaning.specs.Operate.{same_values, same_kind, equal, operate};

use crate::conditions::is_nothing;
use crate::texts::units_before;
use evaluation::Ended;
use qml_base::Cause;
use qml_syntax::Operator;
use qml_value::Value;

fn bool_value(b: bool) -> Ended
    ensures { result ≡ Ended.Value (Value.Bool b) }
{
    Ended::Value(Value::Bool(b))
}

/// Whether two values are the same (ECMA-262, 7.2.15 IsStrictlyEqual, with lists and fields by their parts).
pub fn same(left: &Value, right: &Value) -> bool
    ensures { result ≡ same_values left.now right.now }
{
    left.same(right)
}

/// Whether two values are of one kind.
fn same_kind(left: &Value, right: &Value) -> bool
    ensures { result ≡ same_kind left.now right.now }
{
    match (left, right) {
        (Value::Bool(_), Value::Bool(_)) => true,
        (Value::Num(_), Value::Num(_)) => true,
        (Value::Text(_), Value::Text(_)) => true,
        (Value::List(_), Value::List(_)) => true,
        (Value::Fields(_), Value::Fields(_)) => true,
        (Value::Object(_), Value::Object(_)) => true,
        (Value::Component(_), Value::Component(_)) => true,
        _ => false,
    }
}

/// `==`: with Undefined or Null on a side both have to be of these, else both have to be of one kind.
pub(crate) fn equal(left: &Value, right: &Value) -> Ended
    ensures { result ≡ equal (λ b. b) left.now right.now }
{
    if is_nothing(left) || is_nothing(right) {
        bool_value(is_nothing(left) && is_nothing(right))
    } else if same_kind(left, right) {
        bool_value(same(left, right))
    } else {
        Ended::Threw(Cause::Kind)
    }
}

/// `!=`.
pub(crate) fn unequal(left: &Value, right: &Value) -> Ended
    ensures { result ≡ equal not left.now right.now }
{
    if is_nothing(left) || is_nothing(right) {
        bool_value(!(is_nothing(left) && is_nothing(right)))
    } else if same_kind(left, right) {
        bool_value(!same(left, right))
    } else {
        Ended::Threw(Cause::Kind)
    }
}

/// `<` of two numbers or of two texts by their units (ECMA-262, 7.2.13 IsLessThan).
pub(crate) fn less(left: &Value, right: &Value) -> Ended
    ensures { result ≡ operate Operator.Less left.now right.now }
{
    match (left, right) {
        (Value::Num(a), Value::Num(b)) => bool_value(a.get() < b.get()),
        (Value::Text(a), Value::Text(b)) => bool_value(units_before(a.units(), b.units())),
        _ => Ended::Threw(Cause::Kind),
    }
}

/// `>`.
pub(crate) fn greater(left: &Value, right: &Value) -> Ended
    ensures { result ≡ operate Operator.Greater left.now right.now }
{
    match (left, right) {
        (Value::Num(a), Value::Num(b)) => bool_value(b.get() < a.get()),
        (Value::Text(a), Value::Text(b)) => bool_value(units_before(b.units(), a.units())),
        _ => Ended::Threw(Cause::Kind),
    }
}

/// `<=`.
pub(crate) fn not_greater(left: &Value, right: &Value) -> Ended
    ensures { result ≡ operate Operator.LessEqual left.now right.now }
{
    match (left, right) {
        (Value::Num(a), Value::Num(b)) => bool_value(a.get() <= b.get()),
        (Value::Text(a), Value::Text(b)) => bool_value(!units_before(b.units(), a.units())),
        _ => Ended::Threw(Cause::Kind),
    }
}

/// `>=`.
pub(crate) fn not_less(left: &Value, right: &Value) -> Ended
    ensures { result ≡ operate Operator.GreaterEqual left.now right.now }
{
    match (left, right) {
        (Value::Num(a), Value::Num(b)) => bool_value(b.get() <= a.get()),
        (Value::Text(a), Value::Text(b)) => bool_value(!units_before(a.units(), b.units())),
        _ => Ended::Threw(Cause::Kind),
    }
}
