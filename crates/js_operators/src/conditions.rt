//! What counts as true.

ghost use Rattle.std.specs.Prelude.{◌≡◌};
ghost use Rattle.js_meaning.specs.Operate.{counts, is_nothing};
ghost use Rattle.js_meaning.specs.Looking.{decides};

use qml_syntax::Operator;
use qml_value::Value;

/// Whether a value counts as true (ECMA-262, 7.1.2 ToBoolean).
pub fn truth(value: &Value) -> bool
    ensures { result ≡ counts value.now }
{
    match value {
        Value::Undefined | Value::Null => false,
        Value::Bool(b) => *b,
        Value::Num(n) => n.get() != 0,
        Value::Text(text) => !text.is_empty(),
        Value::List(_) | Value::Fields(_) | Value::Object(_) | Value::Component(_) => true,
    }
}

/// Whether a value is Undefined or Null.
pub fn is_nothing(value: &Value) -> bool
    ensures { result ≡ is_nothing value.now }
{
    match value {
        Value::Undefined | Value::Null => true,
        _ => false,
    }
}

/// Whether the left operand of `&&`, `||` or `??` is the value, so that the right one isn't evaluated (ECMA-262, 13.13).
pub fn decided(op: Operator, left: &Value) -> bool
    ensures { result ≡ decides op left.now }
{
    match op {
        Operator::And => !truth(left),
        Operator::Or => truth(left),
        Operator::Coalesce => !is_nothing(left),
        _ => false,
    }
}
