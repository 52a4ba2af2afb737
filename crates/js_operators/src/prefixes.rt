//! Operators before a value.

ghost use Rattle.std.specs.Prelude.{◌≡◌, IfOk};
ghost use Rattle.js_meaning.specs.Operate.{name_of_kind, operate_prefix};

use crate::bits::{low_bits, with_sign};
use crate::conditions::truth;
use crate::numbers::within;
use evaluation::Ended;
use qml_base::Cause;
use qml_syntax::Prefix;
use qml_text::{NoMemory, Text};
use qml_value::Value;
use std::alloc::Global;

/// What `typeof` gives, in ASCII (ECMA-262, 13.5.3).
fn kind_name(value: &Value) -> &'static [u8]
    ensures { result.now ≡ name_of_kind value.now }
{
    match value {
        Value::Undefined => b"undefined",
        Value::Bool(_) => b"boolean",
        Value::Num(_) => b"number",
        Value::Text(_) => b"string",
        _ => b"object",
    }
}

/// `-` before a number (ECMA-262, 13.5.5 by 6.1.6.1.1 Number::unaryMinus).
fn minus(value: &Value) -> Ended
    ensures { result ≡ operate_prefix Prefix.Minus value.now }
{
    match value {
        Value::Num(n) => within(-i128::from(n.get())),
        _ => Ended::Threw(Cause::Kind),
    }
}

/// `+` before a number, which stays (ECMA-262, 13.5.4).
fn plus(value: &Value) -> Ended
    ensures { result ≡ operate_prefix Prefix.Plus value.now }
{
    match value {
        Value::Num(n) => within(i128::from(n.get())),
        _ => Ended::Threw(Cause::Kind),
    }
}

/// `~` before a number (ECMA-262, 13.5.6 by 6.1.6.1.2 Number::bitwiseNOT).
fn inverted(value: &Value) -> Ended
    ensures { result ≡ operate_prefix Prefix.BitNot value.now }
{
    match value {
        Value::Num(n) => within(i128::from(with_sign(4_294_967_295 - low_bits(n.get())))),
        _ => Ended::Threw(Cause::Kind),
    }
}

/// A prefix before a value that is there; `++` and `--` want what is assigned to and throw `kind`.
pub fn operate_prefix(alloc: Global, op: Prefix, value: &Value) -> Result<Ended, NoMemory>
    ensures { IfOk result (λ e. e ≡ operate_prefix op value.now) }
{
    match op {
        Prefix::Not => Ok(Ended::Value(Value::Bool(!truth(value)))),
        Prefix::Minus => Ok(minus(value)),
        Prefix::Plus => Ok(plus(value)),
        Prefix::BitNot => Ok(inverted(value)),
        Prefix::TypeOf => {
            let name = Text::from_latin1(alloc, kind_name(value))?;
            Ok(Ended::Value(Value::Text(name)))
        }
        Prefix::Increment | Prefix::Decrement => Ok(Ended::Threw(Cause::Kind)),
    }
}
