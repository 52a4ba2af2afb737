//! `+` with a text on a side.

ghost use Rattle.std.specs.Prelude.{◌≡◌, ◌++◌, IfOk, codes};
ghost use Rattle.qml_value.specs.Texts.{text_of};
ghost use Rattle.js_meaning.specs.Operate.{weighed, operate};

use crate::numbers::within;
use evaluation::Ended;
use qml_base::Cause;
use qml_syntax::Operator;
use qml_text::{NoMemory, Text, TextBuilder};
use qml_value::{TextOfFault, Value};
use std::alloc::Global;

/// The most units of a text that is not too heavy: it weighs one more.
pub const MOST_UNITS: usize = 1_048_575;

/// Two texts in one.
fn glued(alloc: Global, a: &Text, b: &Text) -> Result<Text, NoMemory>
    ensures { IfOk result (λ t. t ≡ a.now ++ b.now) }
{
    let mut text = TextBuilder::with_capacity(alloc, a.len().saturating_add(b.len()))?;
    text.append(a)?;
    text.append(b)?;
    text.finish(alloc)
}

/// Two texts in one, or a throw of `size` where it is too heavy: no such text is built.
#[tactic(auto, using(crate::proofs::WeightLemmas::heavy_text, crate::proofs::WeightLemmas::light_text, crate::proofs::WeightLemmas::length_of))]
fn put_together(alloc: Global, a: &Text, b: &Text) -> Result<Ended, NoMemory>
    ensures { IfOk result (λ e. e ≡ weighed (Value.Text (a.now ++ b.now))) }
{
    if a.len() > MOST_UNITS || b.len() > MOST_UNITS - a.len() {
        return Ok(Ended::Threw(Cause::Size));
    }
    let text = glued(alloc, a, b)?;
    Ok(Ended::Value(Value::Text(text)))
}

/// A text before the text of a value.
#[tactic(auto, using(crate::proofs::WeightLemmas::heavy_right))]
fn before_text_of(alloc: Global, a: &Text, right: &Value) -> Result<Ended, NoMemory>
    ensures { IfOk result (λ e. e ≡ weighed (Value.Text (a.now ++ text_of right.now))) }
{
    match right.text_of(alloc) {
        Ok(b) => put_together(alloc, a, &b),
        Err(TextOfFault::Heavy) => Ok(Ended::Threw(Cause::Size)),
        Err(TextOfFault::NoMemory) => Err(NoMemory),
    }
}

/// A text behind the text of a value.
#[tactic(auto, using(crate::proofs::WeightLemmas::heavy_left))]
fn behind_text_of(alloc: Global, left: &Value, b: &Text) -> Result<Ended, NoMemory>
    ensures { IfOk result (λ e. e ≡ weighed (Value.Text (text_of left.now ++ b.now))) }
{
    match left.text_of(alloc) {
        Ok(a) => put_together(alloc, &a, b),
        Err(TextOfFault::Heavy) => Ok(Ended::Threw(Cause::Size)),
        Err(TextOfFault::NoMemory) => Err(NoMemory),
    }
}

/// The text of a value, as a value.
#[tactic(auto, using(crate::proofs::WeightLemmas::heavy_text, crate::proofs::WeightLemmas::light_text))]
pub fn text_value(alloc: Global, value: &Value) -> Result<Ended, NoMemory>
    ensures { IfOk result (λ e. e ≡ weighed (Value.Text (text_of value.now))) }
{
    match value.text_of(alloc) {
        Ok(text) => Ok(Ended::Value(Value::Text(text))),
        Err(TextOfFault::Heavy) => Ok(Ended::Threw(Cause::Size)),
        Err(TextOfFault::NoMemory) => Err(NoMemory),
    }
}

/// `+`: two numbers, or a text on one side with the other's text (ECMA-262, 13.15.3 ApplyStringOrNumericBinaryOperator).
pub(crate) fn plus(alloc: Global, left: &Value, right: &Value) -> Result<Ended, NoMemory>
    ensures { IfOk result (λ e. e ≡ operate Operator.Plus left.now right.now) }
{
    match (left, right) {
        (Value::Num(a), Value::Num(b)) => Ok(within(i128::from(a.get()) + i128::from(b.get()))),
        (Value::Text(a), _) => before_text_of(alloc, a, right),
        (_, Value::Text(b)) => behind_text_of(alloc, left, b),
        _ => Ok(Ended::Threw(Cause::Kind)),
    }
}
