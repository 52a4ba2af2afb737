//! The text of a value.

ghost use Rattle.std.specs.Prelude.{◌≡◌, ◌+◌, ◌≤◌, ◌++◌, length, map, codes};
ghost use Rattle.std.specs.Fmt.{decimal};
ghost use Rattle.qml_text.specs.Parts.{join_of};
ghost use Rattle.qml_value.specs.Texts.{text_of, element_text, next_element_text, IsTextOf, Writes};
ghost use Rattle.qml_value.specs.declared.text.TextOfFault.TheVariants as fault;

use crate::value::Value;
use qml_base::{ObjNo, WEIGHT_LIMIT};
use qml_text::{NoMemory, Text, TextBuilder};
use std::alloc::Global;
use thiserror::Error;

/// The most units of a text that is not too heavy: it weighs one more.
const MOST_UNITS: usize = WEIGHT_LIMIT - 1;

/// Why a value's text isn't given.
#[derive(Clone, Copy, Debug, PartialEq, Eq, Error)]
pub enum TextOfFault {
    /// The text would weigh more than 1,048,576.
    #[error("the text would weigh more than {WEIGHT_LIMIT}")]
    Heavy,
    /// There was no memory.
    #[error("there was no memory")]
    NoMemory,
}

impl From<NoMemory> for TextOfFault {
    ghost from_gives = { λ _ e. e ≡ fault.NoMemory };

    fn from(_error: NoMemory) -> TextOfFault {
        TextOfFault::NoMemory
    }
}

impl Value {
    /// Its text (ECMA-262, 7.1.17 ToString; for lists 23.1.3.16 Array.prototype.join with `,`; for fields 20.1.3.6
    /// Object.prototype.toString): `#` and the number for an object, `component #` and the number for a Component. The
    /// answer is `Heavy` exactly where the text would weigh more than 1,048,576; no such text is built.
    pub fn text_of(&self, alloc: Global) -> Result<Text, TextOfFault>
        ensures { IsTextOf self.now result }
    {
        let mut text = TextBuilder::new(alloc);
        self.write_text(alloc, &mut text)?;
        Ok(text.finish(alloc)?)
    }

    /// Writes its text at the end of `text`.
    #[cycle(writing)]
    fn write_text(&self, alloc: Global, text: &mut TextBuilder) -> Result<(), TextOfFault>
        requires { 1 + length text.old ≤ 1048576 }
        ensures { Writes text.old (text_of self.now) text.new result }
    {
        match self {
            Value::Undefined => write_ascii(text, b"undefined"),
            Value::Null => write_ascii(text, b"null"),
            Value::Bool(true) => write_ascii(text, b"true"),
            Value::Bool(false) => write_ascii(text, b"false"),
            Value::Num(number) => write(text, &Text::of_number(alloc, number.get())?),
            Value::Text(units) => write(text, units),
            Value::List(values) => write_elements(values.parts(), alloc, text),
            Value::Fields(_) => write_ascii(text, b"[object Object]"),
            Value::Object(number) => write_number(b"#", *number, alloc, text),
            Value::Component(number) => write_number(b"component #", *number, alloc, text),
        }
    }

    /// Writes the text that it has as an element of a list.
    #[cycle(writing)]
    fn write_element(&self, alloc: Global, text: &mut TextBuilder) -> Result<(), TextOfFault>
        requires { 1 + length text.old ≤ 1048576 }
        ensures { Writes text.old (element_text self.now) text.new result }
    {
        match self {
            Value::Undefined | Value::Null => Ok(()),
            _ => self.write_text(alloc, text),
        }
    }

    /// Writes a comma and the text that it has as an element of a list.
    #[cycle(writing)]
    fn write_next_element(&self, alloc: Global, text: &mut TextBuilder) -> Result<(), TextOfFault>
        requires { 1 + length text.old ≤ 1048576 }
        ensures { Writes text.old (next_element_text self.now) text.new result }
    {
        write_ascii(text, b",")?;
        self.write_element(alloc, text)
    }
}

/// Writes the texts of a list's elements, a comma between two.
#[cycle(writing)]
fn write_elements(
    values: &[Value],
    alloc: Global,
    text: &mut TextBuilder,
) -> Result<(), TextOfFault>
    requires { 1 + length text.old ≤ 1048576 }
    ensures { Writes text.old (join_of (codes ",") (map element_text values.now)) text.new result }
{
    let Some((first, rest)) = values.split_first() else {
        return Ok(());
    };
    first.write_element(alloc, text)?;
    'rest: for value in rest {
        value.write_next_element(alloc, text)?;
    }
    Ok(())
}

/// Writes `more`.
fn write(text: &mut TextBuilder, more: &Text) -> Result<(), TextOfFault>
    requires { 1 + length text.old ≤ 1048576 }
    ensures { Writes text.old more.now text.new result }
{
    if more.len() > MOST_UNITS - text.len() {
        return Err(TextOfFault::Heavy);
    }
    text.append(more)?;
    Ok(())
}

/// Writes the characters of these bytes, which are ASCII.
fn write_ascii(text: &mut TextBuilder, bytes: &[u8]) -> Result<(), TextOfFault>
    requires { 1 + length text.old ≤ 1048576 }
    ensures { Writes text.old bytes.now text.new result }
{
    if bytes.len() > MOST_UNITS - text.len() {
        return Err(TextOfFault::Heavy);
    }
    'bytes: for byte in bytes {
        text.push_unit(u16::from(*byte))?;
    }
    Ok(())
}

/// Writes `mark`, which is ASCII, and the number of an object.
fn write_number(
    mark: &[u8],
    number: ObjNo,
    alloc: Global,
    text: &mut TextBuilder,
) -> Result<(), TextOfFault>
    requires { 1 + length text.old ≤ 1048576 }
    ensures { Writes text.old (mark.now ++ decimal number.0) text.new result }
{
    write_ascii(text, mark)?;
    write(text, &Text::of_number(alloc, i64::from(number.0))?)
}
