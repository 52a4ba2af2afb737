//! Values, as the trace shows them.

ghost use Rattle.std.specs.Prelude.{◌≡◌, ◌++◌, OnOk, ◌<◌, codes, map};
ghost use Rattle.std.specs.Fmt.{signed_decimal};
ghost use Rattle.qml_text.specs.Parts.{join_of};
ghost use Rattle.trace_print.specs.Shown.{hex_digit, numbered, escaped, quoted, shown, shown_field};

use crate::shown::{show_ascii, show_object, show_word};
use itoa::Buffer;
use qml_text::{NoMemory, Text, TextBuilder};
use qml_value::{Field, Value};

/// A hexadecimal digit.
fn digit_of(number: u16) -> u16
    requires { number < 16 }
    ensures { result ≡ hex_digit number }
{
    if number < 10 {
        48 + number
    } else {
        87 + number
    }
}

/// Adds a unit of a text between quotes.
fn show_unit(out: &mut TextBuilder, unit: u16) -> Result<(), NoMemory>
    ensures { OnOk result (out.new ≡ out.old ++ escaped unit) }
{
    match unit {
        34 => show_ascii(out, b"\\\""),
        92 => show_ascii(out, b"\\\\"),
        10 => show_ascii(out, b"\\n"),
        13 => show_ascii(out, b"\\r"),
        9 => show_ascii(out, b"\\t"),
        _ => show_other(out, unit),
    }
}

/// Adds a unit that has no escape of its own.
fn show_other(out: &mut TextBuilder, unit: u16) -> Result<(), NoMemory>
    ensures { OnOk result (out.new ≡ out.old ++ numbered unit) }
{
    if unit >= 32 {
        return out.push_unit(unit);
    }
    show_ascii(out, b"\\u00")?;
    out.push_unit(digit_of(unit / 16))?;
    out.push_unit(digit_of(unit % 16))
}

/// Adds a text in quotes.
fn show_quoted(out: &mut TextBuilder, text: &Text) -> Result<(), NoMemory>
    ensures { OnOk result (out.new ≡ out.old ++ quoted text.now) }
{
    out.push_unit(34)?;
    'units: for unit in text.units() {
        show_unit(out, *unit)?;
    }
    out.push_unit(34)
}

/// Adds a value. It recurses as deep as lists and fields are nested, which is at most 100.
#[cycle(showing)]
pub fn show_value(out: &mut TextBuilder, value: &Value) -> Result<(), NoMemory>
    ensures { OnOk result (out.new ≡ out.old ++ shown value.now) }
{
    match value {
        Value::Undefined => show_ascii(out, b"undefined"),
        Value::Null => show_ascii(out, b"null"),
        Value::Bool(true) => show_ascii(out, b"true"),
        Value::Bool(false) => show_ascii(out, b"false"),
        Value::Num(number) => show_signed(out, number.get()),
        Value::Text(text) => show_quoted(out, text),
        Value::List(values) => show_list(out, values.parts()),
        Value::Fields(fields) => show_fields(out, fields.parts()),
        Value::Object(object) => show_object(out, *object),
        Value::Component(object) => show_word(out, b"component ", *object),
    }
}

/// Adds a number.
fn show_signed(out: &mut TextBuilder, number: i64) -> Result<(), NoMemory>
    ensures { OnOk result (out.new ≡ out.old ++ signed_decimal number) }
{
    let mut digits = Buffer::new();
    show_ascii(out, digits.format(number).as_bytes())
}

/// Adds a list in brackets.
#[cycle(showing)]
fn show_list(out: &mut TextBuilder, values: &[Value]) -> Result<(), NoMemory>
    ensures { OnOk result (out.new ≡ out.old ++ (codes "[" ++ join_of (codes ", ") (map shown values.now) ++ codes "]")) }
{
    show_ascii(out, b"[")?;
    show_values(out, values)?;
    show_ascii(out, b"]")
}

/// Adds values, with a comma and a blank between two.
#[cycle(showing)]
fn show_values(out: &mut TextBuilder, values: &[Value]) -> Result<(), NoMemory>
    ensures { OnOk result (out.new ≡ out.old ++ join_of (codes ", ") (map shown values.now)) }
{
    let Some((first, rest)) = values.split_first() else {
        return Ok(());
    };
    show_value(out, first)?;
    'rest: for value in rest {
        show_next_value(out, value)?;
    }
    Ok(())
}

/// Adds a comma, a blank and a value.
#[cycle(showing)]
fn show_next_value(out: &mut TextBuilder, value: &Value) -> Result<(), NoMemory>
    ensures { OnOk result (out.new ≡ out.old ++ codes ", " ++ shown value.now) }
{
    show_ascii(out, b", ")?;
    show_value(out, value)
}

/// Adds fields in braces.
#[cycle(showing)]
fn show_fields(out: &mut TextBuilder, fields: &[Field]) -> Result<(), NoMemory>
    ensures { OnOk result (out.new ≡ out.old ++ (codes "{" ++ join_of (codes ", ") (map shown_field fields.now) ++ codes "}")) }
{
    show_ascii(out, b"{")?;
    show_all_fields(out, fields)?;
    show_ascii(out, b"}")
}

/// Adds fields, with a comma and a blank between two.
#[cycle(showing)]
fn show_all_fields(out: &mut TextBuilder, fields: &[Field]) -> Result<(), NoMemory>
    ensures { OnOk result (out.new ≡ out.old ++ join_of (codes ", ") (map shown_field fields.now)) }
{
    let Some((first, rest)) = fields.split_first() else {
        return Ok(());
    };
    show_field(out, first)?;
    'rest: for field in rest {
        show_next_field(out, field)?;
    }
    Ok(())
}

/// Adds a field: its name as it is, and its value.
#[cycle(showing)]
fn show_field(out: &mut TextBuilder, field: &Field) -> Result<(), NoMemory>
    ensures { OnOk result (out.new ≡ out.old ++ shown_field field.now) }
{
    out.append(&field.name)?;
    show_ascii(out, b": ")?;
    show_value(out, &field.value)
}

/// Adds a comma, a blank and a field.
#[cycle(showing)]
fn show_next_field(out: &mut TextBuilder, field: &Field) -> Result<(), NoMemory>
    ensures { OnOk result (out.new ≡ out.old ++ codes ", " ++ shown_field field.now) }
{
    show_ascii(out, b", ")?;
    show_field(out, field)
}
