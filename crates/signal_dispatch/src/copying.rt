//! Copies for what is delivered.

ghost use Rattle.std.specs.Prelude.{◌≡◌, IfOk};

use qml_base::NoMemory;
use qml_text::Text;
use qml_value::Value;
use std::alloc::Global;

/// A copy of a value.
fn value(alloc: Global, value: &Value) -> Result<Value, NoMemory>
    ensures { IfOk result (λ copy. copy ≡ value.now) }
{
    match value.copy(alloc) {
        Ok(copy) => Ok(copy),
        Err(_) => Err(NoMemory),
    }
}

/// Copies of values.
pub fn values(alloc: Global, values: &[Value]) -> Result<Vec<Value>, NoMemory>
    ensures { IfOk result (λ copies. copies.items ≡ values.now) }
{
    let mut copies = Vec::new(alloc);
    'values: for old in values {
        let copy = value(alloc, old)?;
        copies.push(copy)?;
    }
    Ok(copies)
}

/// A copy of a text.
pub fn text(alloc: Global, text: &Text) -> Result<Text, NoMemory>
    ensures { IfOk result (λ copy. copy ≡ text.now) }
{
    match text.copy(alloc) {
        Ok(copy) => Ok(copy),
        Err(_) => Err(NoMemory),
    }
}

/// Copies of texts.
pub fn texts(alloc: Global, texts: &[Text]) -> Result<Vec<Text>, NoMemory>
    ensures { IfOk result (λ copies. copies.items ≡ texts.now) }
{
    let mut copies = Vec::new(alloc);
    'texts: for old in texts {
        let copy = text(alloc, old)?;
        copies.push(copy)?;
    }
    Ok(copies)
}
