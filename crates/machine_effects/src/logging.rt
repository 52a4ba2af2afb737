//! `console.log` (Qt 5.15, Debugging QML Applications).

ghost use Rattle.std.specs.Prelude.{◌≡◌, IfOk};
ghost use Rattle.machine_effects.specs.Logging.{IsText, AreTexts};

use qml_base::NoMemory;
use qml_text::Text;
use qml_value::{TextOfFault, Value};
use std::alloc::Global;

/// The text of a value, if it isn't too heavy.
#[tactic(auto, using(crate::proofs::LoggingLemmas::is_light, crate::proofs::LoggingLemmas::is_too_heavy))]
fn text(alloc: Global, value: &Value) -> Result<Option<Text>, NoMemory>
    ensures { IfOk result (λ text. IsText value.now text) }
{
    match value.text_of(alloc) {
        Ok(text) => Ok(Some(text)),
        Err(TextOfFault::Heavy) => Ok(None),
        Err(TextOfFault::NoMemory) => Err(NoMemory),
    }
}

/// The texts of values, if none is too heavy.
pub fn texts(alloc: Global, values: &[Value]) -> Result<Option<Vec<Text>>, NoMemory>
    ensures { IfOk result (λ texts. AreTexts values.now texts) }
{
    let mut texts = Vec::new(alloc);
    'values: for value in values {
        let Some(text) = text(alloc, value)? else {
            return Ok(None);
        };
        texts.push(text)?;
    }
    Ok(Some(texts))
}
