//! Handlers for the signals of built-in types.

ghost use Rattle.std.specs.Prelude.{◌≡◌, IfOk};
ghost use Rattle.std.specs.Option.{option_map};
ghost use Rattle.handler_names.specs.Handlers as s;

use crate::naming::text_of;
use program_tables::{BuiltInName, BuiltInNames};
use qml_base::NoMemory;
use qml_text::Text;
use qml_types::TypeNo;
use std::alloc::Global;

/// What stands behind `on`.
fn behind_on(name: &[u16]) -> Option<&[u16]>
    ensures { option_map (λ rest. rest.now) result ≡ s.behind_on name.now }
{
    let Some((first, behind)) = name.split_first() else {
        return None;
    };
    let Some((second, rest)) = behind.split_first() else {
        return None;
    };
    if *first == 111 {
        if *second == 110 {
            return Some(rest);
        }
        return None;
    }
    None
}

/// Whether this is some name with its first letter raised.
fn is_raised(name: &[u16]) -> bool
    ensures { result ≡ s.is_raised name.now }
{
    match name.first() {
        Some(letter) => !(*letter >= 97 && *letter <= 122),
        None => true,
    }
}

/// A letter lowered, where it is one of A to Z.
fn lowered_letter(letter: u16) -> u16
    ensures { result ≡ s.lowered_letter letter }
{
    if letter >= 65 && letter <= 90 {
        letter + 32
    } else {
        letter
    }
}

/// A name with its first letter lowered.
fn lowered(alloc: Global, name: &[u16]) -> Result<Text, NoMemory>
    ensures { IfOk result (λ text. text ≡ s.lowered name.now) }
{
    let mut units = Vec::new(alloc);
    if let Some((first, rest)) = name.split_first() {
        units.push(lowered_letter(*first))?;
        units.extend_from_slice(rest)?;
    }
    text_of(alloc, units)
}

fn plain(alloc: Global, name: &[u16]) -> Result<Text, NoMemory>
    ensures { IfOk result (λ text. text ≡ name.now) }
{
    match Text::from_slice(alloc, name) {
        Ok(text) => Ok(text),
        Err(_) => Err(NoMemory),
    }
}

fn is_signal(found: Option<BuiltInName>) -> bool
    ensures { result ≡ s.is_signal found }
{
    match found {
        Some(BuiltInName::Changed) => true,
        Some(
            BuiltInName::Signal {
                type_no: _,
                index: _,
            },
        ) => true,
        _ => false,
    }
}

/// Whether a type has a signal of this name, or of the name of which this has the first letter raised.
fn handles_raised(
    alloc: Global,
    built_in: &BuiltInNames,
    type_no: TypeNo,
    name: &[u16],
) -> Result<bool, NoMemory>
    ensures { IfOk result (λ b. b ≡ s.handles_raised type_no name.now) }
{
    if !is_raised(name) {
        return Ok(false);
    }
    let same = plain(alloc, name)?;
    if is_signal(built_in.find(type_no, &same)) {
        return Ok(true);
    }
    let lower = lowered(alloc, name)?;
    Ok(is_signal(built_in.find(type_no, &lower)))
}

/// Whether a name is that of the handler for a signal of a built-in type or of one that it stands on.
pub(crate) fn type_handles(
    alloc: Global,
    built_in: &BuiltInNames,
    type_no: TypeNo,
    handler: &Text,
) -> Result<bool, NoMemory>
    ensures { IfOk result (λ b. b ≡ s.type_handles type_no handler.now) }
{
    match behind_on(handler.units()) {
        Some(name) => handles_raised(alloc, built_in, type_no, name),
        None => Ok(false),
    }
}
