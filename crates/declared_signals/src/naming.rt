//! The names of handlers.

ghost use Rattle.std.specs.Prelude.{◌≡◌, ◌++◌, IfOk, OnOk};
ghost use Rattle.program_names.specs.Names.{changed, raised, handler_of};
ghost use Rattle.declared_signals.specs.Declaring as s;

use qml_base::NoMemory;
use qml_text::Text;
use std::alloc::Global;

/// A letter raised, where it is one of a to z.
fn raised_letter(letter: u16) -> u16
    ensures { result ≡ s.raised_letter letter }
{
    if letter >= 97 && letter <= 122 {
        letter - 32
    } else {
        letter
    }
}

/// Adds a name with its first letter raised.
fn push_raised(name: &[u16], units: &mut Vec<u16>) -> Result<(), NoMemory>
    ensures { OnOk result (units.new.items ≡ units.old.items ++ raised name.now) }
{
    match name.split_first() {
        Some((first, rest)) => {
            units.push(raised_letter(*first))?;
            units.extend_from_slice(rest)?;
            Ok(())
        }
        None => Ok(()),
    }
}

/// The name of the handler of a signal: `on`, then the signal's name with its first letter raised (Qt 5.15, "Signal and Handler Event
/// System").
pub(crate) fn handler_name(alloc: Global, signal: &[u16]) -> Result<Text, NoMemory>
    ensures { IfOk result (λ text. text ≡ handler_of signal.now) }
{
    let mut units = Vec::new(alloc);
    units.push(111)?;
    units.push(110)?;
    push_raised(signal, &mut units)?;
    text_of(alloc, units)
}

/// The name of the signal of a property's changes.
pub(crate) fn changes_of(alloc: Global, name: &[u16]) -> Result<Vec<u16>, NoMemory>
    ensures { IfOk result (λ units. units.items ≡ changed name.now) }
{
    let mut units = Vec::from_slice(alloc, name)?;
    units.extend_from_slice(&[67, 104, 97, 110, 103, 101, 100])?;
    Ok(units)
}

/// The text of these units.
pub(crate) fn text_of(alloc: Global, units: Vec<u16>) -> Result<Text, NoMemory>
    ensures { IfOk result (λ text. text ≡ units.items) }
{
    match Text::from_units(alloc, units) {
        Ok(text) => Ok(text),
        Err(_) => Err(NoMemory),
    }
}
