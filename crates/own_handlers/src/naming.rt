//! The names of handlers.

ghost use Rattle.std.specs.Prelude.{◌≡◌, ◌-◌, if◌then◌else◌, IfOk};
ghost use Rattle.program_names.specs.Names.{is_small_letter, handler_of as handler_for};
ghost use Rattle.unit_rows.specs.Seen.{all_seen};
ghost use Rattle.own_handlers.specs.Seen.{signal_seen};
ghost use Rattle.own_handlers.specs.Own.{name_at, handler_at};

use crate::delivery::Signal;
use instance_plans::Planned;
use qml_base::NoMemory;
use qml_text::{NoMemory as TextMemory, Text, TextBuilder};
use std::alloc::Global;
use type_rows::TypeRows;
use unit_rows::Unit;
use written_names::find_signal;

/// A unit with a letter of a to z raised.
fn raised(unit: u16) -> u16
    ensures { result ≡ (if is_small_letter unit then unit - 32 else unit) }
{
    if unit >= 97 && unit <= 122 {
        unit - 32
    } else {
        unit
    }
}

/// `on`, then these units with the first letter raised.
fn built(alloc: Global, name: &[u16]) -> Result<Text, TextMemory>
    ensures { IfOk result (λ text. text ≡ handler_for name.now) }
{
    let mut built = TextBuilder::new(alloc);
    built.push_unit(111)?;
    built.push_unit(110)?;
    if let Some((first, rest)) = name.split_first() {
        built.push_unit(raised(*first))?;
        let behind = Text::from_slice(alloc, rest)?;
        built.append(&behind)?;
    }
    let text = built.finish(alloc)?;
    Ok(text)
}

/// The name of the handler of a signal: `onX` for `x` (Qt 5.15, Signal and Handler Event System).
pub fn handler_of(alloc: Global, name: &[u16]) -> Result<Text, NoMemory>
    ensures { IfOk result (λ text. text ≡ handler_for name.now) }
{
    match built(alloc, name) {
        Ok(text) => Ok(text),
        Err(_) => Err(NoMemory),
    }
}

/// A text of Latin-1.
fn plain(alloc: Global, name: &[u8]) -> Result<Text, NoMemory>
    ensures { IfOk result (λ text. text ≡ name.now) }
{
    match Text::from_latin1(alloc, name) {
        Ok(text) => Ok(text),
        Err(_) => Err(NoMemory),
    }
}

/// The name of the handler of an own signal of an object, by its number.
#[tactic(auto, using(crate::proofs::SignalLemmas::name_found, crate::proofs::SignalLemmas::no_name))]
fn numbered_name(
    alloc: Global,
    types: &TypeRows,
    units: &[Unit],
    x: Planned,
    number: u32,
) -> Result<Text, NoMemory>
    ensures { IfOk result (λ text. text ≡ handler_for (name_at (all_seen units.now) x number)) }
{
    match find_signal(alloc, types, units, x, number)? {
        Some(row) => handler_of(alloc, row.name.units()),
        None => handler_of(alloc, &[]),
    }
}

/// The name of the handler of a signal of an object as it is written.
pub fn handler_name(
    alloc: Global,
    types: &TypeRows,
    units: &[Unit],
    x: Planned,
    signal: Signal,
) -> Result<Text, NoMemory>
    ensures { IfOk result (λ text. text ≡ handler_at (all_seen units.now) x (signal_seen signal)) }
{
    match signal {
        Signal::Numbered(number) => numbered_name(alloc, types, units, x, number),
        Signal::Completed => plain(alloc, b"onCompleted"),
        Signal::Destruction => plain(alloc, b"onDestruction"),
    }
}
