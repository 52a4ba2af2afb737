//! The parameters of handlers.

ghost use Rattle.std.specs.Prelude.{◌≡◌, ◌++◌, IfOk, OnOk};
ghost use Rattle.std.specs.List.{flat_map};
ghost use Rattle.written_bodies.specs.BodyRows as s;

use document_members::NamePath;
use handled_signals::{SignalTables, signals_handled};
use qml_base::NoMemory;
use qml_text::Text;
use std::alloc::Global;
use unit_rows::{Rows, SignalRef};

fn copied(alloc: Global, text: &Text) -> Result<Text, NoMemory>
    ensures { IfOk result (λ t. t ≡ text.now) }
{
    match text.copy(alloc) {
        Ok(copy) => Ok(copy),
        Err(_) => Err(NoMemory),
    }
}

/// Puts names behind others.
#[tactic(auto, using(crate::proofs::ParameterLemmas::name_put))]
fn put_names(alloc: Global, more: &[Text], names: &mut Rows<Text>) -> Result<(), NoMemory>
    ensures { OnOk result (names.new ≡ names.old ++ more.now) }
{
    'more: for name in more {
        let copy = copied(alloc, name)?;
        names.push(copy)?;
    }
    Ok(())
}

/// The parameters of these signals, one after another.
fn joined(alloc: Global, signals: &[(SignalRef, Rows<Text>)]) -> Result<Rows<Text>, NoMemory>
    ensures { IfOk result (λ names. names ≡ flat_map s.parameters_of signals.now) }
{
    let mut names = Rows::new(alloc);
    'signals: for signal in signals {
        put_names(alloc, signal.1.as_slice(), &mut names)?;
    }
    Ok(names)
}

/// The parameters of all signals under a name.
fn parameters_under(
    alloc: Global,
    tables: &SignalTables,
    document: usize,
    object: usize,
    name: &Text,
) -> Result<Rows<Text>, NoMemory>
    ensures { IfOk result (λ names. names ≡
        s.parameters_under tables.now.names.now.units.items tables.now.documents.now tables.now.signals.now document object name.now) }
{
    let signals = signals_handled(alloc, tables, document, object, name)?;
    let names = joined(alloc, signals.as_slice())?;
    Ok(names)
}

/// The parameters for what is given under a path, which stands in a group or not: those of the signals for which a name alone stands.
pub(crate) fn parameters_for(
    alloc: Global,
    tables: &SignalTables,
    document: usize,
    object: usize,
    inside: bool,
    path: &NamePath,
) -> Result<Rows<Text>, NoMemory>
    ensures { IfOk result (λ names. names ≡
        s.parameters_for tables.now.names.now.units.items tables.now.documents.now tables.now.signals.now document object inside path.now.first path.now.rest.items) }
{
    if inside {
        return Ok(Rows::new(alloc));
    }
    match path.rest.as_slice().first() {
        Some(_) => Ok(Rows::new(alloc)),
        None => parameters_under(alloc, tables, document, object, &path.first),
    }
}
