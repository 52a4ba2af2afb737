//! Handlers as rows.

ghost use Rattle.std.specs.Prelude.{◌≡◌, ◌∷◌, [], map, IfOk};
ghost use Rattle.unit_rows.specs.declared.names.SignalRef.TheVariants as signal;
ghost use Rattle.given_handlers.specs.Given as s;

use crate::names::{is_completed, is_component, is_destruction, is_handler_name};
use handled_signals::{SignalTables, signals_handled};
use program_tables::Names;
use qml_base::NoMemory;
use qml_text::Text;
use qml_types::{TypeNo, TypeRef};
use std::alloc::Global;
use unit_rows::{HandlerRow, Rows, SignalRef};

/// Whether a name is that of a handler for the target of an object, which is a Connections.
fn is_for_target(names: &Names, document: usize, object: usize, name: &Text) -> bool
    ensures { result ≡ s.is_for_target names.now.units.items document object name.now }
{
    names.is_a(document, object, TypeRef::Builtin(TypeNo::Connections))
        && is_handler_name(name.units())
}

/// The handler for a signal of the target.
fn for_target(alloc: Global, name: &Text, body: u32) -> Result<Rows<HandlerRow>, NoMemory>
    ensures { IfOk result (λ rows. rows ≡ s.handler_row body (signal.OfTarget name.now) ∷ []) }
{
    let copy = match name.copy(alloc) {
        Ok(copy) => copy,
        Err(_) => return Err(NoMemory),
    };
    let mut rows = Rows::new(alloc);
    rows.push(HandlerRow {
        signal: SignalRef::OfTarget(copy),
        body,
    })?;
    Ok(rows)
}

fn copied_signal(alloc: Global, signal: &SignalRef) -> Result<SignalRef, NoMemory>
    ensures { IfOk result (λ copy. copy ≡ signal.now) }
{
    match signal {
        SignalRef::Change(place) => Ok(SignalRef::Change(*place)),
        SignalRef::Own(number) => Ok(SignalRef::Own(*number)),
        SignalRef::OfTarget(name) => match name.copy(alloc) {
            Ok(copy) => Ok(SignalRef::OfTarget(copy)),
            Err(_) => Err(NoMemory),
        },
        SignalRef::Completed => Ok(SignalRef::Completed),
        SignalRef::Destruction => Ok(SignalRef::Destruction),
    }
}

/// A handler for each of these signals.
#[tactic(auto, using(crate::proofs::GivenLemmas::signal_put))]
fn for_signals(
    alloc: Global,
    signals: &[(SignalRef, Rows<Text>)],
    body: u32,
) -> Result<Rows<HandlerRow>, NoMemory>
    ensures { IfOk result (λ rows. rows ≡ map (s.row_of_signal body) signals.now) }
{
    let mut rows = Rows::new(alloc);
    'signals: for signal in signals {
        let copy = copied_signal(alloc, &signal.0)?;
        rows.push(HandlerRow { signal: copy, body })?;
    }
    Ok(rows)
}

/// The handlers that a value under one name is.
fn under_name(
    alloc: Global,
    tables: &SignalTables,
    document: usize,
    object: usize,
    name: &Text,
    body: u32,
) -> Result<Rows<HandlerRow>, NoMemory>
    ensures { IfOk result (λ rows. rows ≡
        s.under_name tables.now.names.now.units.items tables.now.documents.now tables.now.signals.now document object body name.now) }
{
    if is_for_target(tables.names, document, object, name) {
        let rows = for_target(alloc, name, body)?;
        return Ok(rows);
    }
    let signals = signals_handled(alloc, tables, document, object, name)?;
    let rows = for_signals(alloc, signals.as_slice(), body)?;
    Ok(rows)
}

/// A handler for one signal.
fn for_one(alloc: Global, signal: SignalRef, body: u32) -> Result<Rows<HandlerRow>, NoMemory>
    ensures { IfOk result (λ rows. rows ≡ s.handler_row body signal ∷ []) }
{
    let mut rows = Rows::new(alloc);
    rows.push(HandlerRow { signal, body })?;
    Ok(rows)
}

/// The handlers of `Component` that a value under its name and another is.
fn attached(
    alloc: Global,
    component: &Text,
    name: &Text,
    body: u32,
) -> Result<Rows<HandlerRow>, NoMemory>
    ensures { IfOk result (λ rows. rows ≡ s.attached body component.now name.now) }
{
    if !is_component(component) {
        return Ok(Rows::new(alloc));
    }
    if is_completed(name) {
        return for_one(alloc, SignalRef::Completed, body);
    }
    if is_destruction(name) {
        return for_one(alloc, SignalRef::Destruction, body);
    }
    Ok(Rows::new(alloc))
}

/// The handlers that a value with the body of a number is, which is given under this whole path in the object of a number (Qt 5.15,
/// "Signal and Handler Event System", "Connections", "Component"). It takes time by the layers of the object.
pub fn handlers_given(
    alloc: Global,
    tables: &SignalTables,
    document: usize,
    object: usize,
    path: &[Text],
    body: u32,
) -> Result<Rows<HandlerRow>, NoMemory>
    ensures { IfOk result (λ rows. rows ≡
        s.handlers_given tables.now.names.now.units.items tables.now.documents.now tables.now.signals.now document object body path.now) }
{
    let Some((first, behind)) = path.split_first() else {
        return Ok(Rows::new(alloc));
    };
    let Some((second, rest)) = behind.split_first() else {
        return under_name(alloc, tables, document, object, first, body);
    };
    match rest.first() {
        Some(_) => Ok(Rows::new(alloc)),
        None => attached(alloc, first, second, body),
    }
}

/// The handlers that a function of a name with the body of a number is: in a Connections one for its target.
pub fn handlers_of_function(
    alloc: Global,
    names: &Names,
    document: usize,
    object: usize,
    name: &Text,
    body: u32,
) -> Result<Rows<HandlerRow>, NoMemory>
    ensures { IfOk result (λ rows. rows ≡ s.handlers_of_function names.now.units.items document object body name.now) }
{
    if is_for_target(names, document, object, name) {
        return for_target(alloc, name, body);
    }
    Ok(Rows::new(alloc))
}
