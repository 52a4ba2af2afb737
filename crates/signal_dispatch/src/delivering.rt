//! All deliveries of a signal.

ghost use Rattle.std.specs.Prelude.{◌≡◌, ◌++◌, map, OnOk, IfOk};
ghost use Rattle.unit_rows.specs.Seen.{all_seen};
ghost use Rattle.machine_model.specs.Dispatch as machine;
ghost use Rattle.machine_model.specs.Emission as emission;
ghost use Rattle.machine_state.specs.Keeping.{machine_of};
ghost use Rattle.own_handlers.specs.Seen.{signal_seen, delivery_seen};
ghost use Rattle.signal_dispatch.specs.Listing as s;

use crate::aimed::Heard;
use crate::connections::{is_enabled_on, push_connections};
use crate::live::{builtin_in, is_condemned, written_at};
use instance_plans::Planned;
use machine_state::State;
use own_handlers::{Deed, Delivery, Emitted, Signal, handler_name, push_own};
use qml_base::{NoMemory, ObjNo};
use qml_text::Text;
use qml_types::TypeNo;
use qml_value::Value;
use std::alloc::Global;
use type_rows::TypeRows;
use unit_rows::{NameFinds, NameRow, Unit};
use written_names::find_signal;

/// Whether it is the change of the cell of a Connections' target.
fn is_change_of_target(signal: Signal) -> bool
    ensures { result ≡ s.is_change_of_target (signal_seen signal) }
{
    match signal {
        Signal::Numbered(number) => number == 2,
        _ => false,
    }
}

/// Whether an object of a type reacts to its signal.
fn reacts(of_type: TypeNo, signal: Signal) -> bool
    ensures { result ≡ s.does_react of_type (signal_seen signal) }
{
    match of_type {
        TypeNo::Connections => is_change_of_target(signal),
        _ => false,
    }
}

/// The reaction of an object to its property `target`.
fn reaction(alloc: Global, o: ObjNo) -> Result<Delivery, NoMemory>
    ensures { IfOk result (λ d. delivery_seen d ≡ s.reaction_of o) }
{
    let Ok(target) = Text::from_latin1(alloc, b"target") else {
        return Err(NoMemory);
    };
    Ok(Delivery {
        object: o,
        deed: Deed::Reacts(target),
        is_aimed: false,
    })
}

/// Puts the reaction of an object to its own signal, if its type has one.
fn push_reaction(
    alloc: Global,
    o: ObjNo,
    of_type: TypeNo,
    signal: Signal,
    list: &mut Vec<Delivery>,
) -> Result<(), NoMemory>
    ensures { OnOk result (map delivery_seen list.new.items ≡ map delivery_seen list.old.items ++ s.reactions o of_type (signal_seen signal)) }
{
    if !reacts(of_type, signal) {
        return Ok(());
    }
    let reaction = reaction(alloc, o)?;
    list.push(reaction)?;
    Ok(())
}

/// The names of the parameters of the signal that a name finds.
fn parameters_in(row: &NameRow) -> &[Text]
    ensures { result.now ≡ s.parameters_in row.now }
{
    match &row.finds {
        NameFinds::Signal(_, parameters) => parameters.as_slice(),
        _ => &[],
    }
}

/// The names of the parameters of the signal of a number.
#[tactic(auto, using(crate::proofs::SignalLemmas::parameters_found, crate::proofs::SignalLemmas::no_parameters))]
fn parameters_at<'a>(
    alloc: Global,
    types: &'a TypeRows,
    units: &'a [Unit],
    x: Planned,
    number: u32,
) -> Result<&'a [Text], NoMemory>
    ensures { IfOk result (λ names. names.now ≡ s.parameters_at (all_seen units.now) x number) }
{
    match find_signal(alloc, types, units, x, number)? {
        Some(row) => Ok(parameters_in(row)),
        None => Ok(&[]),
    }
}

/// Puts the deliveries of the Connections that hear the signal of a number.
fn push_numbered<'a>(
    alloc: Global,
    types: &TypeRows,
    state: &State<'a>,
    emitted: &Emitted,
    number: u32,
    list: &mut Vec<Delivery>,
) -> Result<(), NoMemory>
    ensures { OnOk result (map delivery_seen list.new.items ≡ map delivery_seen list.old.items ++ s.heard_of (machine_of state.now) emitted.now.written emitted.now.object number emitted.now.args.now) }
{
    let written = emitted.written;
    let signal = Signal::Numbered(number);
    let handler = handler_name(alloc, types, state.units, written, signal)?;
    let parameters = parameters_at(alloc, types, state.units, written, number)?;
    let heard = Heard {
        units: state.units,
        object: emitted.object,
        handler: &handler,
        parameters,
        args: emitted.args,
    };
    push_connections(alloc, state, &heard, list)
}

/// Puts the deliveries of the Connections that hear the signal: those that are attached are for the object alone.
fn push_heard<'a>(
    alloc: Global,
    types: &TypeRows,
    state: &State<'a>,
    emitted: &Emitted,
    list: &mut Vec<Delivery>,
) -> Result<(), NoMemory>
    ensures { OnOk result (map delivery_seen list.new.items ≡ map delivery_seen list.old.items ++ s.heard_at (machine_of state.now) emitted.now.written emitted.now.object (signal_seen emitted.now.signal) emitted.now.args.now) }
{
    match emitted.signal {
        Signal::Numbered(number) => push_numbered(alloc, types, state, emitted, number, list),
        _ => Ok(()),
    }
}

/// Puts the deliveries of the handlers of an object that is written so, and of the Connections that hear it.
fn push_written<'a>(
    alloc: Global,
    types: &TypeRows,
    state: &State<'a>,
    emitted: &Emitted,
    list: &mut Vec<Delivery>,
) -> Result<(), NoMemory>
    requires { emitted.now.units.now ≡ state.now.units.now }
    ensures { OnOk result (map delivery_seen list.new.items ≡ map delivery_seen list.old.items ++ s.of_written (machine_of state.now) emitted.now.written emitted.now.object (signal_seen emitted.now.signal) emitted.now.args.now) }
{
    push_own(alloc, emitted, list)?;
    push_heard(alloc, types, state, emitted, list)
}

/// What a signal of an object brings, in order: the object's own reaction to it, its own handlers, those of the documents of its
/// type before those at its place of use, and the handlers of the enabled Connections whose target it is, by number and in the
/// order of writing (Qt 5.15, Signal and Handler Event System; Connections). It is the list as it is taken when the signal is
/// emitted: each delivery is tested again at its own turn. It fails without memory alone.
#[tactic(auto, using(crate::proofs::ListLemmas::reaction_alone))]
pub fn deliveries<'a>(
    alloc: Global,
    types: &TypeRows,
    state: &State<'a>,
    o: ObjNo,
    signal: Signal,
    args: &[Value],
) -> Result<Vec<Delivery>, NoMemory>
    ensures { IfOk result (λ list. map delivery_seen list.items ≡ machine.deliveries (machine_of state.now) o (signal_seen signal) args.now) }
{
    let mut list = Vec::new(alloc);
    push_reaction(alloc, o, builtin_in(state, o), signal, &mut list)?;
    let Some(written) = written_at(state.written.as_slice(), o) else {
        return Ok(list);
    };
    let emitted = Emitted {
        types,
        units: state.units,
        written,
        object: o,
        signal,
        args,
    };
    push_written(alloc, types, state, &emitted, &mut list)?;
    Ok(list)
}

/// Whether a delivery is left out when its turn comes: where its object or the emitter is condemned, or where it is one of a
/// Connections that isn't enabled any more or has another target by now.
pub fn is_left_out<'a>(state: &State<'a>, emitter: ObjNo, delivery: &Delivery) -> bool
    ensures { result ≡ emission.is_left_out (machine_of state.now) emitter (delivery_seen delivery.now) }
{
    if is_condemned(state, delivery.object) {
        return true;
    }
    if is_condemned(state, emitter) {
        return true;
    }
    delivery.is_aimed && !is_enabled_on(state, delivery.object, emitter)
}
