//! The handlers that an object is written with.

ghost use Rattle.std.specs.Prelude.{◌≡◌, ◌++◌, ◌∷◌, [], map, IfOk, OnOk};
ghost use Rattle.std.specs.List.{flat_map};
ghost use Rattle.instance_plans.specs.Numbers.{row_at};
ghost use Rattle.unit_rows.specs.Seen.{all_seen};
ghost use Rattle.own_handlers.specs.Seen.{signal_seen, delivery_seen};
ghost use Rattle.own_handlers.specs.Own as s;
ghost use Rattle.own_handlers.specs.Emitting.{handled, deliveries_of, all_of};

use crate::delivery::{Deed, Delivery, Signal};
use crate::naming::handler_name;
use instance_contents::documents_from;
use instance_plans::Planned;
use instancing::{object, type_at};
use qml_base::{ExprNo, NoMemory, ObjNo, UnitNo};
use qml_value::Value;
use std::alloc::Global;
use type_rows::TypeRows;
use unit_rows::{HandlerRow, SignalRef, Unit};

/// A signal that an object emits, with its arguments.
#[derive(Clone, Copy)]
pub struct Emitted<'a> {
    pub types: &'a TypeRows,
    pub units: &'a [Unit],
    /// How the object is written, and its number.
    pub written: Planned,
    pub object: ObjNo,
    pub signal: Signal,
    pub args: &'a [Value],
}

/// Whether a handler is for a signal.
fn is_for(handler: &SignalRef, signal: Signal) -> bool
    ensures { result ≡ s.is_for handler.now (signal_seen signal) }
{
    match signal {
        Signal::Numbered(number) => is_for_number(handler, number),
        Signal::Completed => matches!(handler, SignalRef::Completed),
        Signal::Destruction => matches!(handler, SignalRef::Destruction),
    }
}

/// Whether a handler is for the signal of a number.
fn is_for_number(handler: &SignalRef, number: u32) -> bool
    ensures { result ≡ s.is_for_number handler.now number }
{
    match handler {
        SignalRef::Change(place) => 2 * *place as u64 == number as u64,
        SignalRef::Own(n) => 2 * *n as u64 + 1 == number as u64,
        _ => false,
    }
}

/// Copies of values.
fn copies(alloc: Global, values: &[Value]) -> Result<Vec<Value>, NoMemory>
    ensures { IfOk result (λ copies. copies.items ≡ values.now) }
{
    let mut copies = Vec::new(alloc);
    'values: for value in values {
        let copy = copied(alloc, value)?;
        copies.push(copy)?;
    }
    Ok(copies)
}

/// A copy of a value.
fn copied(alloc: Global, value: &Value) -> Result<Value, NoMemory>
    ensures { IfOk result (λ copy. copy ≡ value.now) }
{
    match value.copy(alloc) {
        Ok(copy) => Ok(copy),
        Err(_) => Err(NoMemory),
    }
}

/// The delivery of a handler of a document.
fn delivery(alloc: Global, emitted: &Emitted, u: u32, body: u32) -> Result<Delivery, NoMemory>
    ensures { IfOk result (λ d. delivery_seen d ≡ s.delivery_of (all_seen emitted.now.units.now) emitted.now.written emitted.now.object (signal_seen emitted.now.signal) emitted.now.args.now (s.body_at u body)) }
{
    let handler = handler_name(
        alloc,
        emitted.types,
        emitted.units,
        emitted.written,
        emitted.signal,
    )?;
    let args = copies(alloc, emitted.args)?;
    let body = ExprNo {
        unit: UnitNo(u),
        at: body,
    };
    Ok(Delivery {
        object: emitted.object,
        deed: Deed::Runs {
            handler,
            body,
            names: Vec::new(alloc),
            args,
        },
        is_aimed: false,
    })
}

/// Puts the delivery of a handler of a document, if it is for the signal.
fn push_handler(
    alloc: Global,
    emitted: &Emitted,
    u: u32,
    handler: &HandlerRow,
    list: &mut Vec<Delivery>,
) -> Result<(), NoMemory>
    ensures { OnOk result (map delivery_seen list.new.items ≡ map delivery_seen list.old.items ++ handled emitted.now u handler.now) }
{
    if !is_for(&handler.signal, emitted.signal) {
        return Ok(());
    }
    let delivery = delivery(alloc, emitted, u, handler.body)?;
    list.push(delivery)?;
    Ok(())
}

/// Puts the deliveries of handlers of a document.
fn push_handlers(
    alloc: Global,
    emitted: &Emitted,
    u: u32,
    handlers: &[HandlerRow],
    list: &mut Vec<Delivery>,
) -> Result<(), NoMemory>
    ensures { OnOk result (map delivery_seen list.new.items ≡ map delivery_seen list.old.items ++ deliveries_of emitted.now u handlers.now) }
{
    'handlers: for handler in handlers {
        push_handler(alloc, emitted, u, handler, list)?;
    }
    Ok(())
}

/// The handlers that an object of a document is written with.
fn handlers_at(units: &[Unit], u: u32, o: u32) -> &[HandlerRow]
    ensures { result.now ≡ (row_at (all_seen units.now) u o).handlers }
{
    match object(units, u, o) {
        Some(row) => row.handlers.as_slice(),
        None => &[],
    }
}

/// Puts the deliveries of the handlers of the roots of documents.
fn push_documents(
    alloc: Global,
    emitted: &Emitted,
    documents: &[u32],
    list: &mut Vec<Delivery>,
) -> Result<(), NoMemory>
    ensures { OnOk result (map delivery_seen list.new.items ≡ map delivery_seen list.old.items ++ flat_map (all_of emitted.now) documents.now) }
{
    'documents: for u in documents {
        let handlers = handlers_at(emitted.units, *u, 0);
        push_handlers(alloc, emitted, *u, handlers, list)?;
    }
    Ok(())
}

/// Puts what the object's own handlers of the signal have to do: those of the documents of its type, the lowest first, and then
/// those of its own text. None of a Component that is made around an object. Without memory a front of them may have been put.
#[tactic(auto, using(crate::proofs::HandlerLemmas::all_own, crate::proofs::HandlerLemmas::none_around))]
pub fn push_own(alloc: Global, emitted: &Emitted, list: &mut Vec<Delivery>) -> Result<(), NoMemory>
    ensures { OnOk result (map delivery_seen list.new.items ≡ map delivery_seen list.old.items ++ s.own_deliveries (all_seen emitted.now.units.now) emitted.now.written emitted.now.object (signal_seen emitted.now.signal) emitted.now.args.now) }
{
    let written = emitted.written;
    if written.is_around {
        return Ok(());
    }
    let of_type = type_at(emitted.units, written.unit, written.object);
    let mut documents = documents_from(alloc, emitted.units, of_type)?;
    documents.reverse();
    push_documents(alloc, emitted, documents.as_slice(), list)?;
    let handlers = handlers_at(emitted.units, written.unit, written.object);
    push_handlers(alloc, emitted, written.unit, handlers, list)
}
