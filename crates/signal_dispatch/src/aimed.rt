//! The handlers of one Connections.

ghost use Rattle.std.specs.Prelude.{◌≡◌, ◌++◌, map, OnOk, IfOk};
ghost use Rattle.std.specs.Str.{bytes_eq};
ghost use Rattle.std.specs.List.{flat_map};
ghost use Rattle.unit_rows.specs.Seen.{all_seen};
ghost use Rattle.instance_plans.specs.Numbers.{row_at};
ghost use Rattle.machine_model.specs.Dispatch.{handlers_written};
ghost use Rattle.own_handlers.specs.Own.{body_at};
ghost use Rattle.own_handlers.specs.Seen.{delivery_seen};
ghost use Rattle.signal_dispatch.specs.Hearing.{is_for_target, delivered, heard as brings};
ghost use Rattle.signal_dispatch.specs.Seen.{hears, row_heard, rows_heard, root_heard};

use crate::copying::{text, texts, values};
use instance_contents::documents_from;
use instance_plans::Planned;
use instancing::{object, type_at};
use own_handlers::{Deed, Delivery};
use qml_base::{ExprNo, NoMemory, ObjNo, UnitNo};
use qml_text::Text;
use qml_value::Value;
use std::alloc::Global;
use unit_rows::{HandlerRow, SignalRef, Unit};

/// A signal of an object as a Connections hears it: the name of the handler, the names of the parameters, and the arguments.
#[derive(Clone, Copy)]
pub struct Heard<'a> {
    pub units: &'a [Unit],
    pub object: ObjNo,
    pub handler: &'a Text,
    pub parameters: &'a [Text],
    pub args: &'a [Value],
}

/// Whether they are the same text.
#[tactic(auto, using(instance_contents::proofs::PlaceLemmas::same_bytes))]
fn is_same(a: &Text, b: &Text) -> bool
    ensures { result ≡ bytes_eq a.now b.now }
{
    a.same(b)
}

/// Whether a handler is the one of this name for a signal of a target.
fn is_for(handler: &Text, signal: &SignalRef) -> bool
    ensures { result ≡ is_for_target handler.now signal.now }
{
    match signal {
        SignalRef::OfTarget(name) => is_same(handler, name),
        _ => false,
    }
}

/// The delivery of a handler of a document to a Connections.
fn delivery(alloc: Global, heard: &Heard, c: ObjNo, u: u32, body: u32) -> Result<Delivery, NoMemory>
    ensures { IfOk result (λ d. delivery_seen d ≡ delivered (hears heard.now) c (body_at u body)) }
{
    let handler = text(alloc, heard.handler)?;
    let names = texts(alloc, heard.parameters)?;
    let args = values(alloc, heard.args)?;
    let body = ExprNo {
        unit: UnitNo(u),
        at: body,
    };
    Ok(Delivery {
        object: c,
        deed: Deed::Runs {
            handler,
            body,
            names,
            args,
        },
        is_aimed: true,
    })
}

/// Puts the delivery of a handler of a document, if it is for the signal.
fn push_row(
    alloc: Global,
    heard: &Heard,
    c: ObjNo,
    u: u32,
    row: &HandlerRow,
    list: &mut Vec<Delivery>,
) -> Result<(), NoMemory>
    ensures { OnOk result (map delivery_seen list.new.items ≡ map delivery_seen list.old.items ++ row_heard heard.now c u row.now) }
{
    if !is_for(heard.handler, &row.signal) {
        return Ok(());
    }
    let delivery = delivery(alloc, heard, c, u, row.body)?;
    list.push(delivery)?;
    Ok(())
}

/// Puts the deliveries of handlers of a document.
fn push_rows(
    alloc: Global,
    heard: &Heard,
    c: ObjNo,
    u: u32,
    rows: &[HandlerRow],
    list: &mut Vec<Delivery>,
) -> Result<(), NoMemory>
    ensures { OnOk result (map delivery_seen list.new.items ≡ map delivery_seen list.old.items ++ rows_heard heard.now c u rows.now) }
{
    'rows: for row in rows {
        push_row(alloc, heard, c, u, row, list)?;
    }
    Ok(())
}

/// The handlers that an object of a document is written with.
fn handlers_at(units: &[Unit], u: u32, o: u32) -> &[HandlerRow]
    ensures { result.now ≡ (row_at (all_seen units.now) u o).handlers }
{
    match object(units, u, o) {
        Some(row) => row.handlers.as_slice(),
        None => &[],
    }
}

/// Puts the deliveries of the handlers of the roots of documents.
fn push_roots(
    alloc: Global,
    heard: &Heard,
    c: ObjNo,
    documents: &[u32],
    list: &mut Vec<Delivery>,
) -> Result<(), NoMemory>
    ensures { OnOk result (map delivery_seen list.new.items ≡ map delivery_seen list.old.items ++ flat_map (root_heard heard.now c) documents.now) }
{
    'documents: for u in documents {
        let rows = handlers_at(heard.units, *u, 0);
        push_rows(alloc, heard, c, *u, rows, list)?;
    }
    Ok(())
}

/// Puts the deliveries of the handlers of a Connections that is written so: those of the documents of its type, the lowest first,
/// and then those of its own text. Without memory a front of them may have been put.
#[tactic(auto, using(crate::proofs::AimedLemmas::all_heard, crate::proofs::AimedLemmas::none_around))]
pub fn push_aimed(
    alloc: Global,
    heard: &Heard,
    c: ObjNo,
    written: Planned,
    list: &mut Vec<Delivery>,
) -> Result<(), NoMemory>
    ensures { OnOk result (map delivery_seen list.new.items ≡ map delivery_seen list.old.items ++ flat_map (brings (hears heard.now) c) (handlers_written (all_seen heard.now.units.now) written)) }
{
    if written.is_around {
        return Ok(());
    }
    let of_type = type_at(heard.units, written.unit, written.object);
    let mut documents = documents_from(alloc, heard.units, of_type)?;
    documents.reverse();
    push_roots(alloc, heard, c, documents.as_slice(), list)?;
    let rows = handlers_at(heard.units, written.unit, written.object);
    push_rows(alloc, heard, c, written.unit, rows, list)
}
