//! The handlers of a Connections for which its target has no signal.

ghost use Rattle.std.specs.Prelude.{◌≡◌, ◌++◌, IfOk, OnOk};
ghost use Rattle.std.specs.List.{flat_map};
ghost use Rattle.instance_plans.specs.Numbers.{row_at};
ghost use Rattle.unit_rows.specs.Seen.{all_seen};
ghost use Rattle.machine_model.specs.Reactions.{unheard as unheard_in};
ghost use Rattle.machine_state.specs.Keeping.{machine_of};
ghost use Rattle.machine_reactions.specs.Unheard as s;

use crate::signals::has_signal_of;
use instance_contents::documents_from;
use instance_plans::Planned;
use instancing::{object, type_at};
use machine_state::State;
use qml_base::{NoMemory, ObjNo};
use qml_text::Text;
use signal_dispatch::written_at;
use std::alloc::Global;
use type_rows::TypeRows;
use unit_rows::{HandlerRow, SignalRef, Unit};

/// What handlers are looked up in: the loaded units, and how the target is written.
#[derive(Clone, Copy)]
struct Target<'a> {
    types: &'a TypeRows,
    units: &'a [Unit],
    written: Option<Planned>,
}

/// A copy of a text.
pub fn text(alloc: Global, text: &Text) -> Result<Text, NoMemory>
    ensures { IfOk result (λ copy. copy ≡ text.now) }
{
    match text.copy(alloc) {
        Ok(copy) => Ok(copy),
        Err(_) => Err(NoMemory),
    }
}

/// Whether the target has a signal for which the handler is.
fn is_heard(alloc: Global, target: &Target, handler: &Text) -> Result<bool, NoMemory>
    ensures { IfOk result (λ b. b ≡ s.has_signal_of (all_seen target.now.units.now) target.now.written handler.now) }
{
    match target.written {
        Some(x) => has_signal_of(alloc, target.types, target.units, x, handler),
        None => Ok(false),
    }
}

/// Puts the handler's name, unless the target has a signal for it.
fn push_unless(
    alloc: Global,
    target: &Target,
    handler: &Text,
    list: &mut Vec<Text>,
) -> Result<(), NoMemory>
    ensures { OnOk result (list.new.items ≡ list.old.items ++ s.unless_heard (s.has_signal_of (all_seen target.now.units.now) target.now.written handler.now) handler.now) }
{
    let heard = is_heard(alloc, target, handler)?;
    if heard {
        return Ok(());
    }
    let name = text(alloc, handler)?;
    list.push(name)?;
    Ok(())
}

/// Puts the name of a handler of a document, if it is for a signal that the target hasn't.
fn push_row(
    alloc: Global,
    target: &Target,
    row: &HandlerRow,
    list: &mut Vec<Text>,
) -> Result<(), NoMemory>
    ensures { OnOk result (list.new.items ≡ list.old.items ++ s.unheard_row (all_seen target.now.units.now) target.now.written row.now) }
{
    match &row.signal {
        SignalRef::OfTarget(name) => push_unless(alloc, target, name, list),
        _ => Ok(()),
    }
}

/// Puts those of handlers of a document.
fn push_rows(
    alloc: Global,
    target: &Target,
    rows: &[HandlerRow],
    list: &mut Vec<Text>,
) -> Result<(), NoMemory>
    ensures { OnOk result (list.new.items ≡ list.old.items ++ s.unheard_rows (all_seen target.now.units.now) target.now.written rows.now) }
{
    'rows: for row in rows {
        push_row(alloc, target, row, list)?;
    }
    Ok(())
}

/// The handlers that an object of a document is written with.
fn handlers_at(units: &[Unit], u: u32, o: u32) -> &[HandlerRow]
    ensures { result.now ≡ (row_at (all_seen units.now) u o).handlers }
{
    match object(units, u, o) {
        Some(row) => row.handlers.as_slice(),
        None => &[],
    }
}

/// Puts those of the roots of documents.
fn push_roots(
    alloc: Global,
    target: &Target,
    documents: &[u32],
    list: &mut Vec<Text>,
) -> Result<(), NoMemory>
    ensures { OnOk result (list.new.items ≡ list.old.items ++ flat_map (s.unheard_root (all_seen target.now.units.now) target.now.written) documents.now) }
{
    'documents: for u in documents {
        let rows = handlers_at(target.units, *u, 0);
        push_rows(alloc, target, rows, list)?;
    }
    Ok(())
}

/// Puts those of a Connections that is written so: those of the documents of its type, the lowest first, and then those of its
/// own text.
#[tactic(auto, using(crate::proofs::UnheardLemmas::all_unheard, crate::proofs::UnheardLemmas::none_around))]
fn push_all(
    alloc: Global,
    target: &Target,
    written: Planned,
    list: &mut Vec<Text>,
) -> Result<(), NoMemory>
    ensures { OnOk result (list.new.items ≡ list.old.items ++ s.unheard_written (all_seen target.now.units.now) target.now.written written) }
{
    if written.is_around {
        return Ok(());
    }
    let of_type = type_at(target.units, written.unit, written.object);
    let mut documents = documents_from(alloc, target.units, of_type)?;
    documents.reverse();
    push_roots(alloc, target, documents.as_slice(), list)?;
    let rows = handlers_at(target.units, written.unit, written.object);
    push_rows(alloc, target, rows, list)
}

/// The names of the handlers of a Connections for which an object has no signal, in the order of writing.
#[tactic(auto, using(crate::proofs::UnheardLemmas::unheard_of_all, crate::proofs::UnheardLemmas::unheard_of_none))]
pub fn unheard<'a>(
    alloc: Global,
    types: &TypeRows,
    state: &State<'a>,
    c: ObjNo,
    target: ObjNo,
) -> Result<Vec<Text>, NoMemory>
    ensures { IfOk result (λ list. list.items ≡ unheard_in (machine_of state.now) c target) }
{
    let mut list = Vec::new(alloc);
    let Some(written) = written_at(state.written.as_slice(), c) else {
        return Ok(list);
    };
    let target = Target {
        types,
        units: state.units,
        written: written_at(state.written.as_slice(), target),
    };
    push_all(alloc, &target, written, &mut list)?;
    Ok(list)
}
