//! The Connections that hear a signal.

ghost use Rattle.std.specs.Prelude.{◌≡◌, ◌++◌, map, OnOk};
ghost use Rattle.program_names.specs.Layers.{same_type};
ghost use Rattle.qml_types.specs.declared.kind.TypeNo.TheVariants as no;
ghost use Rattle.tree_model.specs.Rules.{is_set};
ghost use Rattle.tree_model.specs.Settling.{held_at, place_of};
ghost use Rattle.machine_model.specs.Dispatch as machine;
ghost use Rattle.machine_state.specs.Keeping.{machine_of};
ghost use Rattle.own_handlers.specs.Seen.{delivery_seen};
ghost use Rattle.signal_dispatch.specs.Hearing as s;
ghost use Rattle.signal_dispatch.specs.Seen.{hears};

use crate::aimed::{Heard, push_aimed};
use crate::live::{builtin_in, is_condemned, written_at};
use live_tree::LiveTree;
use machine_state::State;
use own_handlers::Delivery;
use qml_base::{CellNo, NoMemory, ObjNo};
use qml_types::TypeNo;
use qml_value::Value;
use std::alloc::Global;
use tree_model::Object;

/// Whether it is true.
fn is_true(value: &Value) -> bool
    ensures { result ≡ is_set value.now }
{
    match value {
        Value::Bool(b) => *b,
        _ => false,
    }
}

/// Whether it is the object.
fn is_object(value: &Value, o: ObjNo) -> bool
    ensures { result ≡ s.is_object o value.now }
{
    match value {
        Value::Object(p) => p.0 == o.0,
        Value::Component(p) => p.0 == o.0,
        _ => false,
    }
}

/// Whether the cell holds true.
#[tactic(auto, using(crate::proofs::HeldLemmas::set_is, crate::proofs::HeldLemmas::none_set))]
fn holds_true(tree: &LiveTree, c: CellNo) -> bool
    ensures { result ≡ is_set (held_at tree.now.tree.cells (place_of tree.now.tree.cells c)) }
{
    if tree.has_cell(c) {
        is_true(tree.read(c))
    } else {
        false
    }
}

/// Whether the cell holds the object.
#[tactic(auto, using(crate::proofs::HeldLemmas::object_is, crate::proofs::HeldLemmas::no_object))]
fn holds_object(tree: &LiveTree, c: CellNo, o: ObjNo) -> bool
    ensures { result ≡ s.is_object o (held_at tree.now.tree.cells (place_of tree.now.tree.cells c)) }
{
    if tree.has_cell(c) {
        is_object(tree.read(c), o)
    } else {
        false
    }
}

/// Whether a Connections is enabled and the object is its target (Qt 5.15, Connections: `enabled`, `target`).
pub fn is_enabled_on<'a>(state: &State<'a>, c: ObjNo, o: ObjNo) -> bool
    ensures { result ≡ machine.is_enabled_on (machine_of state.now) c o }
{
    let enabled = CellNo {
        object: c,
        place: 2,
    };
    let target = CellNo {
        object: c,
        place: 1,
    };
    holds_true(&state.tree, enabled) && holds_object(&state.tree, target, o)
}

/// Whether it is a Connections.
fn is_connections(of_type: TypeNo) -> bool
    ensures { result ≡ same_type no.Connections of_type }
{
    match of_type {
        TypeNo::Connections => true,
        _ => false,
    }
}

/// Whether the live object `c` is a Connections that isn't condemned, is enabled, and has the object as its target.
#[tactic(auto, using(crate::proofs::HeldLemmas::is_off, crate::proofs::HeldLemmas::is_gone, crate::proofs::HeldLemmas::is_on))]
fn listens<'a>(state: &State<'a>, o: ObjNo, c: ObjNo) -> bool
    ensures { result ≡ s.listens (machine_of state.now) o c }
{
    if !is_enabled_on(state, c, o) {
        return false;
    }
    if is_condemned(state, c) {
        return false;
    }
    is_connections(builtin_in(state, c))
}

/// Puts the deliveries of all handlers of an object for the signal.
fn push_handlers<'a>(
    alloc: Global,
    state: &State<'a>,
    heard: &Heard,
    c: ObjNo,
    list: &mut Vec<Delivery>,
) -> Result<(), NoMemory>
    requires { heard.now.units.now ≡ state.now.units.now }
    ensures { OnOk result (map delivery_seen list.new.items ≡ map delivery_seen list.old.items ++ s.all_heard (machine_of state.now) (hears heard.now) c) }
{
    match written_at(state.written.as_slice(), c) {
        Some(written) => push_aimed(alloc, heard, c, written, list),
        None => Ok(()),
    }
}

/// Puts the deliveries of an object for the signal, if it listens.
fn push_if<'a>(
    alloc: Global,
    state: &State<'a>,
    heard: &Heard,
    c: ObjNo,
    list: &mut Vec<Delivery>,
) -> Result<(), NoMemory>
    requires { heard.now.units.now ≡ state.now.units.now }
    ensures { OnOk result (map delivery_seen list.new.items ≡ map delivery_seen list.old.items ++ s.heard_if (machine_of state.now) (hears heard.now) c) }
{
    if !listens(state, heard.object, c) {
        return Ok(());
    }
    push_handlers(alloc, state, heard, c, list)
}

/// Puts the deliveries of these objects for the signal.
fn push_all<'a>(
    alloc: Global,
    state: &State<'a>,
    heard: &Heard,
    objects: &[Object],
    list: &mut Vec<Delivery>,
) -> Result<(), NoMemory>
    requires { heard.now.units.now ≡ state.now.units.now }
    ensures { OnOk result (map delivery_seen list.new.items ≡ map delivery_seen list.old.items ++ s.heard_by_all (machine_of state.now) (hears heard.now) objects.now) }
{
    'objects: for object in objects {
        push_if(alloc, state, heard, object.number, list)?;
    }
    Ok(())
}

/// Puts the deliveries of the handlers for a signal of an object, of the live Connections that aren't condemned, are enabled, and
/// have the object as their target: by number, and in the order of writing (Qt 5.15, Connections). The units of what is heard are
/// those of the machine. Without memory a front of them may have been put.
pub fn push_connections<'a>(
    alloc: Global,
    state: &State<'a>,
    heard: &Heard,
    list: &mut Vec<Delivery>,
) -> Result<(), NoMemory>
    requires { heard.now.units.now ≡ state.now.units.now }
    ensures { OnOk result (map delivery_seen list.new.items ≡ map delivery_seen list.old.items ++ s.heard_by_all (machine_of state.now) (hears heard.now) state.now.tree.tree.objects) }
{
    push_all(alloc, state, heard, state.tree.objects().objects(), list)
}
