//! Reactions, by the type of the object.

ghost use Rattle.std.specs.Prelude.{◌≡◌, IfOk, OnOk};
ghost use Rattle.program_names.specs.Layers.{same_type};
ghost use Rattle.qml_types.specs.declared.kind.TypeNo.TheVariants as no;
ghost use Rattle.qml_base.specs.declared.numbers.ExprNo.{ExprNo};
ghost use Rattle.qml_base.specs.declared.names.Home.{Home};
ghost use Rattle.evaluation.specs.Ask.{Ask};
ghost use Rattle.tree_model.specs.Rules.{is_set};
ghost use Rattle.machine_model.specs.Acts.{goes, each};
ghost use Rattle.machine_model.specs.Reactions as machine;
ghost use Rattle.machine_state.specs.Keeping.{machine_of, Ready};
ghost use Rattle.machine_reactions.specs.Unheard.{object_in};
ghost use Rattle.machine_reactions.specs.Keeping.{Same};

use crate::unheard::{text, unheard};
use machine_state::State;
use machine_steps::held_copy;
use qml_base::{Cause, CellNo, NoMemory, ObjNo};
use qml_text::Text;
use qml_types::TypeNo;
use qml_value::Value;
use signal_dispatch::builtin_in;
use std::alloc::Global;
use trace_print::{Entry, Site};
use type_rows::TypeRows;

/// Reports a handler of a Connections.
fn report<'a>(
    alloc: Global,
    state: &mut State<'a>,
    c: ObjNo,
    handler: &Text,
) -> Result<(), NoMemory>
    ensures told { OnOk result (machine.report_unheard c handler.now (machine_of state.old) ≡ goes tt (machine_of state.new)) }
    ensures same { Same state.old state.new }
{
    let name = text(alloc, handler)?;
    state.tell(Entry::ThrewReport {
        site: Site::Handler(c, name),
        cause: Cause::Name,
    })
}

/// Reports handlers of a Connections.
fn report_each<'a>(
    alloc: Global,
    state: &mut State<'a>,
    c: ObjNo,
    handlers: &[Text],
) -> Result<(), NoMemory>
    ensures told { OnOk result (each (machine.report_unheard c) handlers.now (machine_of state.old) ≡ goes tt (machine_of state.new)) }
    ensures same { Same state.old state.new }
{
    'handlers: for handler in handlers {
        report(alloc, state, c, handler)?;
    }
    Ok(())
}

/// Reports the handlers of a Connections for which the target has no signal.
fn report_all<'a>(
    alloc: Global,
    types: &TypeRows,
    state: &mut State<'a>,
    c: ObjNo,
    target: ObjNo,
) -> Result<(), NoMemory>
    ensures told { OnOk result (machine.report_all c target (machine_of state.old) ≡ goes tt (machine_of state.new)) }
    ensures same { Same state.old state.new }
{
    let handlers = unheard(alloc, types, state, c, target)?;
    report_each(alloc, state, c, handlers.as_slice())
}

/// Whether it is true.
fn is_true(value: &Value) -> bool
    ensures { result ≡ is_set value.now }
{
    match value {
        Value::Bool(b) => *b,
        _ => false,
    }
}

/// The object that a value names.
fn object_named(value: &Value) -> Option<ObjNo>
    ensures { result ≡ object_in value.now }
{
    match value {
        Value::Object(o) => Some(*o),
        Value::Component(o) => Some(*o),
        _ => None,
    }
}

/// A Connections looks at its target (Qt 5.15, Connections: `target`, `ignoreUnknownSignals`).
#[tactic(auto, using(crate::proofs::ReactionLemmas::ignored, crate::proofs::ReactionLemmas::aimed, crate::proofs::ReactionLemmas::not_aimed))]
fn connect<'a>(
    alloc: Global,
    types: &TypeRows,
    state: &mut State<'a>,
    c: ObjNo,
) -> Result<(), NoMemory>
    ensures told { OnOk result (machine.connect c (machine_of state.old) ≡ goes tt (machine_of state.new)) }
    ensures same { Same state.old state.new }
{
    let ignores = held_copy(
        alloc,
        &state.tree,
        CellNo {
            object: c,
            place: 3,
        },
    )?;
    if is_true(&ignores) {
        return Ok(());
    }
    let target = held_copy(
        alloc,
        &state.tree,
        CellNo {
            object: c,
            place: 1,
        },
    )?;
    match object_named(&target) {
        Some(target) => report_all(alloc, types, state, c, target),
        None => Ok(()),
    }
}

/// Whether it is a Connections.
fn is_connections(of_type: TypeNo) -> bool
    ensures { result ≡ same_type no.Connections of_type }
{
    match of_type {
        TypeNo::Connections => true,
        _ => false,
    }
}

/// What an object does when it starts and when one of its properties changes: a Connections reports each handler for which its
/// target has no signal, in the order of writing, unless it ignores these; other objects do nothing. Nothing but the trace
/// changes. Without memory a front of it may have been told.
#[tactic(auto, using(crate::proofs::ReactionLemmas::connects, crate::proofs::ReactionLemmas::does_nothing))]
pub fn react<'a>(
    alloc: Global,
    types: &TypeRows,
    state: &mut State<'a>,
    o: ObjNo,
) -> Result<(), NoMemory>
    ensures reacts { OnOk result (machine.react o (machine_of state.old) ≡ goes tt (machine_of state.new)) }
    ensures same { Same state.old state.new }
    ensures ready { (asks : ExprNo → Home → Ask) → Ready asks state.old → Ready asks state.new }
{
    if is_connections(builtin_in(state, o)) {
        connect(alloc, types, state, o)
    } else {
        Ok(())
    }
}
