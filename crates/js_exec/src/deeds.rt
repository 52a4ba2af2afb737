//! What goes by effects and does none.

ghost use Rattle.std.specs.Prelude.{◌≡◌, IfOk};
ghost use Rattle.js_locals.specs.Laid.{laid};
ghost use Rattle.js_frames.specs.Standing.{standing};
ghost use Rattle.js_acting.specs.Leading.{Leads, Reads};

use crate::sight::{Watch, is_gone};
use evaluation::Args;
use js_frames::{Callee, Deed, Machine, Next};
use js_looking::threw;
use js_steps::hidden_read;
use qml_base::{Cause, CellNo, ObjNo};
use qml_syntax::Tree;
use qml_text::NoMemory;
use std::alloc::Global;

/// Calls a method that reads a hidden cell, unless its object is condemned.
fn read<V: Watch>(
    machine: &mut Machine,
    alloc: Global,
    tree: &Tree,
    view: &V,
    author: ObjNo,
    object: ObjNo,
    cell: CellNo,
    name: usize,
    arguments: Args,
    at: usize,
) -> Result<Next, NoMemory>
    ensures { IfOk result (λ y. Reads (record { names = V.names view.now; view = V.seen view.now }) (V.sight view.now) (laid tree.now) author object cell name arguments at (standing machine.old) (standing machine.new) y) }
{
    if is_gone(view, author, object) {
        return Ok(threw(Cause::Gone));
    }
    let next = hidden_read(machine, alloc, tree, view, cell, name, arguments, at)?;
    Ok(next)
}

/// Goes on with what goes by effects and does none. Others are none of these.
pub(crate) fn led<V: Watch>(
    machine: &mut Machine,
    alloc: Global,
    tree: &Tree,
    view: &V,
    author: ObjNo,
    deed: Deed,
) -> Result<Next, NoMemory>
    ensures { IfOk result (λ y. Leads (record { names = V.names view.now; view = V.seen view.now }) (V.sight view.now) (laid tree.now) author deed (standing machine.old) (standing machine.new) y) }
{
    match deed {
        Deed::Reach(body, object, _, at) => Ok(Next::Args(Callee::Body(body, object), at)),
        Deed::Read(object, cell, name, arguments, at) => {
            let next = read(
                machine, alloc, tree, view, author, object, cell, name, arguments, at,
            )?;
            Ok(next)
        }
        Deed::Emit(_, _, _, _) | Deed::Do(_, _, _, _) | Deed::Log(_, _) => Err(NoMemory),
        Deed::Write(_) | Deed::Rebind(_) => Err(NoMemory),
    }
}
