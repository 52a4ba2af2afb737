//! Calls of functions, and what comes back from them.

ghost use Rattle.std.specs.Prelude.{◌≡◌, ◌∷◌, [], true, false, map, IfOk};
ghost use Rattle.js_meaning.specs.Locals.{lets_of, parameters, vars_of_all};
ghost use Rattle.js_locals.specs.Laid.{laid, name_of, stmts_in};
ghost use Rattle.js_locals.specs.Scopes.{scopes_of, fresh_onto, parameters_onto};
ghost use Rattle.js_frames.specs.Standing.{standing};
ghost use Rattle.js_locals.specs.Gathering.{row_from};
ghost use Rattle.js_frames.specs.Stepping.{BodyBegun, Enters, Returns};

use evaluation::Args;
use js_frames::{Before, Code, Frame, Here, Machine, Next, Stack};
use js_locals::{Local, Locals, bind, declare, let_names, row_behind, var_names};
use js_looking::threw;
use qml_base::{Cause, ExprNo, Home, ObjNo};
use qml_syntax::Tree;
use qml_text::NoMemory;
use qml_value::Value;
use std::alloc::Global;
use std::mem;

/// The locals with which statements begin, from the first on: their own `let`s over parameters and `var`s. They stand in
/// room that is kept beside the frames.
pub(crate) fn body_locals(
    frames: &mut Stack,
    alloc: Global,
    tree: &Tree,
    names: &[usize],
    values: &[Value],
    first: Option<usize>,
) -> Result<Locals, NoMemory>
    ensures scopes { IfOk result (λ ls. scopes_of (laid tree.now) ls ≡ lets_of (stmts_in (row_from (laid tree.now) first)) ∷ parameters (map (name_of (laid tree.now)) names.now) values.now (vars_of_all (stmts_in (row_from (laid tree.now) first)) []) ∷ []) }
    ensures frames { frames.new ≡ frames.old }
{
    let mut locals = frames.take_locals(alloc);
    let vars = var_names(tree, first, frames.take_names(alloc))?;
    locals.push(Local::Scope)?;
    let room = declare(&mut locals, true, vars)?;
    bind(&mut locals, alloc, names, values)?;
    locals.push(Local::Scope)?;
    let lets = let_names(tree, first, room)?;
    let room = declare(&mut locals, false, lets)?;
    frames.keep_names(room);
    Ok(locals)
}

/// Begins the statements of a body behind a call.
fn begin_body(
    machine: &mut Machine,
    here: &mut Here,
    calls: u32,
    locals: Locals,
    body: ExprNo,
    object: ObjNo,
    at: usize,
) -> Result<(), NoMemory>
    ensures { IfOk result (λ _. BodyBegun here.old here.new calls locals body object at (standing machine.old) (standing machine.new)) }
{
    let caller = mem::replace(&mut machine.locals, locals);
    machine.frames.push(Frame::Call(*here, caller, at))?;
    *here = Here {
        home: Home {
            unit: body.unit,
            scope: object,
            author: object,
        },
        text: body,
        calls,
    };
    Ok(())
}

/// Calls a body.
#[tactic(auto, using(js_frames::proofs::CallLemmas::enters_body))]
pub fn entered<C: Code>(
    machine: &mut Machine,
    alloc: Global,
    code: &C,
    here: &mut Here,
    body: ExprNo,
    object: ObjNo,
    values: Args,
    at: usize,
) -> Result<Next, NoMemory>
    ensures { IfOk result (λ y. Enters (C.meaning code.now) (C.tables code.now) body object values at here.old here.new (standing machine.old) (standing machine.new) y) }
{
    if here.calls == 0 {
        return Ok(threw(Cause::Depth));
    }
    let calls = here.calls - 1;
    let Some(tree) = code.tree(body) else {
        return Err(NoMemory);
    };
    let Some(mark) = code.statements(body) else {
        return Err(NoMemory);
    };
    let first = row_behind(tree, mark);
    let names = code.parameters(body);
    let locals = body_locals(
        &mut machine.frames,
        alloc,
        tree,
        names,
        values.values(),
        first,
    )?;
    machine.frames.keep_arguments(values);
    begin_body(machine, here, calls, locals, body, object, at)?;
    Ok(Next::Rest(mark))
}

/// Goes back from a call with a value.
pub(crate) fn returned(
    machine: &mut Machine,
    here: &mut Here,
    caller: Here,
    locals: Locals,
    at: usize,
    value: Value,
) -> Next
    ensures { Returns here.new (standing machine.old) (standing machine.new) caller locals at value result }
{
    *here = caller;
    let over = mem::replace(&mut machine.locals, locals);
    machine.frames.keep_locals(over);
    Next::Step(Before::Value(value), at)
}
