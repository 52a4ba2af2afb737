//! Going through code.

ghost use Rattle.std.specs.Prelude.{◌≡◌, [], ◌∷◌, IfOk, OnOk, reverse};
ghost use Rattle.qml_syntax.specs.Places.{places_of};
ghost use Rattle.code_deeds.specs.declared.tasks.Task.TheVariants as task;
ghost use Rattle.qml_syntax.specs.Places.{part_at, behind};
ghost use Rattle.qml_syntax.specs.Tree.{Function, Stmt, a_stmt, no_stmts};
ghost use Rattle.qml_syntax.specs.Nodes.{of_function, of_stmt};
ghost use Rattle.load_faults.specs.NamesInCode.{Standpoint};
ghost use Rattle.load_faults.specs.Code.{in_body, deeds_of_stmts};
ghost use Rattle.impure_functions.specs.Functions.{deeds_of_function};
ghost use Rattle.code_deeds.specs.Left as s;
ghost use Rattle.code_deeds.specs.Whole as w;

use crate::around::{Entry, Start};
use crate::doing::Doing;
use crate::form::{form_at, step_form_at};
use crate::own::{own_doings, step_doings};
use crate::scopes::{enter_function, entered, entered_step, leave, push_single_names};
use crate::tasks::{Callee, Task, push_inside, push_step};
use qml_base::{NoMemory, Place};
use qml_syntax::Tree;
use std::alloc::Global;

/// Where going through code is.
#[derive(Drop)]
struct Walk {
    found: Vec<Doing>,
    entries: Vec<Entry>,
    tasks: Vec<Task>,
    parts: Vec<usize>,
    aside: Vec<Task>,
}

/// The places of the parts of a node, in place of those before.
fn opened(tree: &Tree, at: usize, parts: &mut Vec<usize>) -> Result<(), NoMemory>
    ensures { OnOk result (parts.new.items ≡ places_of tree.now at) }
{
    parts.clear();
    let _node = tree.open(at, parts)?;
    Ok(())
}

/// Goes into the part at a place.
fn part(
    alloc: Global,
    tree: &Tree,
    start: &Start,
    at: usize,
    right: bool,
    walk: &mut Walk,
) -> Result<(), NoMemory>
    ensures { IfOk result (λ _. s.GoesInto tree.now start.now at right walk.old.found.items walk.new.found.items
        (reverse walk.old.entries.items) (reverse walk.new.entries.items)
        (reverse walk.old.tasks.items) (reverse walk.new.tasks.items)) }
{
    let form = form_at(tree, at);
    opened(tree, at, &mut walk.parts)?;
    own_doings(
        tree,
        start,
        &walk.entries,
        right,
        at,
        form,
        &walk.parts,
        &mut walk.found,
    )?;
    entered(alloc, tree, at, form, &mut walk.entries, &mut walk.tasks)?;
    push_inside(
        tree,
        start,
        &walk.entries,
        form,
        &walk.parts,
        &mut walk.aside,
        &mut walk.tasks,
    )?;
    Ok(())
}

/// Goes over the step at a place.
fn step(
    alloc: Global,
    tree: &Tree,
    start: &Start,
    at: usize,
    callee: Callee,
    bound: Option<Place>,
    walk: &mut Walk,
) -> Result<(), NoMemory>
    ensures { IfOk result (λ _. s.GoesOver tree.now start.now at callee bound walk.old.found.items walk.new.found.items
        (reverse walk.old.entries.items) (reverse walk.new.entries.items)
        (reverse walk.old.tasks.items) (reverse walk.new.tasks.items)) }
{
    let form = step_form_at(tree, at);
    opened(tree, at, &mut walk.parts)?;
    step_doings(tree, start, &walk.entries, callee, form, &mut walk.found)?;
    entered_step(
        alloc,
        tree,
        at,
        bound,
        form,
        &mut walk.entries,
        &mut walk.tasks,
    )?;
    push_step(form, &walk.parts, &mut walk.tasks)?;
    Ok(())
}

/// Takes a task.
#[tactic(auto, using(crate::proofs::LeftLemmas::part_keeps, crate::proofs::LeftLemmas::step_keeps, crate::proofs::LeftLemmas::leave_keeps))]
fn taken(
    alloc: Global,
    tree: &Tree,
    start: &Start,
    task: Task,
    walk: &mut Walk,
) -> Result<(), NoMemory>
    ensures { IfOk result (λ _. s.Keeps tree.now start.now walk.old.found.items walk.new.found.items
        (reverse walk.old.entries.items) (reverse walk.new.entries.items)
        (task ∷ reverse walk.old.tasks.items) (reverse walk.new.tasks.items)) }
{
    match task {
        Task::Part { at, right } => {
            part(alloc, tree, start, at, right, walk)?;
            Ok(())
        }
        Task::Step { at, callee, bound } => {
            step(alloc, tree, start, at, callee, bound, walk)?;
            Ok(())
        }
        Task::Leave => {
            leave(&mut walk.entries);
            Ok(())
        }
    }
}

/// What is done in these tasks.
#[tactic(auto, using(crate::proofs::LeftLemmas::keeps_on, crate::proofs::LeftLemmas::keeps_first))]
fn gone_through(
    alloc: Global,
    tree: &Tree,
    start: &Start,
    entries: Vec<Entry>,
    tasks: Vec<Task>,
) -> Result<Vec<Doing>, NoMemory>
    ensures { IfOk result (λ found. w.Ends tree.now start.now (reverse entries.items)
        (reverse tasks.items) found.items) }
{
    let _root = tree.root();
    let mut walk = Walk {
        found: Vec::new(alloc),
        entries,
        tasks,
        parts: Vec::new(alloc),
        aside: Vec::new(alloc),
    };
    'tasks: for _ in 0..u64::MAX {
        match walk.tasks.pop() {
            Some(task) => taken(alloc, tree, start, task, &mut walk)?,
            None => return Ok(walk.found),
        }
    }
    Err(NoMemory)
}

/// What is done in the function at a place (Qt 5.15, "Property Binding"): effects where none may be, calls there, and
/// a `Qt.binding`
/// that can't stand. Nothing recurses; the time goes by the nodes, and at names by the locals around them.
#[tactic(auto, using(crate::proofs::WholeLemmas::function_told))]
pub fn function_doings(
    alloc: Global,
    tree: &Tree,
    at: usize,
    start: &Start,
) -> Result<Vec<Doing>, NoMemory>
    ensures { IfOk result (λ found. (f : Function) → part_at tree.now at ≡ of_function f →
        (h : Standpoint) → s.Fits start.now h → s.deeds_told h tree.now found.items ≡ deeds_of_function h f) }
{
    let mut parts = Vec::new(alloc);
    opened(tree, at, &mut parts)?;
    let mut entries = Vec::new(alloc);
    let body = enter_function(alloc, tree, &parts, &mut entries)?;
    let mut tasks = Vec::new(alloc);
    tasks.push(Task::Part {
        at: body,
        right: false,
    })?;
    let found = gone_through(alloc, tree, start, entries, tasks)?;
    Ok(found)
}

/// What is done in the statement at a place, likewise, where that is the last part of its node, as a value is.
#[tactic(auto, using(crate::proofs::WholeLemmas::statement_told))]
pub fn statement_doings(
    alloc: Global,
    tree: &Tree,
    at: usize,
    start: &Start,
) -> Result<Vec<Doing>, NoMemory>
    requires { behind tree.now at ≡ [] }
    ensures { IfOk result (λ found. (x : Stmt) → part_at tree.now at ≡ of_stmt x → (h : Standpoint) →
        s.Fits start.now h →
        s.deeds_told h tree.now found.items ≡ deeds_of_stmts (in_body h (a_stmt x no_stmts)) (a_stmt x no_stmts)) }
{
    let mut entries = Vec::new(alloc);
    push_single_names(alloc, tree, at, &mut entries)?;
    let mut tasks = Vec::new(alloc);
    tasks.push(Task::Part { at, right: false })?;
    let found = gone_through(alloc, tree, start, entries, tasks)?;
    Ok(found)
}
