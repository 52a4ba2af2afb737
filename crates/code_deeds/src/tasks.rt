//! What is still to be gone through.

ghost use Rattle.std.specs.Prelude.{◌≡◌, ◌++◌, ◌∷◌, IfOk, OnOk, reverse};
ghost use Rattle.qml_syntax.specs.Places.{places_of};
ghost use Rattle.code_deeds.specs.Forms.{node_at};
ghost use Rattle.code_deeds.specs.Tasks as s;

use crate::around::{Entry, Start};
use crate::form::{Form, StepForm};
use crate::own::{bound, is_local_at};
use qml_base::{NoMemory, Place};
use qml_syntax::{Assignment, Node, Tree};

/// What a call calls, by the places of nodes.
#[derive(Clone, Copy, Debug)]
pub enum Callee {
    /// A name.
    Name(usize),
    /// A member of a name.
    OfName { name: usize, member: usize },
    /// A member of another value.
    Member(usize),
    /// Another value.
    Value,
}

/// What is still to be gone through.
#[derive(Clone, Copy, Debug)]
pub enum Task {
    /// A part, and whether it is assigned to a property.
    Part {
        at: usize,
        right: bool,
    },
    /// A step behind what it calls; where its value begins with `Qt.binding`, the place of that.
    Step {
        at: usize,
        callee: Callee,
        bound: Option<Place>,
    },
    /// The innermost block or function ends.
    Leave,
}

/// Adds these parts, so that the first of them is the next task.
pub fn push_parts(parts: &[usize], tasks: &mut Vec<Task>) -> Result<(), NoMemory>
    ensures { OnOk result (reverse tasks.new.items ≡ s.part_tasks parts.now ++ reverse tasks.old.items) }
{
    let mut left = parts;
    'parts: while let Some((last, front)) = left.split_last() {
        tasks.push(Task::Part {
            at: *last,
            right: false,
        })?;
        left = front;
    }
    Ok(())
}

fn is_plain_target(tree: &Tree, at: usize) -> bool
    ensures { result ≡ s.is_plain_target (node_at tree.now at) }
{
    match tree.node(at) {
        Some(Node::Target(_, Assignment::Plain, _)) => true,
        _ => false,
    }
}

/// Whether what is assigned to this target is assigned to a property.
fn is_right(tree: &Tree, start: &Start, entries: &[Entry], target: usize) -> Result<bool, NoMemory>
    ensures { IfOk result (λ b. b ≡ s.is_right tree.now start.now (reverse entries.now) target) }
{
    if !is_plain_target(tree, target) {
        return Ok(false);
    }
    match tree.first(target) {
        Some(part) => Ok(!is_local_at(tree, start, entries, part)?),
        None => Ok(false),
    }
}

/// Whether a value behind these targets is assigned to a property.
fn right_of(
    tree: &Tree,
    start: &Start,
    entries: &[Entry],
    targets: &[usize],
) -> Result<bool, NoMemory>
    ensures { IfOk result (λ b. b ≡ s.right_of tree.now start.now (reverse entries.now) (reverse targets.now)) }
{
    match targets.split_last() {
        Some((target, _)) => is_right(tree, start, entries, *target),
        None => Ok(false),
    }
}

/// Adds the parts of an assignment.
fn push_assigned(
    tree: &Tree,
    start: &Start,
    entries: &[Entry],
    parts: &[usize],
    tasks: &mut Vec<Task>,
) -> Result<(), NoMemory>
    ensures { OnOk result (reverse tasks.new.items ≡
        s.assigned_tasks tree.now start.now (reverse entries.now) (reverse parts.now) ++ reverse tasks.old.items) }
{
    match parts.split_last() {
        Some((value, targets)) => {
            let right = right_of(tree, start, entries, targets)?;
            tasks.push(Task::Part { at: *value, right })?;
            push_parts(targets, tasks)
        }
        None => Ok(()),
    }
}

/// What is called, where the value at a place is called.
fn callee_at(tree: &Tree, at: usize) -> Callee
    ensures { result ≡ s.callee_by at (node_at tree.now at) }
{
    match tree.node(at) {
        Some(Node::Name(_, _)) => Callee::Name(at),
        _ => Callee::Value,
    }
}

fn member_behind(callee: Callee, at: usize) -> Callee
    ensures { result ≡ s.member_behind callee at }
{
    match callee {
        Callee::Name(name) => Callee::OfName { name, member: at },
        Callee::OfName { name: _, member: _ } => Callee::Member(at),
        Callee::Member(_) => Callee::Member(at),
        Callee::Value => Callee::Member(at),
    }
}

/// What is called behind a step.
fn callee_behind(tree: &Tree, callee: Callee, at: usize) -> Callee
    ensures { result ≡ s.callee_behind callee at (node_at tree.now at) }
{
    match tree.node(at) {
        Some(Node::Member(_, _)) => member_behind(callee, at),
        _ => Callee::Value,
    }
}

/// The tasks of steps, in their order.
fn step_tasks(
    tree: &Tree,
    bound: Option<Place>,
    value: usize,
    steps: &[usize],
    tasks: &mut Vec<Task>,
) -> Result<(), NoMemory>
    ensures { OnOk result (tasks.new.items ≡ tasks.old.items ++
        s.step_tasks tree.now bound (s.callee_by value (node_at tree.now value)) steps.now) }
{
    let mut callee = callee_at(tree, value);
    'steps: for step in steps {
        tasks.push(Task::Step {
            at: *step,
            callee,
            bound,
        })?;
        callee = callee_behind(tree, callee, *step);
    }
    Ok(())
}

/// Moves tasks onto others, so that the first of them is the next one.
fn move_tasks(some: &mut Vec<Task>, tasks: &mut Vec<Task>) -> Result<(), NoMemory>
    ensures { OnOk result (reverse tasks.new.items ≡ some.old.items ++ reverse tasks.old.items) }
{
    'tasks: while let Some(task) = some.pop() {
        tasks.push(task)?;
    }
    Ok(())
}

/// Adds a value and the steps behind it.
fn push_steps(
    tree: &Tree,
    parts: &[usize],
    aside: &mut Vec<Task>,
    tasks: &mut Vec<Task>,
) -> Result<(), NoMemory>
    ensures { OnOk result (reverse tasks.new.items ≡ s.steps_tasks tree.now parts.now ++ reverse tasks.old.items) }
{
    let Some((value, steps)) = parts.split_first() else {
        return Ok(());
    };
    aside.clear();
    step_tasks(tree, bound(tree, parts), *value, steps, aside)?;
    move_tasks(aside, tasks)?;
    tasks.push(Task::Part {
        at: *value,
        right: false,
    })?;
    Ok(())
}

/// Adds the parts of a node.
pub fn push_inside(
    tree: &Tree,
    start: &Start,
    entries: &[Entry],
    form: Form,
    parts: &[usize],
    aside: &mut Vec<Task>,
    tasks: &mut Vec<Task>,
) -> Result<(), NoMemory>
    ensures { OnOk result (reverse tasks.new.items ≡
        s.inside_tasks tree.now start.now (reverse entries.now) form parts.now ++ reverse tasks.old.items) }
{
    match form {
        Form::Steps => push_steps(tree, parts, aside, tasks),
        Form::Assign => push_assigned(tree, start, entries, parts, tasks),
        Form::ChangesFirst(_) => push_parts(parts, tasks),
        Form::ChangesLast(_) => push_parts(parts, tasks),
        Form::Block => push_parts(parts, tasks),
        Form::For => push_parts(parts, tasks),
        Form::Parts => push_parts(parts, tasks),
        Form::Name | Form::Other => Ok(()),
    }
}

/// Adds the parts of a step.
pub fn push_step(form: StepForm, parts: &[usize], tasks: &mut Vec<Task>) -> Result<(), NoMemory>
    ensures { OnOk result (reverse tasks.new.items ≡ s.step_inside form parts.now ++ reverse tasks.old.items) }
{
    match form {
        StepForm::Element => push_parts(parts, tasks),
        StepForm::Call(_) => push_parts(parts, tasks),
        StepForm::Binding(_) => push_parts(parts, tasks),
        StepForm::Other => Ok(()),
    }
}
