//! Going through a tree in the order of writing.

ghost use Rattle.std.specs.Prelude.{◌≡◌, ◌++◌, IfOk, OnOk};
ghost use Rattle.qml_syntax.specs.Places.{places_of};
ghost use Rattle.document_rows.specs.Entries.{IsDocument, AreRows};
ghost use Rattle.document_rows.specs.Walk.{place_tasks, task_of as task_of_place, value_tasks, inside_tasks, Steps};

use crate::kind::{Kind, kind_at, member_place};
use crate::rows::{DocumentRows, MemberRow, ObjectRow};
use qml_base::NoMemory;
use qml_syntax::Tree;
use std::alloc::Global;

/// What is still to be gone through.
#[derive(Clone, Copy, Debug)]
enum Task {
    Object(ObjectRow),
    Member {
        node: usize,
        object: usize,
        group: Option<usize>,
    },
}

/// What parts in a row are: members of an object or a group, or the objects of the list of a member's row.
#[derive(Clone, Copy, Debug)]
enum Parts {
    Members { object: usize, group: Option<usize> },
    Objects { row: usize },
}

/// The rows of a document. Nothing recurses, however deep the tree is.
pub fn document_rows(alloc: Global, tree: &Tree) -> Result<DocumentRows, NoMemory>
    requires { IsDocument tree.now }
    ensures { IfOk result (λ rows. AreRows tree.now rows.objects.items rows.members.items) }
{
    let mut rows = DocumentRows {
        objects: Vec::new(alloc),
        members: Vec::new(alloc),
    };
    let mut parts = Vec::new(alloc);
    let mut tasks = Vec::new(alloc);
    opened(tree, tree.root(), &mut parts)?;
    if let Some(node) = parts.pop() {
        tasks.push(Task::Object(ObjectRow { node, row: None }))?;
    }
    'tasks: for _ in 0..u64::MAX {
        match tasks.pop() {
            Some(task) => step(tree, task, &mut rows, &mut parts, &mut tasks)?,
            None => return Ok(rows),
        }
    }
    Err(NoMemory)
}

/// Adds the row of a task, and what is in it as further tasks.
fn step(
    tree: &Tree,
    task: Task,
    rows: &mut DocumentRows,
    parts: &mut Vec<usize>,
    tasks: &mut Vec<Task>,
) -> Result<(), NoMemory>
    ensures { OnOk result (Steps tree.now task rows.old rows.new tasks.old.items tasks.new.items) }
{
    match task {
        Task::Object(row) => {
            let object = rows.objects.len();
            rows.objects.push(row)?;
            opened(tree, row.node, parts)?;
            push_parts(
                tree,
                Parts::Members {
                    object,
                    group: None,
                },
                parts,
                tasks,
            )
        }
        Task::Member {
            node,
            object,
            group,
        } => {
            let row = rows.members.len();
            let first = rows.objects.len();
            rows.members.push(MemberRow {
                node,
                object,
                group,
                first,
            })?;
            push_inside(tree, node, object, row, parts, tasks)
        }
    }
}

/// Adds what is in a member.
fn push_inside(
    tree: &Tree,
    node: usize,
    object: usize,
    row: usize,
    parts: &mut Vec<usize>,
    tasks: &mut Vec<Task>,
) -> Result<(), NoMemory>
    ensures { OnOk result (tasks.new.items ≡ tasks.old.items ++ inside_tasks tree.now object row node) }
{
    match kind_at(tree, node) {
        Kind::Group => {
            opened(tree, node, parts)?;
            let members = Parts::Members {
                object,
                group: Some(row),
            };
            push_parts(tree, members, parts, tasks)
        }
        Kind::Holder => {
            opened(tree, node, parts)?;
            match parts.pop() {
                Some(value) => push_value(tree, value, row, parts, tasks),
                None => Ok(()),
            }
        }
        _ => Ok(()),
    }
}

/// Adds the objects of a value.
fn push_value(
    tree: &Tree,
    value: usize,
    row: usize,
    parts: &mut Vec<usize>,
    tasks: &mut Vec<Task>,
) -> Result<(), NoMemory>
    ensures { OnOk result (tasks.new.items ≡ tasks.old.items ++ value_tasks tree.now row value) }
{
    match kind_at(tree, value) {
        Kind::Object => {
            tasks.push(Task::Object(ObjectRow {
                node: value,
                row: Some(row),
            }))?;
            Ok(())
        }
        Kind::Objects => {
            opened(tree, value, parts)?;
            push_parts(tree, Parts::Objects { row }, parts, tasks)
        }
        _ => Ok(()),
    }
}

/// Adds the parts behind a mark, so that the first of them is the next task.
fn push_parts(
    tree: &Tree,
    what: Parts,
    parts: &mut Vec<usize>,
    tasks: &mut Vec<Task>,
) -> Result<(), NoMemory>
    ensures { OnOk result (tasks.new.items ≡ tasks.old.items ++ place_tasks tree.now what parts.old.items) }
{
    'parts: while let Some(part) = parts.pop() {
        if kind_at(tree, part) == Kind::Mark {
            return Ok(());
        }
        tasks.push(task_of(tree, what, part))?;
    }
    Ok(())
}

/// The task of a part.
fn task_of(tree: &Tree, what: Parts, part: usize) -> Task
    ensures { result ≡ task_of_place tree.now what part }
{
    match what {
        Parts::Members { object, group } => Task::Member {
            node: member_place(tree, part),
            object,
            group,
        },
        Parts::Objects { row } => Task::Object(ObjectRow {
            node: part,
            row: Some(row),
        }),
    }
}

/// The places of the parts of a node, in place of those before.
fn opened(tree: &Tree, at: usize, parts: &mut Vec<usize>) -> Result<(), NoMemory>
    ensures { OnOk result (parts.new.items ≡ places_of tree.now at) }
{
    parts.clear();
    let _node = tree.open(at, parts)?;
    Ok(())
}
