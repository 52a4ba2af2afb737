//! Which documents are reached.

ghost use Rattle.std.specs.Prelude.{◌≡◌, ◌||◌, nat_eq, [], ◌∷◌, length, map, reverse, IfOk, OnOk, List, ℕ};
ghost use Rattle.unit_cycles.specs.Uses.{uses_at, use_of, added, reaches as is_reached};
ghost use Rattle.unit_cycles.specs.Waiting.{Marks, documents_of};

use crate::uses::DocumentUse;
use indexmap::IndexSet;
use qml_base::NoMemory;
use std::alloc::Global;

/// Puts a document last among those that wait, where it was neither reached nor waits.
fn wait_for(
    marks: &mut IndexSet<usize>,
    todo: &mut Vec<usize>,
    document: usize,
) -> Result<(), NoMemory>
    ensures { (seen : List ℕ) → Marks marks.old.keys seen (reverse todo.old.items) → OnOk result (
        Marks marks.new.keys seen (reverse todo.new.items) × (reverse todo.new.items ≡ added seen (reverse todo.old.items) (document ∷ []))) }
{
    let Ok(added) = marks.insert_full(document) else {
        return Err(NoMemory);
    };
    if added.1 {
        todo.push(document)?;
    }
    Ok(())
}

/// The same for the documents that are used, in their order.
fn wait_for_all(
    marks: &mut IndexSet<usize>,
    todo: &mut Vec<usize>,
    uses: &[DocumentUse],
) -> Result<(), NoMemory>
    ensures { (seen : List ℕ) → Marks marks.old.keys seen (reverse todo.old.items) → OnOk result (
        Marks marks.new.keys seen (reverse todo.new.items) ×
        (reverse todo.new.items ≡ added seen (reverse todo.old.items) (documents_of (map use_of uses.now)))) }
{
    'uses: for u in uses {
        wait_for(marks, todo, u.document)?;
    }
    Ok(())
}

/// The same for the documents that a document uses.
fn wait_for_used(
    marks: &mut IndexSet<usize>,
    todo: &mut Vec<usize>,
    uses: &[Vec<DocumentUse>],
    document: usize,
) -> Result<(), NoMemory>
    ensures { (seen : List ℕ) → Marks marks.old.keys seen (reverse todo.old.items) → OnOk result (
        Marks marks.new.keys seen (reverse todo.new.items) ×
        (reverse todo.new.items ≡ added seen (reverse todo.old.items) (documents_of (uses_at uses.now document)))) }
{
    match uses.get(document) {
        Some(row) => wait_for_all(marks, todo, row.as_slice()),
        None => Ok(()),
    }
}

fn is_found(goal: usize, document: usize, before: bool) -> bool
    ensures { result ≡ (nat_eq goal document || before) }
{
    goal == document || before
}

/// Whether a document is reached from another by uses; each is from itself.
pub fn reaches(
    alloc: Global,
    uses: &[Vec<DocumentUse>],
    goal: usize,
    from: usize,
) -> Result<bool, NoMemory>
    ensures { IfOk result (λ b. b ≡ is_reached (uses_at uses.now) (length uses.now) goal from) }
{
    let mut marks: IndexSet<usize> = IndexSet::new(alloc);
    let mut todo = Vec::new(alloc);
    wait_for(&mut marks, &mut todo, from)?;
    let mut found = false;
    'documents: for _ in 0..uses.len() {
        let Some(document) = todo.pop() else {
            return Ok(found);
        };
        found = is_found(goal, document, found);
        wait_for_used(&mut marks, &mut todo, uses, document)?;
    }
    match todo.pop() {
        Some(document) => Ok(is_found(goal, document, found)),
        None => Ok(found),
    }
}
