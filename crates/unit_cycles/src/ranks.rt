//! A ranking of documents by their uses.

ghost use Rattle.std.specs.Prelude.{◌<◌, ◌≡◌, IsTrue, ℕ, Contains, map};
ghost use Rattle.load_faults.specs.Cycles.{Use};
ghost use Rattle.unit_cycles.specs.Uses.{uses_at, use_of, rank_of as rank_by, Descend, AllBelow};

use crate::uses::DocumentUse;
use qml_base::NoMemory;
use std::alloc::Global;

fn count_up(counts: &mut [usize], at: usize) {
    if let Some(count) = counts.get_mut(at) {
        *count = count.saturating_add(1);
    }
}

/// One less, and whether it was the last.
fn count_down(counts: &mut [usize], at: usize) -> bool {
    match counts.get_mut(at) {
        Some(count) => {
            *count = count.saturating_sub(1);
            *count == 0
        }
        None => false,
    }
}

fn set_rank(ranks: &mut [usize], at: usize, rank: usize) {
    if let Some(place) = ranks.get_mut(at) {
        *place = rank;
    }
}

/// How often each document is used.
fn use_counts(alloc: Global, uses: &[Vec<DocumentUse>]) -> Result<Vec<usize>, NoMemory> {
    let mut counts = Vec::new(alloc);
    'documents: for _ in 0..uses.len() {
        counts.push(0)?;
    }
    'rows: for row in uses {
        'uses: for u in row {
            count_up(&mut counts, u.document);
        }
    }
    Ok(counts)
}

fn unused(alloc: Global, counts: &[usize]) -> Result<Vec<usize>, NoMemory> {
    let mut documents = Vec::new(alloc);
    'documents: for at in 0..counts.len() {
        if counts[at] == 0 {
            documents.push(at)?;
        }
    }
    Ok(documents)
}

fn release(
    counts: &mut [usize],
    next: &mut Vec<usize>,
    uses: &[DocumentUse],
) -> Result<(), NoMemory> {
    'uses: for u in uses {
        if count_down(counts, u.document) {
            next.push(u.document)?;
        }
    }
    Ok(())
}

/// A rank for each document. Where there is no cycle, each stands higher than those that it uses; that is tested afterwards, so no
/// clause says it.
pub fn ranks_of(alloc: Global, uses: &[Vec<DocumentUse>]) -> Result<Vec<usize>, NoMemory> {
    let mut counts = use_counts(alloc, uses)?;
    let mut next = unused(alloc, &counts)?;
    let mut ranks = Vec::new(alloc);
    'documents: for _ in 0..uses.len() {
        ranks.push(0)?;
    }
    let mut left = uses.len();
    'next: for _ in 0..uses.len() {
        let Some(document) = next.pop() else {
            return Ok(ranks);
        };
        left = left.saturating_sub(1);
        set_rank(&mut ranks, document, left);
        if let Some(row) = uses.get(document) {
            release(&mut counts, &mut next, row)?;
        }
    }
    Ok(ranks)
}

fn rank_of(ranks: &[usize], document: usize) -> usize
    ensures { result ≡ rank_by ranks.now document }
{
    match ranks.get(document) {
        Some(rank) => *rank,
        None => 0,
    }
}

/// Whether all documents that are used stand below a rank.
fn all_below(ranks: &[usize], uses: &[DocumentUse], rank: usize) -> bool
    ensures { IsTrue result → AllBelow ranks.now (map use_of uses.now) rank }
{
    'uses: for u in uses {
        if rank_of(ranks, u.document) >= rank {
            return false;
        }
    }
    true
}

/// Whether each document stands higher than those that it uses.
pub fn descend(ranks: &[usize], uses: &[Vec<DocumentUse>]) -> bool
    ensures { IsTrue result → Descend (uses_at uses.now) ranks.now }
{
    'documents: for at in 0..uses.len() {
        if !all_below(ranks, &uses[at], rank_of(ranks, at)) {
            return false;
        }
    }
    true
}
