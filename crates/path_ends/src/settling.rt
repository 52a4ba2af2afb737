//! Finding the ends of aliases, each after those that it leads through. What is found is tested afterwards, so no clause
//! speaks of it.

use crate::aliases::{Alias, AliasEnd, UnitAliases, UnitEnds, UnitIds, alias_at, id_seen};
use crate::ends::{PathEnd, SeenObject};
use crate::walking::{end_of_target, follow};
use program_tables::{Meaning, Names};
use qml_base::NoMemory;
use qml_text::Text;
use std::alloc::Global;

/// How far the search for the end of an alias came.
#[derive(Clone, Copy, PartialEq, Eq)]
enum Progress {
    Waiting,
    /// It waits for others.
    Open,
    Known,
}

/// An alias by its document and its row.
#[derive(Clone, Copy)]
struct AliasPlace {
    document: usize,
    row: usize,
}

/// The ends that were found.
#[derive(Drop)]
struct Search {
    known: Vec<UnitEnds>,
    progress: Vec<Vec<Progress>>,
    /// The rank of the next one.
    rank: usize,
}

/// The ends of all aliases.
pub(crate) fn settled(
    alloc: Global,
    names: &Names,
    ids: &[UnitIds],
    aliases: &[UnitAliases],
) -> Result<Vec<UnitEnds>, NoMemory> {
    let mut search = nothing_known(alloc, aliases)?;
    'units: for document in 0..aliases.len() {
        'rows: for row in 0..aliases[document].rows.len() {
            let place = AliasPlace { document, row };
            settle(alloc, names, ids, aliases, &mut search, place)?;
        }
    }
    Ok(search.known)
}

fn nothing_known(alloc: Global, aliases: &[UnitAliases]) -> Result<Search, NoMemory> {
    let mut known = Vec::new(alloc);
    let mut progress = Vec::new(alloc);
    'units: for unit in aliases {
        let mut ends = Vec::new(alloc);
        let mut waiting = Vec::new(alloc);
        'rows: for _row in unit.rows.as_slice() {
            ends.push(AliasEnd {
                end: PathEnd::Nothing,
                rank: 0,
            })?;
            waiting.push(Progress::Waiting)?;
        }
        known.push(UnitEnds { rows: ends })?;
        progress.push(waiting)?;
    }
    Ok(Search {
        known,
        progress,
        rank: 0,
    })
}

/// Finds the end of one alias, and of those that it leads through.
fn settle(
    alloc: Global,
    names: &Names,
    ids: &[UnitIds],
    aliases: &[UnitAliases],
    search: &mut Search,
    place: AliasPlace,
) -> Result<(), NoMemory> {
    let mut open = Vec::new(alloc);
    open.push(place)?;
    'open: for _ in 0..u64::MAX {
        let Some(next) = open.pop() else {
            return Ok(());
        };
        if let Some(alias) = alias_at(aliases, next.document, next.row) {
            visit(alloc, names, ids, alias, search, next, &mut open)?;
        }
    }
    Ok(())
}

/// Goes along the target of an alias. Where it leads to one that isn't known, that one comes first; where that one is open, they
/// are in a circle.
fn visit(
    alloc: Global,
    names: &Names,
    ids: &[UnitIds],
    alias: &Alias,
    search: &mut Search,
    place: AliasPlace,
    open: &mut Vec<AliasPlace>,
) -> Result<(), NoMemory> {
    if progress_at(&search.progress, place) == Progress::Known {
        return Ok(());
    }
    set_progress(&mut search.progress, place, Progress::Open);
    match awaited(alloc, names, ids, search, place.document, alias)? {
        None => {
            let end = end_of_target(alloc, names, ids, &search.known, place.document, alias)?;
            set_end(search, place, end);
            Ok(())
        }
        Some(other) => {
            open.push(place)?;
            if progress_at(&search.progress, other) == Progress::Open {
                set_end(search, other, PathEnd::Circle);
                Ok(())
            } else {
                open.push(other)?;
                Ok(())
            }
        }
    }
}

/// The first alias along a target whose end isn't known.
fn awaited(
    alloc: Global,
    names: &Names,
    ids: &[UnitIds],
    search: &Search,
    document: usize,
    alias: &Alias,
) -> Result<Option<AliasPlace>, NoMemory> {
    let Some(object) = id_seen(ids, document, alias.object, &alias.first) else {
        return Ok(None);
    };
    let mut end = PathEnd::Object(SeenObject {
        holder: None,
        document,
        object,
    });
    'names: for name in alias.rest.as_slice() {
        if let Some(place) = alias_met(names, &end, name)? {
            if progress_at(&search.progress, place) != Progress::Known {
                return Ok(Some(place));
            }
        }
        let next = follow(alloc, names, &search.known, &end, name)?;
        end = next;
    }
    Ok(None)
}

/// The alias that a name is of the object where a path ends so far.
fn alias_met(names: &Names, end: &PathEnd, name: &Text) -> Result<Option<AliasPlace>, NoMemory> {
    let PathEnd::Object(at) = end else {
        return Ok(None);
    };
    match names.meaning(at.document, at.object, name)? {
        Some(
            Meaning::Alias {
                document,
                object: _,
                row,
            },
        ) => Ok(Some(AliasPlace { document, row })),
        _ => Ok(None),
    }
}

/// What isn't there counts as known.
fn progress_at(progress: &[Vec<Progress>], place: AliasPlace) -> Progress {
    match progress.get(place.document) {
        Some(rows) => match rows.as_slice().get(place.row) {
            Some(progress) => *progress,
            None => Progress::Known,
        },
        None => Progress::Known,
    }
}

fn set_progress(progress: &mut [Vec<Progress>], place: AliasPlace, to: Progress) {
    if let Some(rows) = progress.get_mut(place.document) {
        if let Some(progress) = rows.get_mut(place.row) {
            *progress = to;
        }
    }
}

/// Keeps the end of an alias, with the next rank.
fn set_end(search: &mut Search, place: AliasPlace, end: PathEnd) {
    set_progress(&mut search.progress, place, Progress::Known);
    if let Some(unit) = search.known.get_mut(place.document) {
        if let Some(entry) = unit.rows.get_mut(place.row) {
            *entry = AliasEnd {
                end,
                rank: search.rank,
            };
        }
    }
    search.rank = search.rank.saturating_add(1);
}
