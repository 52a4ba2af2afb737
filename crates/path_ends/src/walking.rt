//! Going along a path.

ghost use Rattle.std.specs.Prelude.{◌≡◌, IfOk};
ghost use Rattle.program_names.specs.PathMeanings.{at_cell, holder_in, way_to as way_to_object};
ghost use Rattle.path_ends.specs.Said.{seen_of, end_of, target_of, known_end};
ghost use Rattle.path_ends.specs.Ends as s;

use crate::aliases::{Alias, UnitEnds, UnitIds, id_seen, known_at};
use crate::ends::{PathEnd, SeenObject};
use crate::ways::{end_through, holder_in, way_to};
use program_tables::{BuiltInName, Meaning, Names};
use qml_base::NoMemory;
use qml_text::Text;
use qml_types::{Access, PropKind};
use std::alloc::Global;

fn end_at_cell(
    alloc: Global,
    at: &SeenObject,
    place: usize,
    kind: PropKind,
    access: Access,
) -> Result<PathEnd, NoMemory>
    ensures { IfOk result (λ x. end_of x ≡ at_cell (way_to_object (seen_of at.now)) place kind access) }
{
    let way = way_to(alloc, at)?;
    Ok(PathEnd::Cell {
        way,
        place,
        kind,
        access,
    })
}

/// The end of an alias, seen from the object whose document or type declares it.
fn end_at_alias(
    alloc: Global,
    known: &[UnitEnds],
    at: &SeenObject,
    document: usize,
    row: usize,
) -> Result<PathEnd, NoMemory>
    ensures { IfOk result (λ x. end_of x ≡
        s.end_through (holder_in (seen_of at.now) document) document (known_end known.now document row)) }
{
    match known_at(known, document, row) {
        Some(entry) => {
            let holder = holder_in(alloc, at, document)?;
            let end = end_through(alloc, &holder, document, &entry.end)?;
            Ok(end)
        }
        None => Ok(PathEnd::Nothing),
    }
}

fn end_by(
    alloc: Global,
    known: &[UnitEnds],
    at: &SeenObject,
    found: Option<Meaning>,
) -> Result<PathEnd, NoMemory>
    ensures { IfOk result (λ x. end_of x ≡ s.end_by known.now (seen_of at.now) found) }
{
    match found {
        Some(
            Meaning::Cell {
                place,
                kind,
                access,
            },
        ) => end_at_cell(alloc, at, place, kind, access),
        Some(
            Meaning::Alias {
                document,
                object: _,
                row,
            },
        ) => end_at_alias(alloc, known, at, document, row),
        Some(Meaning::BuiltIn(name)) => end_at_built_in(alloc, at, name),
        Some(Meaning::Changed) => Ok(PathEnd::Nothing),
        Some(
            Meaning::Signal {
                document: _,
                row: _,
            },
        ) => Ok(PathEnd::Nothing),
        Some(
            Meaning::Function {
                document: _,
                object: _,
                row: _,
            },
        ) => Ok(PathEnd::Nothing),
        None => Ok(PathEnd::Nothing),
    }
}

fn end_at_built_in(alloc: Global, at: &SeenObject, name: BuiltInName) -> Result<PathEnd, NoMemory>
    ensures { IfOk result (λ x. end_of x ≡ s.end_built_in (seen_of at.now) name) }
{
    match name {
        BuiltInName::Cell {
            place,
            kind,
            access,
        } => end_at_cell(alloc, at, place as usize, kind, access),
        BuiltInName::Changed => Ok(PathEnd::Nothing),
        BuiltInName::Signal {
            type_no: _,
            index: _,
        } => Ok(PathEnd::Nothing),
        BuiltInName::Method => Ok(PathEnd::Nothing),
        BuiltInName::Children => Ok(PathEnd::Nothing),
    }
}

/// One name on from an object.
fn from_object(
    alloc: Global,
    names: &Names,
    known: &[UnitEnds],
    at: &SeenObject,
    name: &Text,
) -> Result<PathEnd, NoMemory>
    ensures { IfOk result (λ x.
        end_of x ≡ s.end_by known.now (seen_of at.now) (s.found names.now.units.items (seen_of at.now) name.now)) }
{
    let found = names.meaning(at.document, at.object, name)?;
    let end = end_by(alloc, known, at, found)?;
    Ok(end)
}

/// One name on from an end.
pub(crate) fn follow(
    alloc: Global,
    names: &Names,
    known: &[UnitEnds],
    end: &PathEnd,
    name: &Text,
) -> Result<PathEnd, NoMemory>
    ensures { IfOk result (λ x.
        end_of x ≡ s.followed names.now.units.items known.now (end_of end.now) name.now) }
{
    match end {
        PathEnd::Object(at) => from_object(alloc, names, known, at, name),
        PathEnd::Cell {
            way: _,
            place: _,
            kind: _,
            access: _,
        } => Ok(PathEnd::Nothing),
        PathEnd::Nothing => Ok(PathEnd::Nothing),
        PathEnd::Circle => Ok(PathEnd::Circle),
    }
}

/// Where a path ends that goes on from an end, by what is known of the ends of aliases. It takes time by the names of the path,
/// and of each by the types of the object where it is looked for.
#[tactic(auto, using(crate::proofs::PathLemmas::goes_on))]
pub fn end_of_path(
    alloc: Global,
    names: &Names,
    known: &[UnitEnds],
    start: PathEnd,
    path: &[Text],
) -> Result<PathEnd, NoMemory>
    ensures { IfOk result (λ x.
        end_of x ≡ s.walked names.now.units.items known.now (end_of start) path.now) }
{
    let mut end = start;
    'names: for name in path {
        let next = follow(alloc, names, known, &end, name)?;
        end = next;
    }
    Ok(end)
}

/// Where the target of an alias ends, as the document sees it.
pub(crate) fn end_of_target(
    alloc: Global,
    names: &Names,
    ids: &[UnitIds],
    known: &[UnitEnds],
    document: usize,
    alias: &Alias,
) -> Result<PathEnd, NoMemory>
    ensures { IfOk result (λ x. end_of x ≡
        s.target_end names.now.units.items ids.now known.now document alias.now.object (target_of alias.now)) }
{
    match id_seen(ids, document, alias.object, &alias.first) {
        Some(object) => {
            let start = PathEnd::Object(SeenObject {
                holder: None,
                document,
                object,
            });
            let end = end_of_path(alloc, names, known, start, &alias.rest)?;
            Ok(end)
        }
        None => Ok(PathEnd::Nothing),
    }
}
