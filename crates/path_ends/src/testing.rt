//! Whether what is known of the ends of aliases is right.

ghost use Rattle.std.specs.Prelude.{◌≡◌, IsTrue, IfOk};
ghost use Rattle.std.specs.Option.{option_map};
ghost use Rattle.program_names.specs.PathMeanings.{at_cell, at_object, at_nothing, in_circle};
ghost use Rattle.program_tables.specs.Stands.{is_there as is_there_in};
ghost use Rattle.path_ends.specs.Said.{way_of, seen_of, end_of, known_end, id_seen as id_seen_in};
ghost use Rattle.path_ends.specs.Ends as s;
ghost use Rattle.path_ends.specs.Known as k;

use crate::aliases::{Alias, UnitAliases, UnitEnds, UnitIds, id_seen, known_at, rank_at};
use crate::ends::{Hop, PathEnd, SeenObject, Way};
use crate::walking::{end_of_target, follow};
use program_tables::{Meaning, Names};
use qml_base::NoMemory;
use qml_text::Text;
use qml_types::{Access, PropKind};
use std::alloc::Global;

// ---- the same end

fn same_hop(a: Hop, b: Hop) -> bool
    ensures { IsTrue result → a ≡ b }
{
    if a.0 != b.0 {
        return false;
    }
    a.1 == b.1
}

#[tactic(auto, using(crate::proofs::TestLemmas::hop_more))]
fn same_hops(a: &[Hop], b: &[Hop]) -> bool
    ensures { IsTrue result → a.now ≡ b.now }
{
    if a.len() != b.len() {
        return false;
    }
    'hops: for at in 0..a.len() {
        if !same_hop(a[at], b[at]) {
            return false;
        }
    }
    true
}

#[tactic(auto, using(crate::proofs::TestLemmas::same_ways))]
fn same_way(a: &Way, b: &Way) -> bool
    ensures { IsTrue result → way_of a.now ≡ way_of b.now }
{
    if a.base != b.base {
        return false;
    }
    same_hops(&a.hops, &b.hops)
}

fn same_holder(a: &Option<Way>, b: &Option<Way>) -> bool
    ensures { IsTrue result → option_map way_of a.now ≡ option_map way_of b.now }
{
    match a {
        Some(a) => match b {
            Some(b) => same_way(a, b),
            None => false,
        },
        None => b.is_none(),
    }
}

#[tactic(auto, using(crate::proofs::TestLemmas::same_objects))]
fn same_object(a: &SeenObject, b: &SeenObject) -> bool
    ensures { IsTrue result → seen_of a.now ≡ seen_of b.now }
{
    if a.document != b.document {
        return false;
    }
    if a.object != b.object {
        return false;
    }
    same_holder(&a.holder, &b.holder)
}

fn same_kind(a: PropKind, b: PropKind) -> bool
    ensures { IsTrue result → a ≡ b }
{
    a == b
}

fn same_access(a: Access, b: Access) -> bool
    ensures { IsTrue result → a ≡ b }
{
    a == b
}

#[tactic(auto, using(crate::proofs::TestLemmas::same_cells))]
fn is_cell(end: &PathEnd, way: &Way, place: usize, kind: PropKind, access: Access) -> bool
    ensures { IsTrue result → end_of end.now ≡ at_cell (way_of way.now) place kind access }
{
    match end {
        PathEnd::Cell {
            way: own_way,
            place: own_place,
            kind: own_kind,
            access: own_access,
        } => {
            if *own_place != place {
                return false;
            }
            if !same_kind(*own_kind, kind) {
                return false;
            }
            if !same_access(*own_access, access) {
                return false;
            }
            same_way(own_way, way)
        }
        _ => false,
    }
}

#[tactic(auto, using(crate::proofs::TestLemmas::same_ends))]
fn is_object(end: &PathEnd, seen: &SeenObject) -> bool
    ensures { IsTrue result → end_of end.now ≡ at_object (seen_of seen.now) }
{
    match end {
        PathEnd::Object(own) => same_object(own, seen),
        _ => false,
    }
}

fn is_nothing(end: &PathEnd) -> bool
    ensures { IsTrue result → end_of end.now ≡ at_nothing }
{
    match end {
        PathEnd::Nothing => true,
        _ => false,
    }
}

fn is_circle(end: &PathEnd) -> bool
    ensures { result ≡ k.is_circle (end_of end.now) }
{
    match end {
        PathEnd::Circle => true,
        _ => false,
    }
}

fn same_circle(end: &PathEnd) -> bool
    ensures { IsTrue result → end_of end.now ≡ in_circle }
{
    match end {
        PathEnd::Circle => true,
        _ => false,
    }
}

fn same_end(a: &PathEnd, b: &PathEnd) -> bool
    ensures { IsTrue result → end_of a.now ≡ end_of b.now }
{
    match b {
        PathEnd::Cell {
            way,
            place,
            kind,
            access,
        } => is_cell(a, way, *place, *kind, *access),
        PathEnd::Object(seen) => is_object(a, seen),
        PathEnd::Nothing => is_nothing(a),
        PathEnd::Circle => same_circle(a),
    }
}

fn is_known(known: &[UnitEnds], document: usize, row: usize, end: &PathEnd) -> bool
    ensures { IsTrue result → known_end known.now document row ≡ end_of end.now }
{
    match known_at(known, document, row) {
        Some(entry) => same_end(&entry.end, end),
        None => false,
    }
}

// ---- an end in its document

fn fits(document: usize, end: &PathEnd) -> bool
    ensures { IsTrue result → k.Fits document (end_of end.now) }
{
    match end {
        PathEnd::Object(seen) => seen.holder.is_some() || seen.document == document,
        _ => true,
    }
}

fn is_there(names: &Names, end: &PathEnd) -> bool
    ensures { IsTrue result → k.IsThere names.now.units.items (end_of end.now) }
{
    match end {
        PathEnd::Object(seen) => has_object(names, seen.document, seen.object),
        _ => true,
    }
}

fn has_object(names: &Names, document: usize, object: usize) -> bool
    ensures { result ≡ is_there_in names.now.units.items document object }
{
    match names.units.as_slice().get(document) {
        Some(unit) => object < unit.objects.len(),
        None => false,
    }
}

// ---- lower ranks

fn is_lower(known: &[UnitEnds], limit: usize, found: Option<Meaning>) -> bool
    ensures { result ≡ s.is_lower known.now limit found }
{
    match found {
        Some(
            Meaning::Alias {
                document,
                object: _,
                row,
            },
        ) => rank_at(known, document, row) < limit,
        _ => true,
    }
}

fn one_falls(
    names: &Names,
    known: &[UnitEnds],
    limit: usize,
    end: &PathEnd,
    name: &Text,
) -> Result<bool, NoMemory>
    ensures { IfOk result (λ b.
        b ≡ s.one_falls names.now.units.items known.now limit (end_of end.now) name.now) }
{
    match end {
        PathEnd::Object(at) => {
            let found = names.meaning(at.document, at.object, name)?;
            let lower = is_lower(known, limit, found);
            Ok(lower)
        }
        _ => Ok(true),
    }
}

#[tactic(auto, using(crate::proofs::PathLemmas::falls_on, crate::proofs::PathLemmas::stays_high))]
fn falls(
    alloc: Global,
    names: &Names,
    known: &[UnitEnds],
    limit: usize,
    start: PathEnd,
    path: &[Text],
) -> Result<bool, NoMemory>
    ensures { IfOk result (λ b.
        b ≡ s.falls names.now.units.items known.now limit (end_of start) path.now) }
{
    let mut end = start;
    'names: for name in path {
        if !one_falls(names, known, limit, &end, name)? {
            return Ok(false);
        }
        let next = follow(alloc, names, known, &end, name)?;
        end = next;
    }
    Ok(true)
}

fn target_falls(
    alloc: Global,
    names: &Names,
    ids: &[UnitIds],
    known: &[UnitEnds],
    limit: usize,
    document: usize,
    alias: &Alias,
) -> Result<bool, NoMemory>
    ensures { IfOk result (λ b. b ≡ s.falls_from names.now.units.items known.now limit document
        (id_seen_in ids.now document alias.now.object alias.now.first) alias.now.rest.items) }
{
    match id_seen(ids, document, alias.object, &alias.first) {
        Some(object) => {
            let start = PathEnd::Object(SeenObject {
                holder: None,
                document,
                object,
            });
            let lower = falls(alloc, names, known, limit, start, &alias.rest)?;
            Ok(lower)
        }
        None => Ok(true),
    }
}

// ---- all aliases

/// Whether what is known of an alias is right.
#[tactic(auto, using(crate::proofs::TestLemmas::knows_circle, crate::proofs::TestLemmas::knows_lower))]
fn alias_holds(
    alloc: Global,
    names: &Names,
    ids: &[UnitIds],
    known: &[UnitEnds],
    limit: usize,
    document: usize,
    row: usize,
    alias: &Alias,
) -> Result<bool, NoMemory>
    ensures { IfOk result (λ b. IsTrue b →
        k.KnowsAlias names.now.units.items ids.now known.now limit document row alias.now) }
{
    let end = end_of_target(alloc, names, ids, known, document, alias)?;
    if !is_known(known, document, row, &end) {
        return Ok(false);
    }
    if !fits(document, &end) {
        return Ok(false);
    }
    if !is_there(names, &end) {
        return Ok(false);
    }
    let rank = rank_at(known, document, row);
    if rank >= limit {
        return Ok(false);
    }
    if alias.rest.len() > 3 {
        return Ok(false);
    }
    if is_circle(&end) {
        return Ok(true);
    }
    let lower = target_falls(alloc, names, ids, known, rank, document, alias)?;
    Ok(lower)
}

fn row_holds(
    alloc: Global,
    names: &Names,
    ids: &[UnitIds],
    known: &[UnitEnds],
    limit: usize,
    document: usize,
    row: usize,
    alias: &Option<Alias>,
) -> Result<bool, NoMemory>
    ensures { IfOk result (λ b. IsTrue b →
        k.KnowsRow names.now.units.items ids.now known.now limit document row alias.now) }
{
    match alias {
        Some(alias) => {
            let holds = alias_holds(alloc, names, ids, known, limit, document, row, alias)?;
            Ok(holds)
        }
        None => Ok(true),
    }
}

#[tactic(auto, using(crate::proofs::TestLemmas::one_more_row))]
fn rows_hold(
    alloc: Global,
    names: &Names,
    ids: &[UnitIds],
    known: &[UnitEnds],
    limit: usize,
    document: usize,
    rows: &[Option<Alias>],
) -> Result<bool, NoMemory>
    ensures { IfOk result (λ b. IsTrue b →
        k.KnowsRows names.now.units.items ids.now known.now limit document 0 rows.now) }
{
    'rows: for (row, alias) in rows.iter().enumerate() {
        if !row_holds(alloc, names, ids, known, limit, document, row, alias)? {
            return Ok(false);
        }
    }
    Ok(true)
}

/// Whether what is known is right: each end is that of the alias's target by the ends of the others, and where it isn't a
/// circle, those along the target have lower ranks.
#[tactic(auto, using(crate::proofs::TestLemmas::one_more_unit))]
pub(crate) fn all_hold(
    alloc: Global,
    names: &Names,
    ids: &[UnitIds],
    known: &[UnitEnds],
    limit: usize,
    aliases: &[UnitAliases],
) -> Result<bool, NoMemory>
    ensures { IfOk result (λ b. IsTrue b →
        k.KnowsUnits names.now.units.items ids.now known.now limit 0 aliases.now) }
{
    'units: for (document, unit) in aliases.iter().enumerate() {
        if !rows_hold(alloc, names, ids, known, limit, document, &unit.rows)? {
            return Ok(false);
        }
    }
    Ok(true)
}
