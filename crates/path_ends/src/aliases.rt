//! What is kept of aliases and ids.

ghost use Rattle.std.specs.Prelude.{◌≡◌, [], ◌∷◌, Some, map, option_copied, IfOk};
ghost use Rattle.path_ends.specs.Said as s;

use crate::ends::PathEnd;
use alias_tables::{object_of_id, root_at};
use document_members::{Member, NamePath};
use name_table::NameTable;
use program_tables::{UnitRow, is_group, is_inside};
use qml_base::{NoMemory, Place};
use qml_text::Text;
use std::alloc::Global;

/// An alias: the number of its object, and the names of its target, with the place of the first.
#[derive(Drop)]
pub struct Alias {
    pub object: usize,
    pub at: Place,
    pub first: Text,
    pub rest: Vec<Text>,
}

/// The aliases of a document by its rows of members; what stands in a group declares none.
#[derive(Drop)]
pub struct UnitAliases {
    pub rows: Vec<Option<Alias>>,
}

/// The end of an alias, as its document sees it, and how late it was found.
#[derive(Drop)]
pub struct AliasEnd {
    pub end: PathEnd,
    pub rank: usize,
}

/// What is known of a document's rows of members.
#[derive(Drop)]
pub struct UnitEnds {
    pub rows: Vec<AliasEnd>,
}

/// Of each object of a document the root of its component, and under each root the ids of the component.
#[derive(Drop)]
pub struct UnitIds {
    pub roots: Vec<usize>,
    pub ids: Vec<NameTable<usize>>,
}

/// The alias of a row of a document.
pub(crate) fn alias_at(units: &[UnitAliases], document: usize, row: usize) -> Option<&Alias>
    ensures { option_copied result ≡ s.alias_in units.now document row }
{
    match units.get(document) {
        Some(unit) => match unit.rows.as_slice().get(row) {
            Some(alias) => alias.as_ref(),
            None => None,
        },
        None => None,
    }
}

/// What is known of a row of a document.
pub fn known_at(units: &[UnitEnds], document: usize, row: usize) -> Option<&AliasEnd>
    ensures { option_copied result ≡ s.end_in units.now document row }
{
    match units.get(document) {
        Some(unit) => unit.rows.as_slice().get(row),
        None => None,
    }
}

/// The rank of an alias.
pub(crate) fn rank_at(units: &[UnitEnds], document: usize, row: usize) -> usize
    ensures { result ≡ s.rank_in units.now document row }
{
    match known_at(units, document, row) {
        Some(known) => known.rank,
        None => 0,
    }
}

/// The object of an id in the component of an object.
pub(crate) fn id_seen(
    units: &[UnitIds],
    document: usize,
    object: usize,
    name: &Text,
) -> Option<usize>
    ensures { result ≡ s.id_seen units.now document object name.now }
{
    match units.get(document) {
        Some(unit) => object_of_id(&unit.ids, root_at(&unit.roots, object), name),
        None => None,
    }
}

/// The aliases of a document, where these are its rows.
#[tactic(auto, using(crate::proofs::RowLemmas::rows_go_on))]
pub fn unit_aliases(alloc: Global, rows: &[UnitRow]) -> Result<UnitAliases, NoMemory>
    ensures { IfOk result (λ unit. map s.said unit.rows.items ≡ s.aliases_told [] rows.now) }
{
    let mut aliases = Vec::new(alloc);
    let mut grouping = Vec::new(alloc);
    'rows: for row in rows {
        let inside = is_inside(&grouping, row.row.group);
        grouping.push(inside || is_group(&row.member))?;
        let alias = alias_of_row(alloc, inside, row)?;
        aliases.push(alias)?;
    }
    Ok(UnitAliases { rows: aliases })
}

/// The alias that a row declares, where it isn't in a group.
fn alias_of_row(alloc: Global, inside: bool, row: &UnitRow) -> Result<Option<Alias>, NoMemory>
    ensures { IfOk result (λ alias. s.said alias ≡ s.told_by inside row.now) }
{
    if inside {
        return Ok(None);
    }
    match &row.member {
        Member::Alias {
            at: _,
            default: _,
            name: _,
            name_at: _,
            target,
        } => {
            let alias = alias_to(alloc, row.row.object, target)?;
            Ok(Some(alias))
        }
        _ => Ok(None),
    }
}

fn alias_to(alloc: Global, object: usize, target: &NamePath) -> Result<Alias, NoMemory>
    ensures { IfOk result (λ a. s.said (Some a) ≡ Some (s.told object target.now)) }
{
    let Ok(first) = target.first.copy(alloc) else {
        return Err(NoMemory);
    };
    let rest = copy_names(alloc, &target.rest)?;
    Ok(Alias {
        object,
        at: target.at,
        first,
        rest,
    })
}

fn copy_names(alloc: Global, names: &[Text]) -> Result<Vec<Text>, NoMemory>
    ensures { IfOk result (λ copies. copies.items ≡ names.now) }
{
    let mut copies = Vec::new(alloc);
    'names: for name in names {
        let Ok(copy) = name.copy(alloc) else {
            return Err(NoMemory);
        };
        copies.push(copy)?;
    }
    Ok(copies)
}

/// How many aliases there are.
#[tactic(auto, using(crate::proofs::RowLemmas::counts_unit))]
pub(crate) fn count_of(units: &[UnitAliases]) -> Result<usize, NoMemory>
    ensures { IfOk result (λ n. n ≡ s.count_of units.now) }
{
    let mut count: usize = 0;
    'units: for unit in units {
        let own = count_in(&unit.rows)?;
        let Some(more) = count.checked_add(own) else {
            return Err(NoMemory);
        };
        count = more;
    }
    Ok(count)
}

#[tactic(auto, using(crate::proofs::RowLemmas::counts_row))]
fn count_in(rows: &[Option<Alias>]) -> Result<usize, NoMemory>
    ensures { IfOk result (λ n. n ≡ s.count_in rows.now) }
{
    let mut count: usize = 0;
    'rows: for alias in rows {
        let Some(more) = count.checked_add(one_or_none(alias)) else {
            return Err(NoMemory);
        };
        count = more;
    }
    Ok(count)
}

fn one_or_none(alias: &Option<Alias>) -> usize
    ensures { result ≡ s.count_in (alias.now ∷ []) }
{
    match alias {
        Some(_) => 1,
        None => 0,
    }
}
