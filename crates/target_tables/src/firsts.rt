//! What each object of a document gives first for `target`.

ghost use Rattle.std.specs.Prelude.{◌≡◌, [], map, codes, Some, IfOk};
ghost use Rattle.std.specs.Option.{option_or};
ghost use Rattle.std.specs.Str.{bytes_eq};
ghost use Rattle.target_tables.specs.Firsts as s;

use document_members::{Member, NamePath};
use program_tables::{UnitRow, is_group, is_inside};
use qml_base::NoMemory;
use qml_text::Text;
use std::alloc::Global;

/// A value that is given: the place of its node, and the number of the first object in it.
#[derive(Clone, Copy, Debug)]
pub struct GivenValue {
    pub first: usize,
    pub node: usize,
}

/// `target`.
const TARGET: [u16; 6] = [116, 97, 114, 103, 101, 116];

fn is_target(name: &Text) -> bool
    ensures { result ≡ bytes_eq name.now (codes "target") }
{
    name.units() == TARGET.as_slice()
}

/// Whether a path is `target` alone.
fn names_target(path: &NamePath) -> bool
    ensures { result ≡ s.names_target path.now.first path.now.rest.items }
{
    path.rest.is_empty() && is_target(&path.first)
}

/// What a row gives for `target`, where it isn't in a group.
fn target_given(inside: bool, row: &UnitRow) -> Option<GivenValue>
    ensures { result ≡ s.target_given inside row.now row.now.member }
{
    if inside {
        return None;
    }
    match &row.member {
        Member::Given { path, value } => {
            if names_target(path) {
                return Some(GivenValue {
                    first: row.row.first,
                    node: *value,
                });
            }
            None
        }
        _ => None,
    }
}

/// What was given before, else this.
fn or_given(before: Option<GivenValue>, given: GivenValue) -> Option<GivenValue>
    ensures { result ≡ option_or before (Some given) }
{
    match before {
        Some(before) => Some(before),
        None => Some(given),
    }
}

/// Puts what an object gives, unless it gave something before.
#[tactic(auto, using(crate::proofs::FirstLemmas::put_here, crate::proofs::FirstLemmas::put_nowhere))]
fn put_first(all: &mut Vec<Option<GivenValue>>, object: usize, given: GivenValue)
    ensures { all.new.items ≡ s.first_put all.old.items object given }
{
    if object < all.len() {
        all[object] = or_given(all[object], given);
    }
}

/// Adds what a row gives.
fn add_row(inside: bool, row: &UnitRow, all: &mut Vec<Option<GivenValue>>)
    ensures { all.new.items ≡ s.first_added inside row.now all.old.items }
{
    match target_given(inside, row) {
        Some(given) => put_first(all, row.row.object, given),
        None => {}
    }
}

/// For each object nothing.
#[tactic(auto, using(crate::proofs::FirstLemmas::one_more))]
fn none_given(alloc: Global, owners: &[Option<usize>]) -> Result<Vec<Option<GivenValue>>, NoMemory>
    ensures { IfOk result (λ all. all.items ≡ map s.none_given owners.now) }
{
    let mut all = Vec::new(alloc);
    'objects: for _owner in owners {
        all.push(None)?;
    }
    Ok(all)
}

/// What each object of a document gives first for `target`, outside groups, by the rows of its members; `owners` has one entry for each
/// object (Qt 5.15, "PropertyChanges QML Type").
#[tactic(auto, using(crate::proofs::FirstLemmas::rows_go_on))]
pub fn first_targets(
    alloc: Global,
    owners: &[Option<usize>],
    rows: &[UnitRow],
) -> Result<Vec<Option<GivenValue>>, NoMemory>
    ensures { IfOk result (λ all. all.items ≡ s.firsts_added [] rows.now (map s.none_given owners.now)) }
{
    let mut all = none_given(alloc, owners)?;
    let mut grouping = Vec::new(alloc);
    'rows: for row in rows {
        let inside = is_inside(&grouping, row.row.group);
        grouping.push(inside || is_group(&row.member))?;
        add_row(inside, row, &mut all);
    }
    Ok(all)
}
