//! Which members stand in groups.

ghost use Rattle.std.specs.Option.{unwrap_or};
ghost use Rattle.std.specs.Prelude.{◌≡◌, [], ◌||◌, IfOk, slice_get, false};
ghost use Rattle.document_tables.specs.Groups.{insides as insides_of};

use program_tables::{UnitRow, is_group, is_inside};
use qml_base::NoMemory;
use std::alloc::Global;

/// Of each row whether it stands in a group.
#[tactic(auto, using(crate::proofs::GroupLemmas::insides_go_on))]
pub(crate) fn insides(alloc: Global, rows: &[UnitRow]) -> Result<Vec<bool>, NoMemory>
    ensures { IfOk result (λ insides. insides.items ≡ insides_of [] rows.now) }
{
    let mut grouping = Vec::new(alloc);
    let mut insides = Vec::new(alloc);
    'rows: for row in rows {
        let inside = is_inside(&grouping, row.row.group);
        grouping.push(inside || is_group(&row.member))?;
        insides.push(inside)?;
    }
    Ok(insides)
}

/// Whether the row of a number stands in a group; one that isn't there doesn't.
pub fn in_group(inside: &[bool], number: usize) -> bool
    ensures { result ≡ unwrap_or (slice_get inside.now number) false }
{
    match inside.get(number) {
        Some(inside) => *inside,
        None => false,
    }
}
