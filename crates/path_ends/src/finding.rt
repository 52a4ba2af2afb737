//! The ends of all aliases of a program.

ghost use Rattle.std.specs.Prelude.{IfOk};
ghost use Rattle.path_ends.specs.Known.{KnowsAll};

use crate::aliases::{UnitAliases, UnitEnds, UnitIds, count_of};
use crate::settling::settled;
use crate::testing::all_hold;
use program_tables::Names;
use qml_base::NoMemory;
use std::alloc::Global;

/// The ends of all aliases of a program, each as its document sees it: the end of its target by the ends of those that this
/// leads through, or a circle. They are found in time by their number, each after those that it leads through, and then
/// tested once more; the clause stands on that test alone. Where it failed, the answer would be want of memory.
pub fn alias_ends(
    alloc: Global,
    names: &Names,
    ids: &[UnitIds],
    aliases: &[UnitAliases],
) -> Result<Vec<UnitEnds>, NoMemory>
    ensures { IfOk result (λ known. KnowsAll names.now.units.items ids.now aliases.now known.items) }
{
    let known = settled(alloc, names, ids, aliases)?;
    let limit = count_of(aliases)?;
    let holds = all_hold(alloc, names, ids, &known, limit, aliases)?;
    if holds { Ok(known) } else { Err(NoMemory) }
}
