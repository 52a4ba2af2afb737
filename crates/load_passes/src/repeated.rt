//! Names that are used twice: ids in a component, declared names of an object, ids of an object, roles of a row.

ghost use Rattle.std.specs.Prelude.{◌≡◌, not, ◌||◌, [], OnOk};
ghost use Rattle.load_faults.specs.Faults.{first_from, fault_if};
ghost use Rattle.load_passes.specs.Rows.{repeated};

use crate::best::Best;
use indexmap::IndexSet;
use program_names::Fault;
use qml_base::{LoadCause, NoMemory, Place};
use qml_text::Text;
use std::alloc::Global;

/// A name where it is written, and the number of what it belongs to: a component, an object or a row.
#[derive(Debug, Drop)]
pub struct NameRow {
    pub name: Text,
    pub owner: usize,
    pub at: Place,
    /// Whether it is taken already before these rows, as a name that an object has by its type.
    pub taken: bool,
}

/// Tells, with this cause, each name that is taken or that stands a second time for its owner among these rows, in their
/// order. A set finds a name in constant time on average.
pub fn tell_repeated(
    alloc: Global,
    rows: &[NameRow],
    cause: LoadCause,
    best: &mut Best,
) -> Result<(), NoMemory>
    ensures { OnOk result (best.new.fault ≡ first_from best.old.fault (repeated cause [] rows.now)) }
{
    let mut seen: IndexSet<(Vec<u16>, usize)> = IndexSet::new(alloc);
    'rows: for row in rows {
        let units = match Vec::from_slice(alloc, row.name.units()) {
            Ok(units) => units,
            Err(_) => return Err(NoMemory),
        };
        let (_place, fresh) = match seen.insert_full((units, row.owner)) {
            Ok(added) => added,
            Err(_) => return Err(NoMemory),
        };
        tell_again(fresh, row.taken, row.at, cause, best);
    }
    Ok(())
}

fn tell_again(fresh: bool, taken: bool, at: Place, cause: LoadCause, best: &mut Best)
    ensures { best.new.fault ≡ first_from best.old.fault (fault_if (not fresh || taken) at cause) }
{
    if !fresh || taken {
        best.tell(Fault { at, cause });
    }
}
