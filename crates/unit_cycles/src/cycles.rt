//! The first use by which a document uses itself.

ghost use Rattle.std.specs.Prelude.{◌≡◌, length, map, IfOk};
ghost use Rattle.unit_cycles.specs.Uses.{uses_at, use_of, cycle_in, first_by, first_in};

use crate::ranks::{descend, ranks_of};
use crate::reaching::reaches;
use crate::uses::DocumentUse;
use program_names::Fault;
use qml_base::{LoadCause, NoMemory};
use std::alloc::Global;

/// The first of these uses from which the document is reached.
fn first_use(
    alloc: Global,
    uses: &[Vec<DocumentUse>],
    document: usize,
    own: &[DocumentUse],
) -> Result<Option<Fault>, NoMemory>
    ensures { IfOk result (λ f. f ≡ first_by (uses_at uses.now) (length uses.now) document (map use_of own.now)) }
{
    'uses: for u in own {
        if reaches(alloc, uses, document, u.document)? {
            return Ok(Some(Fault {
                at: u.at,
                cause: LoadCause::UnitCycle,
            }));
        }
    }
    Ok(None)
}

/// UnitCycle at the first use of a document by which it uses itself, through others too.
pub fn unit_cycle(
    alloc: Global,
    uses: &[Vec<DocumentUse>],
    document: usize,
) -> Result<Option<Fault>, NoMemory>
    ensures { IfOk result (λ f. f ≡ cycle_in (uses_at uses.now) (length uses.now) document) }
{
    match uses.get(document) {
        Some(own) => first_use(alloc, uses, document, own.as_slice()),
        None => Ok(None),
    }
}

/// The first of these documents that uses itself, with its fault.
fn first_of_order(
    alloc: Global,
    uses: &[Vec<DocumentUse>],
    order: &[usize],
) -> Result<Option<(usize, Fault)>, NoMemory>
    ensures { IfOk result (λ f. f ≡ first_in (cycle_in (uses_at uses.now) (length uses.now)) order.now) }
{
    'documents: for document in order {
        if let Some(fault) = unit_cycle(alloc, uses, *document)? {
            return Ok(Some((*document, fault)));
        }
    }
    Ok(None)
}

/// The first of these documents, in their order, that uses itself, with the fault. Where no document uses itself, the time goes by
/// the number of the uses; else by that of the uses up to that document, times all uses. Want of memory is the one other answer.
pub fn first_cycle(
    alloc: Global,
    uses: &[Vec<DocumentUse>],
    order: &[usize],
) -> Result<Option<(usize, Fault)>, NoMemory>
    ensures { IfOk result (λ f. f ≡ first_in (cycle_in (uses_at uses.now) (length uses.now)) order.now) }
{
    let ranks = ranks_of(alloc, uses)?;
    if descend(&ranks, uses) {
        return Ok(None);
    }
    first_of_order(alloc, uses, order)
}
