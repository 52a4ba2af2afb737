//! The targets of a document's objects.

ghost use Rattle.std.specs.Prelude.{◌≡◌, IfOk};
ghost use Rattle.target_tables.specs.Seen as s;

use crate::firsts::GivenValue;
use crate::names::named_by_value;
use change_targets::UnitTargets;
use path_ends::UnitIds;
use program_tables::Names;
use qml_base::NoMemory;
use qml_syntax::Tree;
use std::alloc::Global;

/// The object that an object names as its target, where it gives this for `target`.
fn target_by(
    names: &Names,
    ids: &UnitIds,
    owners: &[Option<usize>],
    document: usize,
    tree: &Tree,
    object: usize,
    given: Option<GivenValue>,
) -> Result<Option<usize>, NoMemory>
    ensures { IfOk result (λ o. o ≡ s.target_by names.now.units.items ids.now owners.now document tree.now object given) }
{
    match given {
        Some(given) => {
            let found = named_by_value(names, ids, owners, document, object, tree, given.node)?;
            Ok(found)
        }
        None => Ok(None),
    }
}

/// Of each object of a document the object that it names as its target, where these are what the objects give first for `target`: that of
/// an id, as `target_seen` finds it. The tree is that of the document, and `owners` says in which object each is written.
#[tactic(auto, using(crate::proofs::TargetLemmas::goes_on, crate::proofs::TargetLemmas::none_left))]
pub fn unit_targets(
    alloc: Global,
    names: &Names,
    ids: &UnitIds,
    owners: &[Option<usize>],
    document: usize,
    tree: &Tree,
    firsts: &[Option<GivenValue>],
) -> Result<UnitTargets, NoMemory>
    ensures { IfOk result (λ unit. unit.objects.items ≡
        s.targets_from names.now.units.items ids.now owners.now document tree.now 0 firsts.now) }
{
    let mut objects = Vec::new(alloc);
    'objects: for (object, given) in firsts.iter().enumerate() {
        let target = target_by(names, ids, owners, document, tree, object, *given)?;
        objects.push(target)?;
    }
    Ok(UnitTargets { objects })
}
