//! What PropertyChanges name as their targets.

ghost use Rattle.std.specs.Prelude.{◌≡◌, OnOk, IfOk};
ghost use Rattle.std.specs.Option.{is_none};
ghost use Rattle.qml_base.specs.declared.load_cause.LoadCause.TheVariants.{BadTarget};
ghost use Rattle.load_faults.specs.Faults.{first_from, fault_if};
ghost use Rattle.alias_tables.specs.Roots.{root_at as root_in};
ghost use Rattle.alias_faults.specs.Targets as s;

use alias_tables::object_of_id;
use load_passes::Best;
use path_ends::UnitIds;
use program_names::Fault;
use program_tables::{BuiltInName, Meaning, Names};
use qml_base::{LoadCause, NoMemory, Place};
use qml_text::Text;

/// A PropertyChanges for whose target a fault may be told: its object, the place of what is given for `target`, or of its type's
/// name where nothing is, and the name that is given, where it is a name alone.
#[derive(Drop)]
pub struct TargetRow {
    pub object: usize,
    pub at: Place,
    pub name: Option<Text>,
}

/// The object that a PropertyChanges of a document names as its target: that of an id, sought in the component of the object and
/// in those around it, unless a name of a root, or of the object itself in the first, comes before (Qt 5.15, "Scope and Naming
/// Resolution"). `owners` says in which object each is written.
#[tactic(auto, using(crate::proofs::SeekLemmas::found_here, crate::proofs::SeekLemmas::is_hidden, crate::proofs::SeekLemmas::ends_outside, crate::proofs::SeekLemmas::goes_out, crate::proofs::SeekLemmas::ends_at_last))]
pub fn target_seen(
    names: &Names,
    ids: &UnitIds,
    owners: &[Option<usize>],
    document: usize,
    object: usize,
    name: &Text,
) -> Result<Option<usize>, NoMemory>
    ensures { IfOk result (λ o.
        o ≡ s.target_seen names.now.units.items ids.now owners.now document object name.now) }
{
    let mut hidden = sees(names, document, object, name)?;
    let mut root = root_at(&ids.roots, object);
    let mut left = owners.len() + 1;
    'components: while left > 0 {
        left -= 1;
        if let Some(found) = object_of_id(&ids.ids, root, name) {
            return Ok(Some(found));
        }
        let seen = sees(names, document, root, name)?;
        if hidden || seen {
            return Ok(None);
        }
        let Some(owner) = owner_at(owners, root) else {
            return Ok(None);
        };
        root = root_at(&ids.roots, owner);
        hidden = false;
    }
    Ok(None)
}

/// Whether expressions see a name of an object.
fn sees(names: &Names, document: usize, object: usize, name: &Text) -> Result<bool, NoMemory>
    ensures { IfOk result (λ b. b ≡ s.sees names.now.units.items document object name.now) }
{
    let found = names.meaning(document, object, name)?;
    let seen = is_seen(found);
    Ok(seen)
}

fn is_seen(found: Option<Meaning>) -> bool
    ensures { result ≡ s.is_seen found }
{
    match found {
        Some(Meaning::BuiltIn(BuiltInName::Children)) => false,
        Some(_) => true,
        None => false,
    }
}

fn owner_at(owners: &[Option<usize>], object: usize) -> Option<usize>
    ensures { result ≡ s.owner_at owners.now object }
{
    match owners.get(object) {
        Some(owner) => *owner,
        None => None,
    }
}

fn root_at(roots: &[usize], object: usize) -> usize
    ensures { result ≡ root_in roots.now object }
{
    match roots.get(object) {
        Some(root) => *root,
        None => 0,
    }
}

/// Tells each PropertyChanges of a document whose target isn't an id that it sees (BadTarget).
#[tactic(auto, using(crate::proofs::SeekLemmas::one_row, crate::proofs::SeekLemmas::all_told))]
pub fn tell_bad_targets(
    names: &Names,
    ids: &UnitIds,
    owners: &[Option<usize>],
    document: usize,
    rows: &[TargetRow],
    best: &mut Best,
) -> Result<(), NoMemory>
    ensures { OnOk result (best.new.fault ≡ first_from best.old.fault
        (s.bad_targets_of names.now.units.items ids.now owners.now document rows.now)) }
{
    'rows: for row in rows {
        tell_target(names, ids, owners, document, row, best)?;
    }
    Ok(())
}

fn tell_target(
    names: &Names,
    ids: &UnitIds,
    owners: &[Option<usize>],
    document: usize,
    row: &TargetRow,
    best: &mut Best,
) -> Result<(), NoMemory>
    ensures { OnOk result (best.new.fault ≡ first_from best.old.fault
        (s.bad_target names.now.units.items ids.now owners.now document row.now)) }
{
    let target = seen_by(names, ids, owners, document, row.object, &row.name)?;
    tell_without(target, row.at, best);
    Ok(())
}

fn seen_by(
    names: &Names,
    ids: &UnitIds,
    owners: &[Option<usize>],
    document: usize,
    object: usize,
    name: &Option<Text>,
) -> Result<Option<usize>, NoMemory>
    ensures { IfOk result (λ o.
        o ≡ s.seen_by names.now.units.items ids.now owners.now document object name.now) }
{
    match name {
        Some(name) => {
            let found = target_seen(names, ids, owners, document, object, name)?;
            Ok(found)
        }
        None => Ok(None),
    }
}

fn tell_without(target: Option<usize>, at: Place, best: &mut Best)
    ensures { best.new.fault ≡ first_from best.old.fault (fault_if (is_none target) at BadTarget) }
{
    match target {
        Some(_) => {}
        None => best.tell(Fault {
            at,
            cause: LoadCause::BadTarget,
        }),
    }
}
