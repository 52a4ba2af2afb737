//! The target of an object: its layers from its own text down.

ghost use Rattle.std.specs.Prelude.{◌≡◌, ◌+◌, length};
ghost use Rattle.program_tables.specs.Types.{base_in};
ghost use Rattle.change_targets.specs.Targets as s;

use program_tables::{Names, UnitNames};
use qml_types::{TypeNo, TypeRef};

/// Of each object of a document the number of the object that its own `target` names, where it names one.
#[derive(Drop)]
pub struct UnitTargets {
    pub objects: Vec<Option<usize>>,
}

/// The object that the object of a number in the document of a number has as its `target`, with its document: that of its own text, else
/// that of the document of its type, and so on. It takes time by the types of the object.
#[tactic(auto, using(crate::proofs::WalkLemmas::goes_to_base, crate::proofs::WalkLemmas::names_it, crate::proofs::WalkLemmas::ends_built_in, crate::proofs::WalkLemmas::ends_unsettled))]
pub fn target_of(
    names: &Names,
    targets: &[UnitTargets],
    document: usize,
    object: usize,
) -> Option<(usize, usize)>
    ensures { result ≡
        s.target_at (length names.now.units.items + 1) names.now.units.items targets.now document object }
{
    let mut document = document;
    let mut object = object;
    let mut left = names.units.len() + 1;
    'layers: while left > 0 {
        left -= 1;
        if let Some(target) = named_at(targets, document, object) {
            return Some((document, target));
        }
        match base_at(&names.units, document, object) {
            TypeRef::Builtin(_) => return None,
            TypeRef::Document(unit) => {
                document = unit.0 as usize;
                object = 0;
            }
        }
    }
    None
}

/// The object that an object itself names.
fn named_at(targets: &[UnitTargets], document: usize, object: usize) -> Option<usize>
    ensures { result ≡ s.named_at targets.now document object }
{
    match targets.get(document) {
        Some(unit) => match unit.objects.as_slice().get(object) {
            Some(target) => *target,
            None => None,
        },
        None => None,
    }
}

/// The type of an object; of one that isn't there QtObject.
fn base_at(units: &[UnitNames], document: usize, object: usize) -> TypeRef
    ensures { result ≡ base_in units.now document object }
{
    match units.get(document) {
        Some(unit) => match unit.objects.as_slice().get(object) {
            Some(entry) => entry.base,
            None => TypeRef::Builtin(TypeNo::QtObject),
        },
        None => TypeRef::Builtin(TypeNo::QtObject),
    }
}
