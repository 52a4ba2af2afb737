//! The layers of an object.

ghost use Rattle.std.specs.Prelude.{◌≡◌, ◌+◌, length, IfOk};
ghost use Rattle.program_tables.specs.Types.{base_in};
ghost use Rattle.handled_signals.specs.Layers as s;

use program_tables::{Names, UnitNames};
use qml_base::NoMemory;
use qml_types::{TypeNo, TypeRef};
use std::alloc::Global;

/// The layers of an object: itself, the root of the document that is its type, and so on, and the built-in type below.
#[derive(Drop)]
pub struct Layers {
    /// Documents with numbers of objects in them.
    pub objects: Vec<(usize, usize)>,
    pub base: Option<TypeNo>,
}

/// The layers of the object of a number in the document of a number. It takes time by how many they are.
#[tactic(auto, using(crate::proofs::LayerLemmas::goes_down, crate::proofs::LayerLemmas::ends_built_in, crate::proofs::LayerLemmas::ends_unsettled))]
pub fn object_layers(
    alloc: Global,
    names: &Names,
    document: usize,
    object: usize,
) -> Result<Layers, NoMemory>
    ensures { IfOk result (λ made. s.AreLayers made
        (s.layers_at (length names.now.units.items + 1) names.now.units.items document object)) }
{
    let mut document = document;
    let mut object = object;
    let mut objects = Vec::new(alloc);
    let mut left = names.units.len() + 1;
    'layers: while left > 0 {
        left -= 1;
        objects.push((document, object))?;
        match base_at(&names.units, document, object) {
            TypeRef::Builtin(type_no) => {
                return Ok(Layers {
                    objects,
                    base: Some(type_no),
                })
            }
            TypeRef::Document(unit) => {
                document = unit.0 as usize;
                object = 0;
            }
        }
    }
    Ok(Layers {
        objects,
        base: None,
    })
}

/// The type of an object; of one that isn't there QtObject.
fn base_at(units: &[UnitNames], document: usize, object: usize) -> TypeRef
    ensures { result ≡ base_in units.now document object }
{
    match units.get(document) {
        Some(unit) => match unit.objects.as_slice().get(object) {
            Some(entry) => entry.base,
            None => TypeRef::Builtin(TypeNo::QtObject),
        },
        None => TypeRef::Builtin(TypeNo::QtObject),
    }
}
