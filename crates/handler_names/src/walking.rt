//! Whether a name is a handler's: an object's layers from its own text down to the built-in type.

ghost use Rattle.std.specs.Prelude.{◌≡◌, ◌+◌, length, IfOk};
ghost use Rattle.program_tables.specs.Types.{base_in};
ghost use Rattle.handler_names.specs.Handlers as s;

use crate::built_in::type_handles;
use crate::declared::{UnitHandlers, declares};
use program_tables::{Names, UnitNames};
use qml_base::NoMemory;
use qml_text::Text;
use qml_types::{TypeNo, TypeRef};
use std::alloc::Global;

/// Whether a name is that of a handler for the object of a number in the document of a number: for a signal that it has in any of its
/// layers, also one that another name of the same layer hides (Qt 5.15, "Signal and Handler Event System"). Goes through the types of the
/// object, with one look-up in each.
#[tactic(auto, using(crate::proofs::WalkLemmas::goes_to_base, crate::proofs::WalkLemmas::declares_it, crate::proofs::WalkLemmas::ends_built_in, crate::proofs::WalkLemmas::ends_unsettled))]
pub fn is_handler(
    alloc: Global,
    names: &Names,
    handlers: &[UnitHandlers],
    document: usize,
    object: usize,
    name: &Text,
) -> Result<bool, NoMemory>
    ensures { IfOk result (λ b. b ≡
        s.handled_at (length names.now.units.items + 1) names.now.units.items handlers.now document object name.now) }
{
    let mut document = document;
    let mut object = object;
    let mut left = names.units.len() + 1;
    'layers: while left > 0 {
        left -= 1;
        if declares(handlers, document, object, name) {
            return Ok(true);
        }
        match base_at(&names.units, document, object) {
            TypeRef::Builtin(type_no) => {
                let all = type_handles(alloc, &names.built_in, type_no, name)?;
                return Ok(all);
            }
            TypeRef::Document(unit) => {
                document = unit.0 as usize;
                object = 0;
            }
        }
    }
    Ok(false)
}

/// The type of an object; of one that isn't there QtObject.
fn base_at(units: &[UnitNames], document: usize, object: usize) -> TypeRef
    ensures { result ≡ base_in units.now document object }
{
    match units.get(document) {
        Some(unit) => match unit.objects.as_slice().get(object) {
            Some(entry) => entry.base,
            None => TypeRef::Builtin(TypeNo::QtObject),
        },
        None => TypeRef::Builtin(TypeNo::QtObject),
    }
}
