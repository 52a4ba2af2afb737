//! Names that an object has by its type.

ghost use Rattle.std.specs.Prelude.{◌≡◌, IfOk};
ghost use Rattle.program_names.specs.Names.{changed};
ghost use Rattle.program_tables.specs.Types.{base_in};
ghost use Rattle.name_faults.specs.Names as s;

use program_tables::{Names, UnitNames};
use qml_base::NoMemory;
use qml_text::Text;
use qml_types::{TypeNo, TypeRef};
use std::alloc::Global;

/// The type of an object; of one that isn't there QtObject.
fn base_at(units: &[UnitNames], document: usize, object: usize) -> TypeRef
    ensures { result ≡ base_in units.now document object }
{
    match units.get(document) {
        Some(unit) => match unit.objects.as_slice().get(object) {
            Some(entry) => entry.base,
            None => TypeRef::Builtin(TypeNo::QtObject),
        },
        None => TypeRef::Builtin(TypeNo::QtObject),
    }
}

/// Whether a type has a name.
fn has_name(names: &Names, base: TypeRef, name: &Text) -> Result<bool, NoMemory>
    ensures { IfOk result (λ b. b ≡ s.type_has names.now.units.items base name.now) }
{
    match base {
        TypeRef::Builtin(type_no) => Ok(names.built_in.find(type_no, name).is_some()),
        TypeRef::Document(unit) => Ok(names.meaning(unit.0 as usize, 0, name)?.is_some()),
    }
}

/// Whether an object has a name by its type.
pub(crate) fn is_taken(
    names: &Names,
    document: usize,
    object: usize,
    name: &Text,
) -> Result<bool, NoMemory>
    ensures { IfOk result (λ b. b ≡ s.is_taken names.now.units.items document object name.now) }
{
    has_name(names, base_at(&names.units, document, object), name)
}

/// The name of the signal of a property's changes.
pub(crate) fn changed_name(alloc: Global, name: &Text) -> Result<Text, NoMemory>
    ensures { IfOk result (λ text. text ≡ changed name.now) }
{
    let mut units = Vec::from_slice(alloc, name.units())?;
    units.extend_from_slice(&[67, 104, 97, 110, 103, 101, 100])?;
    match Text::from_units(alloc, units) {
        Ok(text) => Ok(text),
        Err(_) => Err(NoMemory),
    }
}
