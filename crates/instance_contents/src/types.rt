//! Types of objects as written.

ghost use Rattle.std.specs.Prelude.{◌≡◌, IfOk, OnOk, ◌++◌, reverse};
ghost use Rattle.program_names.specs.Layers.{same_type};
ghost use Rattle.unit_rows.specs.Seen.{all_seen};
ghost use Rattle.instance_plans.specs.Numbers as n;

use instance_plans::Planned;
use instancing::type_at;
use qml_base::NoMemory;
use qml_types::{TypeNo, TypeRef};
use std::alloc::Global;
use unit_rows::Unit;

/// Whether it is a Component.
pub fn is_component(t: TypeNo) -> bool
    ensures { result ≡ same_type TypeNo.Component t }
{
    match t {
        TypeNo::Component => true,
        _ => false,
    }
}

/// Whether it is a State.
pub fn is_state(t: TypeNo) -> bool
    ensures { result ≡ same_type TypeNo.State t }
{
    match t {
        TypeNo::State => true,
        _ => false,
    }
}

/// Whether a type stands on an Item.
pub fn is_item(t: TypeNo) -> bool
    ensures { result ≡ n.stands_on t TypeNo.Item }
{
    match t {
        TypeNo::Item | TypeNo::Repeater | TypeNo::Loader => true,
        _ => false,
    }
}

/// The built-in type that a type stands on.
pub fn builtin_of(units: &[Unit], of_type: TypeRef) -> TypeNo
    ensures { result ≡ n.builtin_of (all_seen units.now) of_type }
{
    let mut of_type = of_type;
    let mut left = units.len() + 1;
    'documents: while left > 0 {
        match of_type {
            TypeRef::Builtin(no) => return no,
            TypeRef::Document(document) => {
                left -= 1;
                of_type = type_at(units, document.0, 0);
            }
        }
    }
    TypeNo::QtObject
}

/// The documents that a type stands on, from its own to the lowest.
pub fn documents_from(alloc: Global, units: &[Unit], of_type: TypeRef) -> Result<Vec<u32>, NoMemory>
    ensures { IfOk result (λ documents. reverse documents.items ≡ n.documents_of (all_seen units.now) of_type) }
{
    let mut documents = Vec::new(alloc);
    let mut of_type = of_type;
    let mut left = units.len() + 1;
    'documents: while left > 0 {
        let TypeRef::Document(document) = of_type else {
            return Ok(documents);
        };
        documents.push(document.0)?;
        left -= 1;
        of_type = type_at(units, document.0, 0);
    }
    Ok(documents)
}

/// The built-in type of a planned object.
pub fn builtin_planned(units: &[Unit], x: Planned) -> TypeNo
    ensures { result ≡ n.builtin_planned (all_seen units.now) x }
{
    if x.is_around {
        TypeNo::Component
    } else {
        builtin_of(units, type_at(units, x.unit, x.object))
    }
}
