//! Of which types an object is.

ghost use Rattle.std.specs.Prelude.{◌≡◌, ◌+◌, length, nat_eq};
ghost use Rattle.std.specs.List.{list_any};
ghost use Rattle.qml_types.specs.Table.{lineage};
ghost use Rattle.qml_types.specs.declared.kind.TypeRef.TheVariants.{Builtin};
ghost use Rattle.program_names.specs.Layers.{same_type, same_ref};
ghost use Rattle.program_tables.specs.Types as s;

use crate::built_in::index_of;
use crate::names::{Names, UnitNames};
use crate::walking::object_at;
use qml_types::{TypeNo, TypeRef};

impl Names {
    /// Whether the object of a number in the document of a number is of a type: its own, one that this stands on, or the
    /// document of one.
    #[tactic(auto, using(crate::proofs::TypeLemmas::goes_to_base, crate::proofs::TypeLemmas::is_it, crate::proofs::TypeLemmas::ends_built_in, crate::proofs::TypeLemmas::ends_unsettled))]
    pub fn is_a(&self, document: usize, object: usize, wanted: TypeRef) -> bool
        ensures { result ≡ s.any_of (length self.now.units.items + 1) self.now.units.items wanted
            (s.base_in self.now.units.items document object) }
    {
        let mut base = base_at(&self.units, document, object);
        let mut left = self.units.len() + 1;
        'types: while left > 0 {
            left -= 1;
            match base {
                TypeRef::Builtin(type_no) => return stands_on(type_no, wanted),
                TypeRef::Document(unit) => {
                    if same_ref(wanted, base) {
                        return true;
                    }
                    base = base_at(&self.units, unit.0 as usize, 0);
                }
            }
        }
        is_built_in(base, wanted)
    }
}

/// The type of an object; of one that isn't there QtObject.
fn base_at(units: &[UnitNames], document: usize, object: usize) -> TypeRef
    ensures { result ≡ s.base_in units.now document object }
{
    match object_at(units, document, object) {
        Some(entry) => entry.base,
        None => TypeRef::Builtin(TypeNo::QtObject),
    }
}

/// Whether a type is built in and stands on the wanted one.
fn is_built_in(base: TypeRef, wanted: TypeRef) -> bool
    ensures { result ≡ s.any_built_in wanted base }
{
    match base {
        TypeRef::Builtin(type_no) => stands_on(type_no, wanted),
        TypeRef::Document(_) => false,
    }
}

/// Whether a type or one that it stands on is the wanted one.
fn stands_on(type_no: TypeNo, wanted: TypeRef) -> bool
    ensures { result ≡ list_any (λ b. same_ref wanted (Builtin b)) (lineage type_no) }
{
    'bases: for base in type_no.lineage() {
        if same_ref(wanted, TypeRef::Builtin(*base)) {
            return true;
        }
    }
    false
}

fn same_ref(a: TypeRef, b: TypeRef) -> bool
    ensures { result ≡ same_ref a b }
{
    match a {
        TypeRef::Builtin(a) => match b {
            TypeRef::Builtin(b) => same_type(a, b),
            TypeRef::Document(_) => false,
        },
        TypeRef::Document(a) => match b {
            TypeRef::Builtin(_) => false,
            TypeRef::Document(b) => a.0 == b.0,
        },
    }
}

#[tactic(auto, using(crate::proofs::TypeLemmas::same_index))]
fn same_type(a: TypeNo, b: TypeNo) -> bool
    ensures { result ≡ same_type a b }
{
    index_of(a) == index_of(b)
}
