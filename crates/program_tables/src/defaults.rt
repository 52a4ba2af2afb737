//! Where child objects of an object go.

ghost use Rattle.std.specs.Prelude.{◌≡◌, ◌+◌, length};
ghost use Rattle.std.specs.Option.{option_map};
ghost use Rattle.qml_types.specs.Members.{default_member as default_of_type};
ghost use Rattle.program_tables.specs.declared.names.DefaultPlace.TheVariants.{BuiltIn};
ghost use Rattle.program_tables.specs.Defaults as s;

use crate::names::{DefaultPlace, Names};
use crate::walking::object_at;
use qml_types::{TypeNo, TypeRef, default_member};

impl Names {
    /// Where objects go that are written in an object and for no property: of several declared defaults the last counts,
    /// that of the object's own text included; else it is where the built-in type says (Qt 5.15, "Default Properties").
    #[tactic(auto, using(crate::proofs::DefaultLemmas::goes_on, crate::proofs::DefaultLemmas::declares_it, crate::proofs::DefaultLemmas::ends_below, crate::proofs::DefaultLemmas::ends_without, crate::proofs::DefaultLemmas::ends_at_last))]
    pub fn default_property(&self, document: usize, object: usize) -> Option<DefaultPlace>
        ensures { result ≡ s.default_at (length self.now.units.items + 1) self.now.units.items document object }
    {
        let mut document = document;
        let mut object = object;
        let mut left = self.units.len() + 1;
        'layers: while left > 0 {
            left -= 1;
            let Some(entry) = object_at(&self.units, document, object) else {
                return None;
            };
            if let Some(row) = entry.default {
                return Some(DefaultPlace::Declared { document, row });
            }
            match entry.base {
                TypeRef::Builtin(type_no) => return built_in_default(type_no),
                TypeRef::Document(unit) => {
                    document = unit.0 as usize;
                    object = 0;
                }
            }
        }
        None
    }
}

fn built_in_default(type_no: TypeNo) -> Option<DefaultPlace>
    ensures { result ≡ option_map (BuiltIn type_no) (default_of_type type_no) }
{
    match default_member(type_no) {
        Some(member) => Some(DefaultPlace::BuiltIn { type_no, member }),
        None => None,
    }
}
