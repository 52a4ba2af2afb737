//! What is known of names and types around a tree.

ghost use Rattle.std.specs.Prelude.{◌≡◌, List};
ghost use Rattle.qml_base.specs.declared.numbers.ObjNo.{ObjNo};
ghost use Rattle.qml_types.specs.declared.kind.TypeRef.{TypeRef};
ghost use Rattle.evaluation.specs.Ask.{Names};

use qml_base::{Found, Home, ObjNo};
use qml_text::Text;
use qml_types::TypeRef;

/// What names find, and what types objects have.
pub trait Lookup {
    ghost names: { Self → Names };

    ghost types: { Self → ObjNo → List TypeRef };

    /// What the name finds, from the ids on (Qt 5.15, Scope and Naming Resolution).
    fn resolve(&self, home: Home, name: &Text) -> Found
        ensures { result ≡ (names self.now).resolve home name.now };

    /// What the object itself has under the name.
    fn member(&self, object: ObjNo, name: &Text) -> Found
        ensures { result ≡ (names self.now).member object name.now };

    /// Whether the name finds what it finds as an id, and not as an alias of a whole object.
    fn is_id(&self, home: Home, name: &Text) -> bool
        ensures { result ≡ (names self.now).is_id home name.now };

    /// The types of the object, from its own to the lowest that it stands on.
    fn types_of(&self, object: ObjNo) -> &[TypeRef]
        ensures { result.now ≡ types self.now object };
}
