//! The table as what a tree looks names and types up in.

use crate::resolving;
use crate::shapes::Shapes;
use qml_base::{Found, Home, ObjNo};
use qml_text::Text;
use qml_types::TypeRef;
use tree_model::Lookup;

impl Lookup for Shapes {
    ghost use Rattle.qml_scope.specs.Shapes.{names_of, types_among};

    ghost names = { λ shapes. names_of shapes.known };

    ghost types = { λ shapes. types_among shapes.known.told };

    fn resolve(&self, home: Home, name: &Text) -> Found {
        resolving::resolve(self, home, name)
    }

    fn member(&self, object: ObjNo, name: &Text) -> Found {
        resolving::member(self, object, name)
    }

    fn is_id(&self, home: Home, name: &Text) -> bool {
        resolving::is_id(self, home, name)
    }

    fn types_of(&self, object: ObjNo) -> &[TypeRef] {
        self.types_told(object)
    }
}
