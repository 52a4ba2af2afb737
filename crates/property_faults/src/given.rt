//! What members are given for.

use qml_types::{Access, PropKind};

/// What a value, a group or a child object is given for.
#[derive(Clone, Copy, Debug)]
pub enum GivenFor {
    /// A role of a row of a ListModel.
    Role,
    /// One of the two attached handlers.
    Attached,
    /// A handler for the target of a Connections.
    Target,
    /// A property that the object has, by its own name or through an alias.
    Property {
        kind: PropKind,
        access: Access,
        own: bool,
    },
    /// A whole object.
    Object,
    /// A handler of the object's own.
    Handler,
    /// The children of an Item.
    Children,
    /// Nothing that the object has.
    Nothing,
    /// A PropertyChanges that has no target.
    WithoutTarget,
    /// A child that its object's type takes: among the children of an Item, into a Component, among the rows of a ListModel.
    Taken,
}
