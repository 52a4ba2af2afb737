//! What is kept of a program's names.

use crate::built_in::{BuiltInName, BuiltInNames};
use name_table::NameTable;
use qml_types::{Access, DefaultMember, PropKind, TypeNo, TypeRef};

/// What a name that an object declares means. A row is that of a member in the object's document.
#[derive(Clone, Copy, Debug)]
pub enum Declared {
    /// A cell, by its place among those that the object declares.
    Cell {
        place: usize,
        kind: PropKind,
        access: Access,
    },
    /// The signal of a property's changes.
    Changed,
    Signal {
        row: usize,
    },
    Function {
        row: usize,
    },
    Alias {
        row: usize,
    },
}

/// What a name means for an object. A document and an object are those that declare it.
#[derive(Clone, Copy, Debug)]
pub enum Meaning {
    BuiltIn(BuiltInName),
    /// A cell, by its place among all that the object has.
    Cell {
        place: usize,
        kind: PropKind,
        access: Access,
    },
    /// The signal of a property's changes.
    Changed,
    Signal {
        document: usize,
        row: usize,
    },
    Function {
        document: usize,
        object: usize,
        row: usize,
    },
    Alias {
        document: usize,
        object: usize,
        row: usize,
    },
}

/// Where child objects of an object go.
#[derive(Clone, Copy, Debug)]
pub enum DefaultPlace {
    /// To the property that a row of a document declares as default.
    Declared {
        document: usize,
        row: usize,
    },
    /// Where a built-in type says.
    BuiltIn {
        type_no: TypeNo,
        member: DefaultMember,
    },
}

/// What an object declares.
#[derive(Drop)]
pub struct ObjectNames {
    /// Its type.
    pub base: TypeRef,
    /// What each name that it declares means: of several the first.
    pub names: NameTable<Declared>,
    /// How many cells it declares.
    pub cells: usize,
    /// The row of its last default property.
    pub default: Option<usize>,
}

/// What the objects of a document declare, by their numbers.
#[derive(Drop)]
pub struct UnitNames {
    pub objects: Vec<ObjectNames>,
}

/// What the objects of a program declare, by the numbers of documents, and what built-in types have.
#[derive(Drop)]
pub struct Names {
    pub built_in: BuiltInNames,
    pub units: Vec<UnitNames>,
}
