//! The names of one live instance of a component.

ghost use Rattle.std.specs.Prelude.{◌≡◌, ◌++◌, ◌∷◌, [], OnOk, OnErr};

use name_table::NameTable;
use qml_base::{CellNo, Found, NoMemory, ObjNo, UnitNo};
use std::alloc::Global;
use std::marker::Model;

/// The names of one object as one document sees them, in the order of the cells' places, those of its aliases after all
/// others.
#[derive(Drop)]
pub struct Entry {
    pub object: ObjNo,
    pub names: NameTable<Found>,
}

/// The objects of an instance with their names. Contracts see them as the list of the entries.
#[derive(Drop)]
pub struct Members {
    entries: Vec<Entry>,
}

impl Model for Members {
    ghost use Rattle.std.specs.Prelude.{List};
    ghost use Rattle.qml_scope.specs.declared.shape.Entry.{Entry};

    ghost Value = { List Entry };

    ghost view = { λ members. members.entries.items };
}

impl Members {
    /// No objects. It takes no memory.
    pub fn new(alloc: Global) -> Members
        ensures { result ≡ [] }
    {
        Members {
            entries: Vec::new(alloc),
        }
    }

    /// Puts an entry behind the others. Without memory nothing changes.
    pub fn push(&mut self, entry: Entry) -> Result<(), NoMemory>
        ensures ok { OnOk result (self.new ≡ self.old ++ entry ∷ []) }
        ensures err { OnErr result (self.new ≡ self.old) }
    {
        match self.entries.push(entry) {
            Ok(()) => Ok(()),
            Err(_) => Err(NoMemory),
        }
    }

    /// The entries, in order.
    pub fn entries(&self) -> &[Entry]
        ensures { result.now ≡ self.now }
    {
        self.entries.as_slice()
    }
}

/// One live instance of a component (Qt 5.15, "Scope and Naming Resolution"). Of each unit there is one more, whose root
/// and only object is `ObjNo(0)`: it has the names that belong to no object, the qualifiers of a document's scripts and a
/// script's functions.
#[derive(Drop)]
pub struct Shape {
    /// The document in which the component is written.
    pub unit: UnitNo,
    /// The component's root.
    pub root: ObjNo,
    /// The root of the instance around it, in the same document.
    pub enclosing: Option<ObjNo>,
    /// The ids of the component.
    pub ids: NameTable<ObjNo>,
    /// The delegate names of the root.
    pub names: NameTable<CellNo>,
    /// What each object has under which name.
    pub members: Members,
}
