//! Where names are looked up, and what they find.

use crate::numbers::{CellNo, ExprNo, ObjNo, UnitNo};

/// Where a text is evaluated: the unit that it stands in, the object whose names come first (Qt 5.15, Scope and Naming
/// Resolution), and the object in whose text it stands.
#[derive(Clone, Copy, Debug, PartialEq, Eq, PartialOrd, Ord, Hash)]
pub struct Home {
    pub unit: UnitNo,
    pub scope: ObjNo,
    pub author: ObjNo,
}

/// What a name finds.
#[derive(Clone, Copy, Debug, PartialEq, Eq)]
pub enum Found {
    /// A property's cell; of an alias that of its target.
    Cell(CellNo),
    /// An object that an id or an alias of a whole object names, and that is no Component.
    Object(ObjNo),
    /// A Component that an id or an alias of a whole object names.
    Component(ObjNo),
    /// A function, and the object whose function it is.
    Body(ExprNo, ObjNo),
    /// A signal of an object, by its number there.
    Signal(ObjNo, u32),
    /// A method of the object's type, and the hidden cell that it reads, if it reads one.
    Method(ObjNo, Option<CellNo>),
    /// The qualifier of an imported script file.
    Script(UnitNo),
    /// A global, told by the name itself.
    Global,
    /// Nothing has the name.
    Nothing,
}
