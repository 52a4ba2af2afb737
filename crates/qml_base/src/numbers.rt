//! Numbers of objects, cells, units and expressions, and places in a file.

/// The number of an object, from 1 on in the order of making. No number is given twice, also not after its object is gone.
#[derive(Clone, Copy, Debug, PartialEq, Eq, PartialOrd, Ord, Hash)]
pub struct ObjNo(pub u32);

/// The number of a loaded document or script file, from 0 on in the order of loading.
#[derive(Clone, Copy, Debug, PartialEq, Eq, PartialOrd, Ord, Hash)]
pub struct UnitNo(pub u32);

/// The number of a cell: its object, and its place among the cells of the object, from 0 on. Cells are ordered by the
/// number of their object, and then by place.
#[derive(Clone, Copy, Debug, PartialEq, Eq, PartialOrd, Ord, Hash)]
pub struct CellNo {
    pub object: ObjNo,
    pub place: u32,
}

/// The number of an expression, a body or an object as written: its unit, and its number there.
#[derive(Clone, Copy, Debug, PartialEq, Eq, PartialOrd, Ord, Hash)]
pub struct ExprNo {
    pub unit: UnitNo,
    pub at: u32,
}

/// A place in a file: the line from 1 on, and the column, which is 1 plus the bytes before the place on its line.
#[derive(Clone, Copy, Debug, PartialEq, Eq)]
pub struct Place {
    pub line: u32,
    pub column: u32,
}
