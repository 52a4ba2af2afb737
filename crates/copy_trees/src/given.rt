//! What cells contain, as tables.

use qml_base::{CellNo, ExprNo, Home, ObjNo, UnitNo};
use qml_types::PropKind;
use qml_value::{Num, Value};
use std::alloc::{AllocFailed, Global};
use tree_model::{Binding, Content, NewCell, Rule};

/// What a cell contains.
#[derive(Clone, Copy)]
pub enum Given {
    Null,
    Number(u32),
    Truth(bool),
    Object(u32),
    /// A text of a unit of `copy_rules`, whose scope object is 1, written in another object: of unit 0 a copy of the cell at
    /// the place, of unit 1 a throw, of unit 2 a number past the limit.
    Text(u32, u32, u32),
    /// A rule that is built in, of the object.
    Own(Rule, u32),
}

/// The cell of the object at the place.
pub fn cell(object: u32, place: u32) -> CellNo {
    CellNo {
        object: ObjNo(object),
        place,
    }
}

/// The number as a value.
pub fn number(n: u32) -> Value {
    Value::Num(Num::small(n))
}

fn text(unit: u32, at: u32, author: u32) -> Binding {
    let (unit, author) = (UnitNo(unit), ObjNo(author));
    let home = Home {
        unit,
        scope: ObjNo(1),
        author,
    };
    Binding {
        rule: Rule::Text(ExprNo { unit, at }, home),
        author,
    }
}

/// The content that is meant.
pub fn content(given: Given) -> Content {
    match given {
        Given::Null => Content::Plain(Value::Null),
        Given::Number(n) => Content::Plain(number(n)),
        Given::Truth(b) => Content::Plain(Value::Bool(b)),
        Given::Object(o) => Content::Plain(Value::Object(ObjNo(o))),
        Given::Text(unit, at, author) => Content::Bound(text(unit, at, author)),
        Given::Own(rule, o) => Content::Bound(Binding {
            rule,
            author: ObjNo(o),
        }),
    }
}

/// A cell of any kind with this content, that holds undefined at first.
pub fn new_cell(given: Given) -> NewCell {
    NewCell {
        kind: PropKind::Var,
        content: content(given),
        held: Value::Undefined,
    }
}

/// Such cells.
pub fn cells(alloc: Global, given: &[Given]) -> Result<Vec<NewCell>, AllocFailed<NewCell>> {
    let mut cells = Vec::new(alloc);
    for given in given {
        cells.push(new_cell(*given))?;
    }
    Ok(cells)
}

/// Which cell each of so many copies.
#[derive(Clone, Copy)]
pub enum Copied {
    /// Its parent in a binary tree, and the first one none.
    Parent,
    /// The next one, and the last one none.
    Next,
    /// The next one, and the last one the first.
    Circle,
}

fn from(copied: Copied, i: u32, count: u32) -> u32 {
    let next = i.saturating_add(1);
    match copied {
        Copied::Parent => i.saturating_sub(1) / 2,
        Copied::Next => if next < count { next } else { i },
        Copied::Circle => if next < count { next } else { 0 },
    }
}

/// What the cell contains: 7 where it would copy itself.
fn one_of(copied: Copied, i: u32, count: u32) -> Given {
    let at = from(copied, i, count);
    if at == i {
        Given::Number(7)
    } else {
        Given::Text(0, at, 1)
    }
}

/// So many cells of object 1 that copy one another.
pub fn copies(
    alloc: Global,
    copied: Copied,
    count: u32,
) -> Result<Vec<NewCell>, AllocFailed<NewCell>> {
    let mut cells = Vec::new(alloc);
    for i in 0..count {
        cells.push(new_cell(one_of(copied, i, count)))?;
    }
    Ok(cells)
}
