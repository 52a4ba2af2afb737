//! The cells of each type: what stands in its own row of the documentation.

ghost use Rattle.std.specs.Prelude.{◌≡◌, map};
ghost use Rattle.qml_types.specs.Table.{own_cells as own_cells_of, cell_of, is_shown};

use crate::kind::Access::{Hidden, Id, Literal, ReadOnly, Writable};
use crate::kind::Start::{NotLoaded, Number, OfKind, Owner, RestoreBinding, True};
use crate::kind::{Access, PropKind, Start, TypeNo, TypeRef};

/// A cell of a built-in type.
#[derive(Clone, Copy, Debug)]
pub struct Cell {
    /// Its place among the cells of an object of the type.
    pub place: u32,
    /// Its name, by which a hidden cell isn't found.
    pub name: &'static str,
    pub kind: PropKind,
    pub access: Access,
    /// What it holds before anything is given for it.
    pub start: Start,
    /// The place of the cell to which goes what is given for this one. It is its own but for `visible` and `enabled`.
    pub goes_to: u32,
    /// The name by which the trace shows it. It is its own but for the hidden cells of `visible` and `enabled`.
    pub shown_as: &'static str,
}

impl Access {
    /// Whether it has a name by which it is found.
    pub fn is_shown(self) -> bool
        ensures { result ≡ is_shown self }
    {
        self != Access::Hidden
    }
}

/// A cell that is given its own values and shown by its own name.
macro_rules! cell {
    ($place:expr, $name:expr, $kind:expr, $access:expr, $start:expr) => {
        Cell {
            place: $place,
            name: $name,
            kind: $kind,
            access: $access,
            start: $start,
            goes_to: $place,
            shown_as: $name,
        }
    };
}

/// A cell that a built-in rule gives its values, and the hidden one before it, which holds what is given for it.
macro_rules! ruled {
    ($place:expr, $name:expr) => {
        Cell {
            place: $place,
            name: $name,
            kind: PropKind::Bool,
            access: Writable,
            start: OfKind,
            goes_to: $place - 1,
            shown_as: $name,
        }
    };
    ($place:expr, $name:expr, $shown_as:expr) => {
        Cell {
            place: $place,
            name: $name,
            kind: PropKind::Bool,
            access: Hidden,
            start: True,
            goes_to: $place,
            shown_as: $shown_as,
        }
    };
}

const ANY_OBJECT: PropKind = PropKind::Object(TypeRef::Builtin(TypeNo::QtObject));

const ANY_ITEM: PropKind = PropKind::Object(TypeRef::Builtin(TypeNo::Item));

const STATES: PropKind = PropKind::List(TypeRef::Builtin(TypeNo::State));

const CHANGES: PropKind = PropKind::List(TypeRef::Builtin(TypeNo::PropertyChanges));

/// Qt 5.15, QtObject QML Type.
const QT_OBJECT: [Cell; 1] = [cell!(0, "objectName", PropKind::String, Writable, OfKind)];

/// Qt 5.15, Item QML Type. What is written for `visible` and `enabled` stands in the hidden cell before each.
const ITEM: [Cell; 12] = [
    cell!(1, "x", PropKind::Int, Writable, OfKind),
    cell!(2, "y", PropKind::Int, Writable, OfKind),
    cell!(3, "z", PropKind::Int, Writable, OfKind),
    cell!(4, "width", PropKind::Int, Writable, OfKind),
    cell!(5, "height", PropKind::Int, Writable, OfKind),
    ruled!(6, "visibleSet", "visible"),
    ruled!(7, "visible"),
    ruled!(8, "enabledSet", "enabled"),
    ruled!(9, "enabled"),
    cell!(10, "state", PropKind::String, Writable, OfKind),
    cell!(11, "states", STATES, Writable, OfKind),
    cell!(12, "parent", ANY_ITEM, ReadOnly, OfKind),
];

/// Qt 5.15, Timer QML Type.
const TIMER: [Cell; 4] = [
    cell!(1, "interval", PropKind::Int, Writable, Number(1000)),
    cell!(2, "repeat", PropKind::Bool, Writable, OfKind),
    cell!(3, "running", PropKind::Bool, Writable, OfKind),
    cell!(4, "triggeredOnStart", PropKind::Bool, Writable, OfKind),
];

/// Qt 5.15, Connections QML Type.
const CONNECTIONS: [Cell; 3] = [
    cell!(1, "target", ANY_OBJECT, Writable, Owner),
    cell!(2, "enabled", PropKind::Bool, Writable, True),
    cell!(3, "ignoreUnknownSignals", PropKind::Bool, Writable, OfKind),
];

/// Qt 5.15, Binding QML Type.
const BINDING: [Cell; 5] = [
    cell!(1, "target", ANY_OBJECT, Writable, OfKind),
    cell!(2, "property", PropKind::String, Literal, OfKind),
    cell!(3, "value", PropKind::Var, Writable, OfKind),
    cell!(4, "when", PropKind::Bool, Writable, True),
    cell!(5, "restoreMode", PropKind::String, Writable, RestoreBinding),
];

/// Qt 5.15, State QML Type.
const STATE: [Cell; 4] = [
    cell!(1, "name", PropKind::String, Literal, OfKind),
    cell!(2, "when", PropKind::Bool, Writable, OfKind),
    cell!(3, "extend", PropKind::String, Literal, OfKind),
    cell!(4, "changes", CHANGES, Writable, OfKind),
];

/// Qt 5.15, PropertyChanges QML Type.
const PROPERTY_CHANGES: [Cell; 3] = [
    cell!(1, "target", ANY_OBJECT, Id, OfKind),
    cell!(2, "explicit", PropKind::Bool, Literal, OfKind),
    cell!(3, "restoreEntryValues", PropKind::Bool, Literal, True),
];

/// Qt 5.15, ListModel QML Type. The hidden cell holds the rows.
const LIST_MODEL: [Cell; 2] = [
    cell!(1, "count", PropKind::Int, ReadOnly, OfKind),
    cell!(2, "rows", PropKind::Var, Hidden, OfKind),
];

/// Qt 5.15, Repeater QML Type.
const REPEATER: [Cell; 3] = [
    cell!(13, "model", PropKind::Var, Writable, OfKind),
    cell!(14, "delegate", PropKind::Component, Writable, OfKind),
    cell!(15, "count", PropKind::Int, ReadOnly, OfKind),
];

/// Qt 5.15, Loader QML Type.
const LOADER: [Cell; 5] = [
    cell!(13, "source", PropKind::Url, Writable, OfKind),
    cell!(14, "sourceComponent", PropKind::Component, Writable, OfKind),
    cell!(15, "active", PropKind::Bool, Writable, True),
    cell!(16, "item", ANY_OBJECT, ReadOnly, OfKind),
    cell!(17, "status", PropKind::String, ReadOnly, NotLoaded),
];

/// The element by which a program outside takes part.
const HOST: [Cell; 1] = [cell!(1, "key", PropKind::String, Literal, OfKind)];

const NO_CELLS: [Cell; 0] = [];

/// The cells that a type has beside those of its bases, in the order of their places.
pub fn own_cells(type_no: TypeNo) -> &'static [Cell]
    ensures { map cell_of result.now ≡ own_cells_of type_no }
{
    match type_no {
        TypeNo::QtObject => &QT_OBJECT,
        TypeNo::Component => &NO_CELLS,
        TypeNo::Item => &ITEM,
        TypeNo::Timer => &TIMER,
        TypeNo::Connections => &CONNECTIONS,
        TypeNo::Binding => &BINDING,
        TypeNo::State => &STATE,
        TypeNo::PropertyChanges => &PROPERTY_CHANGES,
        TypeNo::ListModel => &LIST_MODEL,
        TypeNo::ListElement => &NO_CELLS,
        TypeNo::Repeater => &REPEATER,
        TypeNo::Loader => &LOADER,
        TypeNo::Host => &HOST,
    }
}
