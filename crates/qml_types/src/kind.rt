//! What types, kinds of properties and cells are called.

ghost use Rattle.std.specs.Prelude.{◌≡◌, map};
ghost use Rattle.qml_types.specs.Table.{lineage};
ghost use Rattle.qml_types.specs.Kinds.{kind_of_type, basic_kind as basic_kind_of, found_kind, kind_row};

use qml_base::UnitNo;

/// A type that is built in.
#[derive(Clone, Copy, Debug, PartialEq, Eq)]
pub enum TypeNo {
    QtObject,
    Component,
    Item,
    Timer,
    Connections,
    Binding,
    State,
    PropertyChanges,
    ListModel,
    /// A row as it is written in a ListModel. It makes no object.
    ListElement,
    Repeater,
    Loader,
    Host,
}

/// A type: a built-in one, or that of a document.
#[derive(Clone, Copy, Debug, PartialEq, Eq)]
pub enum TypeRef {
    Builtin(TypeNo),
    Document(UnitNo),
}

/// The kind of a property: which values it takes (Qt 5.15, "QML Basic Types" and "QML Object Types").
#[derive(Clone, Copy, Debug, PartialEq, Eq)]
pub enum PropKind {
    Int,
    Real,
    Double,
    String,
    Url,
    Color,
    Bool,
    Var,
    Variant,
    /// Objects of this type or of one that stands on it.
    Object(TypeRef),
    Component,
    /// A list of objects, `list<T>`, which a document fills and nothing else.
    List(TypeRef),
}

/// Who gives a property its values.
#[derive(Clone, Copy, Debug, PartialEq, Eq)]
pub enum Access {
    /// Documents, bindings and bodies.
    Writable,
    /// The document that makes the object, by a literal, and nothing else.
    Literal,
    /// The document that makes the object, by an id, and nothing else.
    Id,
    /// The engine alone.
    ReadOnly,
    /// The engine, or what is given for another cell: it has no name.
    Hidden,
}

/// What a property holds before anything is given for it.
#[derive(Clone, Copy, Debug, PartialEq, Eq)]
pub enum Start {
    /// The default of its kind.
    OfKind,
    /// True.
    True,
    /// This number.
    Number(u32),
    /// The text `RestoreBinding`.
    RestoreBinding,
    /// The text `Null`.
    NotLoaded,
    /// What this object is written in, or null where there is nothing.
    Owner,
}

impl TypeNo {
    /// The type with those that it stands on, from the lowest on.
    pub fn lineage(self) -> &'static [TypeNo]
        ensures { result.now ≡ lineage self }
    {
        match self {
            TypeNo::QtObject => &[TypeNo::QtObject],
            TypeNo::Component => &[TypeNo::QtObject, TypeNo::Component],
            TypeNo::Item => &[TypeNo::QtObject, TypeNo::Item],
            TypeNo::Timer => &[TypeNo::QtObject, TypeNo::Timer],
            TypeNo::Connections => &[TypeNo::QtObject, TypeNo::Connections],
            TypeNo::Binding => &[TypeNo::QtObject, TypeNo::Binding],
            TypeNo::State => &[TypeNo::QtObject, TypeNo::State],
            TypeNo::PropertyChanges => &[TypeNo::QtObject, TypeNo::PropertyChanges],
            TypeNo::ListModel => &[TypeNo::QtObject, TypeNo::ListModel],
            TypeNo::ListElement => &[TypeNo::ListElement],
            TypeNo::Repeater => &[TypeNo::QtObject, TypeNo::Item, TypeNo::Repeater],
            TypeNo::Loader => &[TypeNo::QtObject, TypeNo::Item, TypeNo::Loader],
            TypeNo::Host => &[TypeNo::QtObject, TypeNo::Host],
        }
    }
}

impl TypeRef {
    /// The kind of a property that is declared with this type.
    pub fn kind(self) -> PropKind
        ensures { result ≡ kind_of_type self }
    {
        if self == TypeRef::Builtin(TypeNo::Component) {
            PropKind::Component
        } else {
            PropKind::Object(self)
        }
    }
}

/// A name of a kind that is no type, and that kind.
struct KindRow(&'static str, PropKind);

/// Qt 5.15, QML Basic Types.
const BASIC_KINDS: [KindRow; 9] = [
    KindRow("int", PropKind::Int),
    KindRow("real", PropKind::Real),
    KindRow("double", PropKind::Double),
    KindRow("string", PropKind::String),
    KindRow("url", PropKind::Url),
    KindRow("color", PropKind::Color),
    KindRow("bool", PropKind::Bool),
    KindRow("var", PropKind::Var),
    KindRow("variant", PropKind::Variant),
];

/// The kind that this name is, and None exactly where it names no kind but may name a type.
pub fn basic_kind(name: &str) -> Option<PropKind>
    ensures { result ≡ basic_kind_of name.now }
{
    kind_in(&BASIC_KINDS, name)
}

/// The kind that the first of these rows has for the name.
fn kind_in(rows: &[KindRow], name: &str) -> Option<PropKind>
    ensures { result ≡ found_kind (map kind_row rows.now) name.now }
{
    'rows: for row in rows {
        if row.0 == name {
            return Some(row.1);
        }
    }
    None
}
