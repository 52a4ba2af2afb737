//! What types have beside cells: signals, methods, a default member, and the texts of their enumerations.

ghost use Rattle.std.specs.Prelude.{◌≡◌, map, slice_get};
ghost use Rattle.std.specs.List.{find};
ghost use Rattle.std.specs.Option.{option_map};
ghost use Rattle.qml_types.specs.Members as s;
ghost use Rattle.qml_types.specs.Members.{signal_of, name_of, signals_of, methods_of, signal_named, method_named, own_signals as own_signals_of, own_methods as own_methods_of};

use crate::kind::TypeNo;

/// A signal of a built-in type.
#[derive(Clone, Copy, Debug)]
pub struct Signal {
    /// Its place among the signals of an object of the type that aren't those of changes.
    pub place: u32,
    pub name: &'static str,
    /// The names under which a handler has what is sent.
    pub parameters: &'static [&'static str],
}

/// Qt 5.15, Timer QML Type.
const TIMER_SIGNALS: [Signal; 1] = [Signal {
    place: 0,
    name: "triggered",
    parameters: &[],
}];

/// Qt 5.15, Repeater QML Type.
const REPEATER_SIGNALS: [Signal; 2] = [
    Signal {
        place: 0,
        name: "itemAdded",
        parameters: &["index", "item"],
    },
    Signal {
        place: 1,
        name: "itemRemoved",
        parameters: &["index", "item"],
    },
];

/// Qt 5.15, Loader QML Type.
const LOADER_SIGNALS: [Signal; 1] = [Signal {
    place: 0,
    name: "loaded",
    parameters: &[],
}];

const NO_SIGNALS: [Signal; 0] = [];

/// The signals that a type has beside those of its bases, in the order of their places.
pub fn own_signals(type_no: TypeNo) -> &'static [Signal]
    ensures { map signal_of result.now ≡ own_signals_of type_no }
{
    match type_no {
        TypeNo::Timer => &TIMER_SIGNALS,
        TypeNo::Repeater => &REPEATER_SIGNALS,
        TypeNo::Loader => &LOADER_SIGNALS,
        _ => &NO_SIGNALS,
    }
}

/// The signal of this name that an object of the type has, those of its base types included, and None exactly where it has
/// none.
pub fn find_signal(type_no: TypeNo, name: &str) -> Option<&'static Signal>
    ensures { option_map (λ found. signal_of found.now) result ≡ signal_named (signals_of type_no) name.now }
{
    'bases: for base in type_no.lineage() {
        let own = signal_in(own_signals(*base), name);
        if own.is_some() {
            return own;
        }
    }
    None
}

/// The first signal of the name among these.
fn signal_in(signals: &'static [Signal], name: &str) -> Option<&'static Signal>
    ensures { option_map (λ found. signal_of found.now) result ≡ signal_named (map signal_of signals.now) name.now }
{
    'signals: for signal in signals {
        if signal.name == name {
            return Some(signal);
        }
    }
    None
}

/// A method of a built-in type.
#[derive(Clone, Copy, Debug, PartialEq, Eq)]
pub enum Method {
    /// `destroy` of every object.
    Destroy,
    /// `createObject` of a Component.
    CreateObject,
    /// `start` of a Timer.
    Start,
    /// `stop` of a Timer.
    Stop,
    /// `restart` of a Timer.
    Restart,
    /// `append` of a ListModel.
    Append,
    /// `insert` of a ListModel.
    Insert,
    /// `remove` of a ListModel.
    Remove,
    /// `move` of a ListModel.
    Move,
    /// `set` of a ListModel.
    Set,
    /// `setProperty` of a ListModel.
    SetProperty,
    /// `clear` of a ListModel.
    Clear,
    /// `get` of a ListModel.
    Get,
    /// `itemAt` of a Repeater.
    ItemAt,
    /// `call` of a Host.
    Call,
}

impl Method {
    /// Its name.
    pub fn name(self) -> &'static str
        ensures { result.now ≡ name_of self }
    {
        match self {
            Method::Destroy => "destroy",
            Method::CreateObject => "createObject",
            Method::Start => "start",
            Method::Stop => "stop",
            Method::Restart => "restart",
            Method::Append => "append",
            Method::Insert => "insert",
            Method::Remove => "remove",
            Method::Move => "move",
            Method::Set => "set",
            Method::SetProperty => "setProperty",
            Method::Clear => "clear",
            Method::Get => "get",
            Method::ItemAt => "itemAt",
            Method::Call => "call",
        }
    }
}

/// Qt 5.15, ListModel QML Type.
const LIST_MODEL_METHODS: [Method; 8] = [
    Method::Append,
    Method::Insert,
    Method::Remove,
    Method::Move,
    Method::Set,
    Method::SetProperty,
    Method::Clear,
    Method::Get,
];

/// The methods that a type has beside those of its bases (Qt 5.15, the pages of the types).
pub fn own_methods(type_no: TypeNo) -> &'static [Method]
    ensures { result.now ≡ own_methods_of type_no }
{
    match type_no {
        TypeNo::QtObject => &[Method::Destroy],
        TypeNo::Component => &[Method::CreateObject],
        TypeNo::Timer => &[Method::Start, Method::Stop, Method::Restart],
        TypeNo::ListModel => &LIST_MODEL_METHODS,
        TypeNo::Repeater => &[Method::ItemAt],
        TypeNo::Host => &[Method::Call],
        _ => &[],
    }
}

/// The method of this name that an object of the type has, those of its base types included, and None exactly where it has
/// none.
pub fn find_method(type_no: TypeNo, name: &str) -> Option<Method>
    ensures { result ≡ method_named (methods_of type_no) name.now }
{
    'bases: for base in type_no.lineage() {
        let own = method_in(own_methods(*base), name);
        if own.is_some() {
            return own;
        }
    }
    None
}

/// The first method of the name among these.
fn method_in(methods: &[Method], name: &str) -> Option<Method>
    ensures { result ≡ method_named methods.now name.now }
{
    'methods: for method in methods {
        if method.name() == name {
            return Some(*method);
        }
    }
    None
}

/// Where objects go that are written in an object and for no property.
#[derive(Clone, Copy, Debug, PartialEq, Eq)]
pub enum DefaultMember {
    /// To the property at this place.
    Property(u32),
    /// Among the children of an Item, under the name `data`, which is no cell.
    Children,
    /// Into a Component, which holds one.
    Held,
    /// Among the rows of a ListModel.
    Rows,
}

/// Where objects go that are written in an object of the type and for no property, and None exactly where none may stand
/// there.
pub fn default_member(type_no: TypeNo) -> Option<DefaultMember>
    ensures { result ≡ s.default_member type_no }
{
    match type_no {
        TypeNo::Component => Some(DefaultMember::Held),
        TypeNo::Item | TypeNo::Loader => Some(DefaultMember::Children),
        TypeNo::State => Some(DefaultMember::Property(4)),
        TypeNo::ListModel => Some(DefaultMember::Rows),
        TypeNo::Repeater => Some(DefaultMember::Property(14)),
        _ => None,
    }
}

/// An enumeration with its texts.
pub struct Enumeration {
    pub name: &'static str,
    pub texts: &'static [&'static str],
}

/// Qt 5.15, `Loader.status` and `Binding.restoreMode`.
const ENUMERATIONS: [Enumeration; 2] = [
    Enumeration {
        name: "Loader",
        texts: &["Null", "Ready", "Error"],
    },
    Enumeration {
        name: "Binding",
        texts: &[
            "RestoreNone",
            "RestoreBinding",
            "RestoreValue",
            "RestoreBindingOrValue",
        ],
    },
];

/// The texts of the enumeration that the global of this name is, and None exactly where it is none. Each text is what the
/// enumeration gives behind a dot.
pub fn enumeration_texts(name: &str) -> Option<&'static [&'static str]>
    ensures { option_map (λ texts. map (λ text. text.now) texts.now) result ≡ s.enumeration name.now }
{
    texts_in(&ENUMERATIONS, name)
}

/// The texts of the first of these that has the name.
fn texts_in(known: &'static [Enumeration], name: &str) -> Option<&'static [&'static str]>
    ensures { option_map (λ texts. map (λ text. text.now) texts.now) result ≡
        s.texts_in (map s.enumeration_of known.now) name.now }
{
    'known: for enumeration in known {
        if enumeration.name == name {
            return Some(enumeration.texts);
        }
    }
    None
}
