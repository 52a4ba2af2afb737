//! Members as they are kept.

use qml_base::Place;
use qml_syntax::Adjective;
use qml_text::Text;

/// A path of names: the first with its place, and those behind dots.
#[derive(Debug, Drop)]
pub struct NamePath {
    pub first: Text,
    pub at: Place,
    pub rest: Vec<Text>,
}

/// A member of an object or of a group. Values, kinds, functions and objects are told by the place of their node in the
/// tree.
#[derive(Debug, Drop)]
pub enum Member {
    /// An id: the place of the word `id`, the name and its place.
    Id {
        word: Place,
        name: Text,
        at: Place,
    },
    /// A property, with a value or without: the place of its first token, and its name and that name's place.
    Property {
        at: Place,
        adjective: Adjective,
        kind: usize,
        name: Text,
        name_at: Place,
        value: Option<usize>,
    },
    /// An alias, with `default` before it or not, and the path of its target.
    Alias {
        at: Place,
        default: bool,
        name: Text,
        name_at: Place,
        target: NamePath,
    },
    /// A signal, and the names of its parameters.
    Signal {
        at: Place,
        name: Text,
        name_at: Place,
        parameters: Vec<Text>,
    },
    /// A function: the place of the word `function`, that of its node, its name and that name's place.
    Method {
        at: Place,
        function: usize,
        name: Text,
        name_at: Place,
    },
    /// A path and the value that is given to it.
    Given {
        path: NamePath,
        value: usize,
    },
    /// A group: its path.
    Group {
        path: NamePath,
    },
    /// An object as a member.
    Child {
        object: usize,
    },
}
