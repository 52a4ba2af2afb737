//! What is done in code.

use qml_base::Place;

/// What is done in code, where it isn't asked yet what names find. A number is the place of a node.
#[derive(Clone, Copy, Debug)]
pub enum Doing {
    /// An effect at this place.
    Effect(Place),
    /// The call of what a name finds that is no local.
    CallsName(usize),
    /// The call of a member of what such a name finds.
    CallsOf { name: usize, member: usize },
    /// The call of a member of another value, where no effect may be.
    CallsMember(usize),
    /// A `Qt.binding` that can't stand at this place.
    Misbinds(Place),
}
