//! Where a token leads.

use qml_base::Place;
use qml_machine::Now;

/// What is read next.
#[derive(Clone, Copy, Debug, PartialEq, Eq)]
pub enum Next {
    /// What stands behind this.
    To(Now),
    /// A value, from its start.
    Value,
    /// The block of the function at a place, from its start.
    Block(Place),
}

/// What has been read: of the document, of a value, or of the block of the function at a place.
#[derive(Clone, Copy, Debug, PartialEq, Eq)]
pub enum State {
    At(Now),
    Value(js_machine::Now),
    Body(Place, js_machine::Now),
}
