//! A load fault at its place.

use qml_base::{LoadCause, Place};

/// Why a document or a script file isn't loaded, with the place in it that is told.
#[derive(Clone, Copy, Debug, PartialEq, Eq)]
pub struct Fault {
    pub at: Place,
    pub cause: LoadCause,
}
