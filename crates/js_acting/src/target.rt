//! What is assigned to.

use qml_base::{Cause, CellNo};

/// What is assigned to.
#[derive(Clone, Copy)]
pub enum Target {
    /// This cell.
    Cell(CellNo),
    /// Nothing: it throws.
    Throws(Cause),
}
