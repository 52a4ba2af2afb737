//! Bodies as rows.

use crate::row_list::Rows;
use qml_text::Text;

/// A body, by the place of its part in the unit's tree.
#[derive(Drop)]
pub enum BodyRow {
    /// A statement, with a handler's parameters.
    Statement { at: u32, parameters: Rows<Text> },
    Function { at: u32 },
    /// The statements of the function of a `Qt.binding`, or of a line of a script.
    Statements { at: u32 },
}
