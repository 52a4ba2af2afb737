//! What documents give.

use crate::row_list::Rows;
use crate::way::Way;
use qml_text::Text;
use qml_value::Value;

/// What is given for a cell.
#[derive(Drop)]
pub enum GivenValue {
    /// A literal, as the cell's kind takes it.
    Literal(Value),
    /// What the body of a number comes to.
    Body(u32),
    /// The object of a number.
    Object(u32),
    /// The objects of a list.
    Objects(Rows<u32>),
    /// The object of an id, in the component or around it.
    Id(Text),
}

/// What is given for the cell of a place of an object that the document's instance makes.
#[derive(Drop)]
pub struct ValueRow {
    pub to: Way,
    pub place: u32,
    pub value: GivenValue,
}

/// What a PropertyChanges gives for names behind its target.
#[derive(Drop)]
pub struct ChangeRow {
    pub path: Rows<Text>,
    pub value: GivenValue,
}
