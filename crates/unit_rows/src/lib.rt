//! The rows that are kept of a loaded document or script: its objects with their cells, values, handlers and names, its
//! components, its bodies, and the scripts that it imports, all by number. The definitions that say which rows a document has
//! (`specs/UnitRows.antt`) speak of these types themselves: a list of rows is seen as the list, a way as the definition's.
#![tactic(auto)]

mod bodies;
mod body;
mod given;
mod names;
mod parts;
mod row_list;
#[cfg(test)]
mod tests;
mod unit;
mod way;

pub use bodies::{BodiesFault, UnitBodies};
pub use body::BodyRow;
pub use given::{ChangeRow, GivenValue, ValueRow};
pub use names::{CellRow, HandlerRow, NameFinds, NameRow, SignalRef};
pub use parts::Places;
pub use row_list::Rows;
pub use unit::{ComponentRow, ObjectRow, Unit};
pub use way::Way;
