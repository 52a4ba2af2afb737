//! Why a run stops.

use qml_base::ObjNo;
use qml_text::Text;
use trace_print::Site;

/// Why a run stops before its end.
#[derive(Debug, Drop)]
pub enum Stop {
    /// A number came past 2^53, in the binding of a cell, in a handler or in a line.
    Past(Site),
    /// More than 24 deliveries would be under way in one another: at this object's handler, or at a start or a reaction.
    Nesting(ObjNo, Option<Text>),
    /// The line has had its deliveries.
    Turns,
    /// More than 100,000 objects would be live, or a number above 4,294,967,295 would be given.
    Objects,
    /// There is no further answer from outside.
    Unanswered,
}
