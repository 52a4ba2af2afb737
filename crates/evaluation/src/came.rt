//! What evaluations come to, and what reading a cell gives.

use qml_base::{Cause, CellNo};
use qml_value::Value;

/// What an evaluation comes to: a value, a throw, a loop of bindings that read one another, or a number past the limit.
#[derive(Debug, Drop)]
pub enum Came {
    Value(Value),
    Threw(Cause),
    Loop,
    Past,
}

/// What code itself comes to. That bindings read one another in a loop is told by what is read alone.
#[derive(Debug, Drop)]
pub enum Ended {
    Value(Value),
    Threw(Cause),
    Past,
}

/// What a call that evaluates answers: what the evaluation comes to, the first cell read that isn't ready, or that there
/// was no memory.
#[derive(Debug, Drop)]
pub enum Evaluated {
    Value(Value),
    Threw(Cause),
    Loop,
    Past,
    Need(CellNo),
    NoMemory,
}

/// What reading a cell gives.
#[derive(Drop)]
pub enum Seen<'a> {
    /// The value that it shows.
    Is(&'a Value),
    /// It loops.
    Loop,
    /// It is past the limit of numbers.
    Past,
    /// It isn't ready.
    Need,
}
