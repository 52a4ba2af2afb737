//! Bodies that wait.

use evaluation::{Effect, Ended};
use js_frames::{Here, Stack};
use js_locals::Locals;
use qml_base::ObjNo;
use qml_value::Value;

/// What goes on behind an effect.
#[derive(Drop)]
pub enum Behind {
    /// Its answer stands before the steps behind a place.
    Step(usize),
    /// This value goes back to what awaits it.
    Back(Value),
}

/// A body that waits for what its effect comes to: as whose author it began, where it stands, what it has still to do, the nodes
/// that it may still begin, and its locals.
#[derive(Drop)]
pub struct Stopped {
    pub author: ObjNo,
    pub here: Here,
    pub frames: Stack,
    pub left: u32,
    pub locals: Locals,
    pub behind: Behind,
}

/// What a body does next.
#[derive(Drop)]
pub enum Acted {
    /// An effect, and the body that waits for what it comes to.
    Effect(Effect, Stopped),
    /// Its end.
    End(Ended),
}
