//! A machine under way.

ghost use Rattle.std.specs.Prelude.{◌≡◌, []};

use crate::frames::Stack;
use js_locals::Locals;
use qml_base::CellNo;
use std::alloc::Global;

/// A machine under way: what it has still to do, the cells that it has read, the nodes that it may still begin, and the
/// locals of the call that is under way.
#[derive(Drop)]
pub struct Machine {
    pub frames: Stack,
    pub reads: Vec<CellNo>,
    pub left: u32,
    pub locals: Locals,
}
