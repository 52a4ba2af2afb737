//! Parts that are begun behind a frame.

ghost use Rattle.std.specs.Prelude.{◌≡◌, IfOk};
ghost use Rattle.js_frames.specs.Standing.{standing};
ghost use Rattle.js_frames.specs.Moves.{Pushes};

use js_frames::{Frame, Machine, Next};
use qml_text::NoMemory;

/// Begins a part behind a new frame.
pub fn pushed(machine: &mut Machine, frame: Frame, at: usize) -> Result<Next, NoMemory>
    ensures { IfOk result (λ y. Pushes frame at (standing machine.old) (standing machine.new) y) }
{
    machine.frames.push(frame)?;
    Ok(Next::Begin(at))
}
