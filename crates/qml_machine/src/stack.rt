//! What is open around what is read.

ghost use Rattle.std.specs.Prelude.{◌≡◌, ◌∷◌, [], OnOk, MatchOption};

use crate::state::Frame;
use qml_base::NoMemory;
use std::alloc::Global;
use std::marker::Model;

/// What is open. Contracts see it as a list, the innermost in front.
#[derive(Debug, Drop)]
pub struct Frames {
    frames: Vec<Frame>,
}

impl Model for Frames {
    ghost use Rattle.std.specs.Prelude.{List, reverse};
    ghost use Rattle.qml_machine.specs.declared.state.Frame as f;

    ghost Value = { List f.Frame };

    ghost view = { λ o. reverse o.frames.items };
}

impl Frames {
    /// Nothing is open.
    pub fn new(alloc: Global) -> Frames
        ensures { result ≡ [] }
    {
        Frames {
            frames: Vec::new(alloc),
        }
    }

    /// Opens a frame. On an error nothing changes.
    pub fn push(&mut self, frame: Frame) -> Result<(), NoMemory>
        ensures { OnOk result (self.new ≡ frame ∷ self.old) }
    {
        match self.frames.push(frame) {
            Ok(()) => Ok(()),
            Err(_) => Err(NoMemory),
        }
    }

    /// Closes the innermost frame.
    pub fn pop(&mut self) -> Option<Frame>
        ensures { MatchOption result ((self.old ≡ []) × (self.new ≡ [])) (λ frame. self.old ≡ frame ∷ self.new) }
    {
        self.frames.pop()
    }

    /// Closes all frames.
    pub fn clear(&mut self)
        ensures { self.new ≡ [] }
    {
        self.frames.clear();
    }
}
