//! The frames that are open.

ghost use Rattle.std.specs.Prelude.{◌≡◌, ◌∷◌, [], OnOk, Option, MatchOption, reverse};
ghost use Rattle.js_machine.specs.Moves as moves;
ghost use Rattle.js_machine.specs.Moves.{Open, loops};
ghost use Rattle.js_machine.specs.Loops as spec;

use crate::admits::frame_admits;
use crate::open::Frame;
use qml_base::NoMemory;
use std::alloc::Global;
use std::marker::Model;

/// The frames that are open, and of each whether it stands in a loop of the same body. Contracts see them as a list, the
/// innermost in front.
#[derive(Debug, Drop)]
pub struct Stack {
    frames: Vec<Frame>,
    loops: Vec<bool>,
}

impl Model for Stack {
    ghost use Rattle.std.specs.Prelude.{List, reverse, ◌≡◌};
    ghost use Rattle.js_machine.specs.declared.open.Frame as f;
    ghost use Rattle.js_machine.specs.Loops.{each_loops};

    ghost Value = { List f.Frame };

    ghost view = { λ o. reverse o.frames.items };

    ghost invariant = { λ o. reverse o.loops.items ≡ each_loops (reverse o.frames.items) };
}

impl Stack {
    /// Nothing is open.
    pub fn new(alloc: Global) -> Stack
        ensures { result ≡ [] }
    {
        Stack {
            frames: Vec::new(alloc),
            loops: Vec::new(alloc),
        }
    }

    /// Whether a loop of the same body stands around what is read.
    #[tactic(auto, using(crate::proofs::LoopsLemmas::looping_now))]
    pub fn in_loop(&self) -> bool
        ensures { result ≡ loops self.now }
    {
        innermost(&self.loops)
    }

    /// Opens a frame.
    pub fn push(&mut self, frame: Frame) -> Result<(), NoMemory>
        ensures { OnOk result (self.new ≡ frame ∷ self.old) }
    {
        let looping = loops_in(frame, self.in_loop());
        match self.frames.push(frame) {
            Ok(()) => {}
            Err(_) => return Err(NoMemory),
        }
        match self.loops.push(looping) {
            Ok(()) => Ok(()),
            Err(_) => {
                self.frames.pop();
                Err(NoMemory)
            }
        }
    }

    /// Whether an expression that binds as tightly as this may stand in the innermost frame.
    pub fn admits(&self, tight: u8) -> bool
        ensures { result ≡ moves.admits self.now tight }
    {
        innermost_admits(&self.frames, tight)
    }

    /// The frames, the innermost last.
    pub fn as_slice(&self) -> &[Frame]
        ensures { reverse result.now ≡ self.now }
    {
        &self.frames
    }

    /// Closes the innermost frame.
    pub fn pop(&mut self) -> Option<Frame>
        ensures { MatchOption result ((self.old ≡ []) × (self.new ≡ [])) (λ frame. self.old ≡ frame ∷ self.new) }
    {
        self.loops.pop();
        self.frames.pop()
    }
}

/// Whether an expression that binds as tightly as this may stand in the last of these, or there is none.
fn innermost_admits(frames: &[Frame], tight: u8) -> bool
    ensures { result ≡ moves.admits (reverse frames.now) tight }
{
    match frames.last() {
        Some(frame) => frame_admits(*frame, tight),
        None => true,
    }
}

/// The last of these, or no.
fn innermost(flags: &[bool]) -> bool
    ensures { result ≡ spec.innermost (reverse flags.now) }
{
    match flags.last() {
        Some(flag) => *flag,
        None => false,
    }
}

/// Whether a loop stands around what a frame awaits, by whether one stands around the frame.
fn loops_in(frame: Frame, around: bool) -> bool
    ensures { (fs : Open) → loops fs ≡ around → result ≡ loops (frame ∷ fs) }
{
    match frame {
        Frame::When(_) | Frame::Either(_) | Frame::Block(_) => around,
        Frame::Loop(_) | Frame::For(_) => true,
        Frame::Alone
        | Frame::One
        | Frame::List
        | Frame::Paren(_)
        | Frame::Items(_)
        | Frame::Field(_)
        | Frame::Args(_, _)
        | Frame::Element(_)
        | Frame::Sign(_, _, _)
        | Frame::Chain(_, _, _)
        | Frame::Then(_)
        | Frame::Else
        | Frame::Assign
        | Frame::Expression
        | Frame::Give(_)
        | Frame::Value(_, _, _)
        | Frame::If(_)
        | Frame::While(_)
        | Frame::First(_)
        | Frame::Test(_)
        | Frame::Next(_)
        | Frame::Function(_) => false,
    }
}
