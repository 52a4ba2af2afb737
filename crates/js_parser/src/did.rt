//! Behind a statement.

ghost use Rattle.std.specs.Prelude.{◌≡◌, ◌∷◌, IfOk, Bool, true, false, length, suc, Option, None, MatchOption};
ghost use Rattle.js_machine.specs.Moves.{Open, is_over, over_at, move_else, move_placed, move_did};
ghost use Rattle.js_machine.specs.Kept.{over_whole};
ghost use Rattle.js_machine.specs.Moved.{Moves};
ghost use Rattle.js_parser.specs.Ends.{Passes};

use crate::begin::begin;
use js_machine::{Frame, Moved, Now, Rest, Stack};
use qml_base::{NoMemory, Place};
use qml_syntax::{Node, Nodes, Token, TokenKind, Word};
use std::alloc::Global;

/// Ends the statement that a frame awaits, where the frame is one that a statement ends.
fn pass(nodes: &mut Nodes, frame: Frame) -> Result<bool, NoMemory>
    ensures { IfOk result (λ passed. Passes frame nodes.old nodes.new passed) }
{
    let node = match frame {
        Frame::When(place) => Node::When(place),
        Frame::Either(place) => Node::Either(place),
        Frame::Loop(place) => Node::While(place),
        Frame::For(place) => Node::For(place),
        _ => return Ok(false),
    };
    nodes.push(node)?;
    Ok(true)
}

/// Ends all statements that end where no `else` comes.
pub fn over(nodes: &mut Nodes, frames: &mut Stack) -> Result<(), NoMemory>
    ensures { IfOk result (λ _. is_over frames.old nodes.old ≡ over_at nodes.new frames.new) }
{
    while let Some(frame) = frames.pop() {
        let passed = pass(nodes, frame)?;
        if !passed {
            frames.push(frame)?;
            return Ok(());
        }
    }
    Ok(())
}

/// An `else`, which stands behind the innermost `if` that has none.
fn else_behind(nodes: &mut Nodes, frames: &mut Stack) -> Result<Moved, NoMemory>
    ensures { IfOk result (λ r.
        Moves (move_else frames.old nodes.old) (over_whole (is_over frames.old nodes.old)) frames.new nodes.new r) }
{
    while let Some(frame) = frames.pop() {
        if let Frame::When(place) = frame {
            frames.push(Frame::Either(place))?;
            return Ok(Moved::To(Now::Begin));
        }
        let passed = pass(nodes, frame)?;
        if !passed {
            frames.push(frame)?;
            return Ok(Moved::Stuck(Rest::Ended));
        }
    }
    Ok(Moved::Stuck(Rest::Ended))
}

/// Another statement, where all have been ended.
fn placed(
    nodes: &mut Nodes,
    frames: &mut Stack,
    place: Place,
    kind: &TokenKind,
    alloc: Global,
) -> Result<Moved, NoMemory>
    ensures { IfOk result (λ r. Moves (move_placed (over_at nodes.old frames.old) place kind.now)
        (over_whole (over_at nodes.old frames.old)) frames.new nodes.new r) }
{
    let Some(frame) = frames.pop() else {
        return Ok(Moved::Stuck(Rest::Ended));
    };
    frames.push(frame)?;
    match frame {
        Frame::List | Frame::Block(_) | Frame::Function(_) => {
            begin(nodes, frames, place, kind, alloc)
        }
        Frame::When(_) | Frame::Either(_) | Frame::Loop(_) | Frame::For(_) => {
            Ok(Moved::Stuck(Rest::Nothing))
        }
        _ => Ok(Moved::Stuck(Rest::Ended)),
    }
}

/// A token behind a statement.
pub fn did(
    nodes: &mut Nodes,
    frames: &mut Stack,
    token: &Token,
    alloc: Global,
) -> Result<Moved, NoMemory>
    ensures { IfOk result (λ r. Moves
        (move_did frames.old nodes.old token.now) (over_whole (is_over frames.old nodes.old)) frames.new nodes.new r) }
{
    if token.what.is_word(Word::Else) {
        else_behind(nodes, frames)
    } else {
        over(nodes, frames)?;
        placed(nodes, frames, token.place, &token.what, alloc)
    }
}
