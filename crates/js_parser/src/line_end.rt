//! Behind an expression: where a statement ends without a `;` (ECMA-262, 12.10 Automatic Semicolon Insertion). Each call
//! answers as those of `closing` do.

ghost use Rattle.std.specs.Prelude.{◌≡◌, IfOk};
ghost use Rattle.js_machine.specs.Kept.{closed_whole, kept_whole};
ghost use Rattle.js_machine.specs.Moved.{Moves};
ghost use Rattle.js_machine.specs.Moves as m;
ghost use Rattle.js_machine.specs.Tape.{tape};
ghost use Rattle.js_machine.specs.declared.open.Now.TheVariants as n;

use crate::closing::close_behind;
use crate::did::did;
use js_machine::{Frame, Have, Moved, Now, Rest, Stack, Stands, plain};
use qml_base::NoMemory;
use qml_syntax::{Close, Node, Nodes, Token};
use std::alloc::Global;

/// A token of the next statement, behind an expression that is closed.
fn end_closed(
    nodes: &mut Nodes,
    frames: &mut Stack,
    token: &Token,
    tight: u8,
    target: bool,
    alloc: Global,
) -> Result<Moved, NoMemory>
    ensures { IfOk result (λ r. Moves (m.move_end (m.closed nodes.old frames.old tight target) token.now)
        (closed_whole (m.close_at 0 frames.old nodes.old tight target)) frames.new nodes.new r) }
{
    match frames.pop() {
        Some(Frame::Expression) => nodes.push(Node::Expression(Close::Auto))?,
        Some(Frame::Give(place)) => nodes.push(Node::GiveValue(place, Close::Auto))?,
        Some(Frame::Value(Stands::Body, place, declaration)) => {
            nodes.push(Node::Declare(place, declaration, Close::Auto))?;
        }
        Some(other) => {
            frames.push(other)?;
            return Ok(Moved::Stuck(Rest::Closing(tight, target)));
        }
        None => return Ok(Moved::Stuck(Rest::Closing(tight, target))),
    }
    did(nodes, frames, token, alloc)
}

/// A token of the next statement, behind an expression.
pub fn end(
    nodes: &mut Nodes,
    frames: &mut Stack,
    have: Have,
    token: &Token,
    alloc: Global,
) -> Result<Moved, NoMemory>
    ensures { IfOk result
        (λ r. Moves (m.move_end (m.close_at 0 frames.old (m.flushed have nodes.old) have.tight have.target) token.now)
        (kept_whole (tape nodes.old frames.old (n.Have have))) frames.new nodes.new r) }
{
    let (tight, target) = close_behind(nodes, frames, have, 0)?;
    end_closed(nodes, frames, token, tight, target, alloc)
}

/// `}` of fields, or behind the last statement of a block.
pub fn brace(
    nodes: &mut Nodes,
    frames: &mut Stack,
    have: Have,
    token: &Token,
    alloc: Global,
) -> Result<Moved, NoMemory>
    ensures { IfOk result
        (λ r. Moves (m.move_brace (m.close_at 0 frames.old (m.flushed have nodes.old) have.tight have.target) token.now)
        (kept_whole (tape nodes.old frames.old (n.Have have))) frames.new nodes.new r) }
{
    let (tight, target) = close_behind(nodes, frames, have, 0)?;
    match frames.pop() {
        Some(Frame::Field(place)) => {
            nodes.push(Node::Fields(place, false))?;
            return Ok(Moved::To(Now::Have(plain())));
        }
        Some(other) => frames.push(other)?,
        None => {}
    }
    end_closed(nodes, frames, token, tight, target, alloc)
}
