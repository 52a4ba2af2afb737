//! The nodes of the tree, where the tokens end or no read prefix goes on.

ghost use Rattle.std.specs.Prelude.{◌≡◌, IfOk, Option, Some, None, if◌then◌else◌};
ghost use Rattle.js_machine.specs.Moves.{closed, is_over};
ghost use Rattle.js_machine.specs.Kept.{closed_whole, over_whole, begun_whole, kept_whole};
ghost use Rattle.js_machine.specs.Moved.{rest_whole};
ghost use Rattle.js_machine.specs.Tape.{tape};

use crate::close::close;
use crate::did::over;
use js_machine::{Frame, Have, Now, Rest, Stack, Stands};
use qml_base::NoMemory;
use qml_syntax::{Close, Node, Nodes};

/// Behind all statements: whether they are what was to be read.
fn ended(nodes: &mut Nodes, frames: &mut Stack) -> Result<bool, NoMemory>
    ensures { IfOk result (λ r. over_whole (is_over frames.old nodes.old) ≡ (if r then Some nodes.new else None)) }
{
    over(nodes, frames)?;
    match frames.pop() {
        Some(Frame::One) => Ok(true),
        Some(Frame::List) => {
            nodes.push(Node::Body)?;
            Ok(true)
        }
        _ => Ok(false),
    }
}

/// Where a statement is to come: whether a list of statements was to be read.
fn begun(nodes: &mut Nodes, frames: &mut Stack) -> Result<bool, NoMemory>
    ensures { IfOk result (λ r. begun_whole frames.old nodes.old ≡ (if r then Some nodes.new else None)) }
{
    match frames.pop() {
        Some(Frame::List) => {
            nodes.push(Node::Body)?;
            Ok(true)
        }
        _ => Ok(false),
    }
}

/// Behind an expression that nothing more can be closed of: whether it ends what was to be read.
fn closing(nodes: &mut Nodes, frames: &mut Stack, tight: u8, target: bool) -> Result<bool, NoMemory>
    ensures { IfOk result
        (λ r. closed_whole (closed nodes.old frames.old tight target) ≡ (if r then Some nodes.new else None)) }
{
    match frames.pop() {
        Some(Frame::Alone) => return Ok(true),
        Some(Frame::Expression) => nodes.push(Node::Expression(Close::Auto))?,
        Some(Frame::Give(place)) => nodes.push(Node::GiveValue(place, Close::Auto))?,
        Some(Frame::Value(Stands::Body, place, what)) => {
            nodes.push(Node::Declare(place, what, Close::Auto))?
        }
        _ => return Ok(false),
    }
    ended(nodes, frames)
}

/// What is left to do where the tokens end.
pub fn rest_of(nodes: &mut Nodes, frames: &Stack, now: Now) -> Result<Rest, NoMemory>
    ensures { IfOk result (λ rest. kept_whole (tape nodes.old frames.now now) ≡ rest_whole rest frames.now nodes.new) }
{
    match now {
        Now::Have(have) => {
            if have.stepped {
                nodes.push(Node::Steps)?;
            }
            Ok(Rest::Closing(have.tight, have.target))
        }
        Now::Begin => Ok(Rest::Begun),
        Now::Did => Ok(Rest::Ended),
        Now::Give(place) => {
            nodes.push(Node::Give(place, Close::Auto))?;
            Ok(Rest::Ended)
        }
        Now::Break(place) => {
            nodes.push(Node::Stop(place, Close::Auto))?;
            Ok(Rest::Ended)
        }
        Now::Continue(place) => {
            nodes.push(Node::Again(place, Close::Auto))?;
            Ok(Rest::Ended)
        }
        Now::Named(Stands::Body, place, what) => {
            nodes.push(Node::Declare(place, what, Close::Auto))?;
            Ok(Rest::Ended)
        }
        _ => Ok(Rest::Nothing),
    }
}

/// Does what is left to do: whether there is a tree, whose nodes these are then.
pub fn finish(nodes: &mut Nodes, frames: &mut Stack, rest: Rest) -> Result<bool, NoMemory>
    ensures { IfOk result (λ r. rest_whole rest frames.old nodes.old ≡ (if r then Some nodes.new else None)) }
{
    match rest {
        Rest::Closing(tight, target) => {
            let whole = close(nodes, frames, 0, tight, target)?;
            closing(nodes, frames, whole.0, whole.1)
        }
        Rest::Ended => ended(nodes, frames),
        Rest::Begun => begun(nodes, frames),
        Rest::Nothing => Ok(false),
    }
}
