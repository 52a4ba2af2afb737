//! Closing what binds more tightly than what comes.

ghost use Rattle.std.specs.Prelude.{◌≡◌, ◌∷◌, false, IfOk, Option, MatchOption};
ghost use Rattle.qml_syntax.specs.Levels as l;
ghost use Rattle.js_machine.specs.Moves.{Open, close_at, closed};

use js_machine::{Frame, Stack, is_bump};
use qml_base::NoMemory;
use qml_syntax::{Node, Nodes};

/// Closes one frame, where it closes at this level: how tightly the whole binds then.
fn close_one(
    nodes: &mut Nodes,
    frame: Frame,
    level: u8,
    tight: u8,
    target: bool,
) -> Result<Option<u8>, NoMemory>
    ensures { IfOk result (λ r. MatchOption r
        ((nodes.new ≡ nodes.old) × ((fs : Open) → close_at level (frame ∷ fs) nodes.old tight target ≡ closed nodes.old (frame ∷ fs) tight target))
        (λ t. (fs : Open) → close_at level (frame ∷ fs) nodes.old tight target ≡ close_at level fs nodes.new t false)) }
{
    match frame {
        Frame::Sign(first, prefix, place) if !is_bump(prefix) || target => {
            nodes.push(Node::Signed(first, prefix, place))?;
            Ok(Some(13))
        }
        Frame::Chain(first, operator, place) if level < operator.level() => {
            nodes.push(Node::Chain(first, operator, place))?;
            Ok(Some(operator.level()))
        }
        Frame::Else if level == 0 => {
            nodes.push(Node::Choose)?;
            Ok(Some(1))
        }
        Frame::Assign if level == 0 => {
            nodes.push(Node::Assign)?;
            Ok(Some(0))
        }
        _ => Ok(None),
    }
}

/// Closes what binds more tightly than an operator of this level, and at 0 all that a closing token closes: how tightly
/// the whole binds, and whether it may be assigned to.
pub fn close(
    nodes: &mut Nodes,
    frames: &mut Stack,
    level: u8,
    mut tight: u8,
    mut target: bool,
) -> Result<(u8, bool), NoMemory>
    ensures { IfOk result
        (λ r. close_at level frames.old nodes.old tight target ≡ closed nodes.new frames.new r.0 r.1) }
{
    while let Some(frame) = frames.pop() {
        match close_one(nodes, frame, level, tight, target)? {
            Some(whole) => {
                tight = whole;
                target = false;
            }
            None => {
                frames.push(frame)?;
                return Ok((tight, target));
            }
        }
    }
    Ok((tight, target))
}
