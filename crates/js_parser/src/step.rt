//! One token.

ghost use Rattle.std.specs.Prelude.{◌≡◌, IfOk, Option, Ok};
ghost use Rattle.js_machine.specs.declared.open.Now.{Now};
ghost use Rattle.js_machine.specs.Moves.{move};
ghost use Rattle.js_machine.specs.Kept.{kept_whole};
ghost use Rattle.js_machine.specs.Moved as m;
ghost use Rattle.js_machine.specs.Moved.{Moves};
ghost use Rattle.js_machine.specs.Tape.{tape};

use crate::begin::{begin, key};
use crate::behind::{dotted, have};
use crate::did::did;
use crate::header::{expect, first, next, test};
use crate::names::{give, jump, name, named};
use crate::need::need;
use js_machine::{Moved, Now, Rest, Stack};
use qml_base::NoMemory;
use qml_syntax::{Close, Mark, Node, Nodes, Token};
use std::alloc::Global;

/// Where a token leads that can come or not.
fn awaited(found: Result<Option<Now>, NoMemory>) -> Result<Moved, NoMemory>
    ensures { IfOk result (λ r. (x : Option Now) × (found ≡ Ok x) × (r ≡ m.awaited x)) }
{
    match found {
        Ok(Some(next)) => Ok(Moved::To(next)),
        Ok(None) => Ok(Moved::Stuck(Rest::Nothing)),
        Err(fault) => Err(fault),
    }
}

/// Reads one token.
pub fn step(
    nodes: &mut Nodes,
    frames: &mut Stack,
    now: Now,
    token: &Token,
    alloc: Global,
) -> Result<Moved, NoMemory>
    ensures { IfOk result (λ r. Moves (move (tape nodes.old frames.old now) token.now)
        (kept_whole (tape nodes.old frames.old now)) frames.new nodes.new r) }
{
    let place = token.place;
    let kind = &token.what;
    match now {
        Now::Need => awaited(need(nodes, frames, place, kind, alloc)),
        Now::Have(found) => have(nodes, frames, found, token, alloc),
        Now::Dotted(found) => dotted(nodes, frames, found, token, alloc),
        Now::Key(at) => awaited(key(nodes, frames, at, place, kind, alloc)),
        Now::Begin => begin(nodes, frames, place, kind, alloc),
        Now::Did => did(nodes, frames, token, alloc),
        Now::Give(at) => give(nodes, frames, at, token, alloc),
        Now::Break(at) => {
            let (by_end, by_semi) = (Node::Stop(at, Close::Auto), Node::Stop(at, Close::Semi));
            jump(nodes, frames, by_end, by_semi, token, alloc)
        }
        Now::Continue(at) => {
            let (by_end, by_semi) = (Node::Again(at, Close::Auto), Node::Again(at, Close::Semi));
            jump(nodes, frames, by_end, by_semi, token, alloc)
        }
        Now::Name(stands, at, what) => {
            awaited(name(nodes, frames, (stands, at, what), place, kind, alloc))
        }
        Now::Named(stands, at, what) => named(nodes, frames, stands, at, what, token, alloc),
        Now::First(at) => first(nodes, frames, at, place, kind, alloc),
        Now::Test(at) => test(nodes, frames, at, place, kind, alloc),
        Now::Next(at) => next(nodes, frames, at, place, kind, alloc),
        Now::Condition => Ok(expect(kind, Mark::LeftParen, Now::Need)),
        Now::Header(at) => Ok(expect(kind, Mark::LeftParen, Now::First(at))),
        Now::Colon => Ok(expect(kind, Mark::Colon, Now::Need)),
        Now::Function => Ok(expect(kind, Mark::LeftParen, Now::FunctionClose)),
        Now::FunctionClose => Ok(expect(kind, Mark::RightParen, Now::FunctionBlock)),
        Now::FunctionBlock => Ok(expect(kind, Mark::LeftBrace, Now::Begin)),
        Now::BindingClose(found) => Ok(expect(kind, Mark::RightParen, Now::Have(found))),
    }
}
