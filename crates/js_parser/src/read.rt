//! Reading tokens until one with which no read prefix goes on.

ghost use Rattle.std.specs.Prelude.{◌≡◌, ◌≤◌, length, IfOk, Option, Some, None, drop, if◌then◌else◌};
ghost use Rattle.js_machine.specs.Kept.{kept_go};
ghost use Rattle.js_machine.specs.Tape.{tape};

use crate::finish::{finish, rest_of};
use crate::step::step;
use js_machine::{Moved, Now, Stack};
use qml_base::NoMemory;
use qml_syntax::{Nodes, Token};
use std::alloc::Global;

/// Reads tokens: whether there is a tree, whose nodes these are then, and how many tokens are read.
pub fn read(
    nodes: &mut Nodes,
    frames: &mut Stack,
    start: Now,
    tokens: &[Token],
    alloc: Global,
) -> Result<(bool, usize), NoMemory>
    ensures { IfOk result (λ r. (kept_go tokens.now (tape nodes.old frames.old start) ≡
        record { tree = if r.0 then Some nodes.new else None; rest = drop r.1 tokens.now }) ×
        (r.1 ≤ length tokens.now)) }
{
    let mut now = start;
    let mut count = 0;
    for token in tokens {
        let moved = step(nodes, frames, now, token, alloc)?;
        match moved {
            Moved::To(next) => now = next,
            Moved::Stuck(rest) => {
                let found = finish(nodes, frames, rest)?;
                return Ok((found, count));
            }
        }
        count += 1;
    }
    let rest = rest_of(nodes, frames, now)?;
    let found = finish(nodes, frames, rest)?;
    Ok((found, count))
}
