//! What goes on behind a statement, and behind `return`, `break` and `continue`.

ghost use Rattle.std.specs.Prelude.{◌≡◌, ◌∷◌, IfOk};
ghost use Rattle.js_meaning.specs.Eval.{most};
ghost use Rattle.js_locals.specs.Laid.{laid};
ghost use Rattle.js_frames.specs.Standing.{standing};
ghost use Rattle.js_frames.specs.Statements.{Leaves, GoesOn, Gives, Stops, GoesAgain};

use crate::statements::{MOST, for_looped, for_updated, looped};
use js_frames::{Frame, Machine, Next};
use js_locals::leave;
use qml_syntax::Tree;
use qml_text::NoMemory;
use qml_value::Value;

/// Leaves the innermost scope.
#[tactic(auto, using(js_locals::proofs::ScopeLemmas::left_scopes))]
fn left(machine: &mut Machine, tree: &Tree, next: Next) -> Next
    ensures { Leaves (laid tree.now) next (standing machine.old) (standing machine.new) result }
{
    let _root = tree.root();
    leave(&mut machine.locals);
    next
}

/// Goes on behind a statement.
pub fn goes_on(machine: &mut Machine, tree: &Tree, frame: &Frame) -> Result<Next, NoMemory>
    ensures { IfOk result (λ y. GoesOn (laid tree.now) frame.now (standing machine.old) (standing machine.new) y) }
{
    match frame {
        Frame::Statements(part) => Ok(Next::Rest(*part)),
        Frame::Scope => Ok(left(machine, tree, Next::Done)),
        Frame::Round(rounds, test) => looped(machine, *rounds, *test),
        Frame::ForStart(at) => for_looped(machine, tree, MOST, *at),
        Frame::ForRound(rounds, at) => {
            let next = for_updated(machine, tree, *rounds, *at)?;
            Ok(next)
        }
        _ => Err(NoMemory),
    }
}

/// Goes on behind a `return` with this value.
pub fn gives(
    machine: &mut Machine,
    tree: &Tree,
    frame: &Frame,
    value: Value,
) -> Result<Next, NoMemory>
    ensures { IfOk result (λ y. Gives (laid tree.now) frame.now value (standing machine.old) (standing machine.new) y) }
{
    match frame {
        Frame::Statements(_) => Ok(Next::Give(value)),
        Frame::Scope => Ok(left(machine, tree, Next::Give(value))),
        Frame::Round(_, _) => Ok(Next::Give(value)),
        Frame::ForRound(_, _) => Ok(Next::Give(value)),
        _ => Err(NoMemory),
    }
}

/// Goes on behind a `break`.
pub fn stops(machine: &mut Machine, tree: &Tree, frame: &Frame) -> Result<Next, NoMemory>
    ensures { IfOk result (λ y. Stops (laid tree.now) frame.now (standing machine.old) (standing machine.new) y) }
{
    match frame {
        Frame::Statements(_) => Ok(Next::Stop),
        Frame::Scope => Ok(left(machine, tree, Next::Stop)),
        Frame::Round(_, _) => Ok(Next::Done),
        Frame::ForRound(_, _) => Ok(Next::Done),
        _ => Err(NoMemory),
    }
}

/// Goes on behind a `continue`.
pub fn goes_again(machine: &mut Machine, tree: &Tree, frame: &Frame) -> Result<Next, NoMemory>
    ensures { IfOk result (λ y. GoesAgain (laid tree.now) frame.now (standing machine.old) (standing machine.new) y) }
{
    match frame {
        Frame::Statements(_) => Ok(Next::Again),
        Frame::Scope => Ok(left(machine, tree, Next::Again)),
        Frame::Round(rounds, test) => looped(machine, *rounds, *test),
        Frame::ForRound(rounds, at) => {
            let next = for_updated(machine, tree, *rounds, *at)?;
            Ok(next)
        }
        _ => Err(NoMemory),
    }
}
