//! Behind an expression: tokens that close what is open up to a bracket or a statement (ECMA-262, 13.2 Primary Expressions,
//! 13.3 Left-Hand-Side Expressions and 14 Statements and Declarations). Each call answers where the token leads; where no
//! read prefix goes on with it, the nodes and frames that stay hold the tree that was read, as `Rest` says. After an error
//! nothing is known of nodes and frames.

ghost use Rattle.std.specs.Prelude.{◌≡◌, OnOk, IfOk};
ghost use Rattle.js_machine.specs.Kept.{closed_whole, kept_whole};
ghost use Rattle.js_machine.specs.Moved.{Moves};
ghost use Rattle.js_machine.specs.Moves as m;
ghost use Rattle.js_machine.specs.Tape.{tape};
ghost use Rattle.js_machine.specs.declared.open.Now.TheVariants as n;

use crate::close::close;
use js_machine::{Frame, Have, Moved, Now, Reach, Rest, Stack, Stands, of_step_to, plain};
use qml_base::NoMemory;
use qml_syntax::{Close, Node, Nodes};

/// Makes the steps behind an expression a part of it.
pub fn flush(nodes: &mut Nodes, have: &Have) -> Result<(), NoMemory>
    ensures { OnOk result (nodes.new ≡ m.flushed have.now nodes.old) }
{
    if have.stepped {
        nodes.push(Node::Steps)?;
    }
    Ok(())
}

/// Closes, behind an expression, what binds more tightly than an operator of this level, and at 0 all that a closing
/// token closes: how tightly the whole binds, and whether it may be assigned to.
#[tactic(auto, using(crate::proofs::ClosesAsAll::closes_as_all))]
pub fn close_behind(
    nodes: &mut Nodes,
    frames: &mut Stack,
    have: Have,
    level: u8,
) -> Result<(u8, bool), NoMemory>
    ensures closes { IfOk result (λ r. m.close_at level frames.old (m.flushed have nodes.old) have.tight have.target ≡
        m.closed nodes.new frames.new r.0 r.1) }
    ensures stays { IfOk result (λ r. kept_whole (tape nodes.old frames.old (n.Have have)) ≡
        closed_whole (m.close_at 0 frames.new nodes.new r.0 r.1)) }
{
    flush(nodes, &have)?;
    close(nodes, frames, level, have.tight, have.target)
}

/// `:` of a choice.
pub fn colon(nodes: &mut Nodes, frames: &mut Stack, have: Have) -> Result<Moved, NoMemory>
    ensures { IfOk result (λ r. Moves (m.move_colon (m.close_at 0 frames.old (m.flushed have nodes.old)
        have.tight have.target)) (kept_whole (tape nodes.old frames.old (n.Have have))) frames.new nodes.new r) }
{
    let (tight, target) = close_behind(nodes, frames, have, 0)?;
    match frames.pop() {
        Some(Frame::Then(first)) => {
            nodes.push(Node::Choice(first))?;
            frames.push(Frame::Else)?;
            Ok(Moved::To(Now::Need))
        }
        Some(other) => {
            frames.push(other)?;
            Ok(Moved::Stuck(Rest::Closing(tight, target)))
        }
        None => Ok(Moved::Stuck(Rest::Closing(tight, target))),
    }
}

/// `)` of brackets, of a call, or of the condition or the header of a statement.
pub fn paren(nodes: &mut Nodes, frames: &mut Stack, have: Have) -> Result<Moved, NoMemory>
    ensures { IfOk result (λ r. Moves (m.move_paren (m.close_at 0 frames.old (m.flushed have nodes.old)
        have.tight have.target)) (kept_whole (tape nodes.old frames.old (n.Have have))) frames.new nodes.new r) }
{
    let (tight, target) = close_behind(nodes, frames, have, 0)?;
    match frames.pop() {
        Some(Frame::Paren(place)) => {
            nodes.push(Node::Paren(place))?;
            Ok(Moved::To(Now::Have(plain())))
        }
        Some(Frame::Args(place, _)) => {
            nodes.push(Node::Call(place))?;
            Ok(Moved::To(Now::Have(of_step_to(false, Reach::Elsewhere))))
        }
        Some(Frame::If(place)) => {
            frames.push(Frame::When(place))?;
            Ok(Moved::To(Now::Begin))
        }
        Some(Frame::While(place)) => {
            frames.push(Frame::Loop(place))?;
            Ok(Moved::To(Now::Begin))
        }
        Some(Frame::Next(place)) => {
            nodes.push(Node::Present)?;
            frames.push(Frame::For(place))?;
            Ok(Moved::To(Now::Begin))
        }
        Some(other) => {
            frames.push(other)?;
            Ok(Moved::Stuck(Rest::Closing(tight, target)))
        }
        None => Ok(Moved::Stuck(Rest::Closing(tight, target))),
    }
}

/// `]` of a list or of a step to an element.
pub fn bracket(nodes: &mut Nodes, frames: &mut Stack, have: Have) -> Result<Moved, NoMemory>
    ensures { IfOk result (λ r. Moves (m.move_bracket (m.close_at 0 frames.old (m.flushed have nodes.old)
        have.tight have.target)) (kept_whole (tape nodes.old frames.old (n.Have have))) frames.new nodes.new r) }
{
    let (tight, target) = close_behind(nodes, frames, have, 0)?;
    match frames.pop() {
        Some(Frame::Items(place)) => {
            nodes.push(Node::List(place, false))?;
            Ok(Moved::To(Now::Have(plain())))
        }
        Some(Frame::Element(place)) => {
            nodes.push(Node::Element(place))?;
            Ok(Moved::To(Now::Have(of_step_to(true, Reach::Elsewhere))))
        }
        Some(other) => {
            frames.push(other)?;
            Ok(Moved::Stuck(Rest::Closing(tight, target)))
        }
        None => Ok(Moved::Stuck(Rest::Closing(tight, target))),
    }
}

/// `,` between arguments, elements, fields or declared names.
pub fn comma(nodes: &mut Nodes, frames: &mut Stack, have: Have) -> Result<Moved, NoMemory>
    ensures { IfOk result (λ r. Moves (m.move_comma (m.close_at 0 frames.old (m.flushed have nodes.old)
        have.tight have.target)) (kept_whole (tape nodes.old frames.old (n.Have have))) frames.new nodes.new r) }
{
    let (tight, target) = close_behind(nodes, frames, have, 0)?;
    match frames.pop() {
        Some(Frame::Args(place, binding)) => {
            frames.push(Frame::Args(place, binding))?;
            Ok(Moved::To(Now::Need))
        }
        Some(Frame::Items(place)) => {
            frames.push(Frame::Items(place))?;
            Ok(Moved::To(Now::Need))
        }
        Some(Frame::Field(place)) => { Ok(Moved::To(Now::Key(place))) }
        Some(Frame::Value(stands, place, declaration)) => {
            Ok(Moved::To(Now::Name(stands, place, declaration)))
        }
        Some(other) => {
            frames.push(other)?;
            Ok(Moved::Stuck(Rest::Closing(tight, target)))
        }
        None => Ok(Moved::Stuck(Rest::Closing(tight, target))),
    }
}

/// `;` of a statement or of the header of a `for`.
pub fn semicolon(nodes: &mut Nodes, frames: &mut Stack, have: Have) -> Result<Moved, NoMemory>
    ensures { IfOk result (λ r. Moves (m.move_semi (m.close_at 0 frames.old (m.flushed have nodes.old)
        have.tight have.target)) (kept_whole (tape nodes.old frames.old (n.Have have))) frames.new nodes.new r) }
{
    let (tight, target) = close_behind(nodes, frames, have, 0)?;
    match frames.pop() {
        Some(Frame::Expression) => {
            nodes.push(Node::Expression(Close::Semi))?;
            Ok(Moved::To(Now::Did))
        }
        Some(Frame::Give(place)) => {
            nodes.push(Node::GiveValue(place, Close::Semi))?;
            Ok(Moved::To(Now::Did))
        }
        Some(Frame::Value(Stands::Body, place, declaration)) => {
            nodes.push(Node::Declare(place, declaration, Close::Semi))?;
            Ok(Moved::To(Now::Did))
        }
        Some(Frame::Value(Stands::Header(at), place, declaration)) => {
            nodes.push(Node::FirstDeclare(place, declaration))?;
            Ok(Moved::To(Now::Test(at)))
        }
        Some(Frame::First(place)) => {
            nodes.push(Node::FirstExpression)?;
            Ok(Moved::To(Now::Test(place)))
        }
        Some(Frame::Test(place)) => {
            nodes.push(Node::Present)?;
            Ok(Moved::To(Now::Next(place)))
        }
        Some(other) => {
            frames.push(other)?;
            Ok(Moved::Stuck(Rest::Closing(tight, target)))
        }
        None => Ok(Moved::Stuck(Rest::Closing(tight, target))),
    }
}
