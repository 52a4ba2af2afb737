//! Behind an expression: operators, choices, assignments and steps (ECMA-262, 13.3 Left-Hand-Side Expressions to 13.15
//! Assignment Operators). Each call answers as those of `closing` do.

ghost use Rattle.std.specs.Prelude.{◌≡◌, ◌∷◌, ◌&&◌, true, nat_le, Option, Some, None, if◌then◌else◌, IfOk};
ghost use Rattle.qml_syntax.specs.Levels as l;
ghost use Rattle.qml_syntax.specs.declared.node.Node.TheVariants as node;
ghost use Rattle.js_machine.specs.Kept.{closed_whole, kept_whole};
ghost use Rattle.js_machine.specs.Moved.{Moves};
ghost use Rattle.js_machine.specs.Moves as m;
ghost use Rattle.js_machine.specs.Roles.{that_role};
ghost use Rattle.js_machine.specs.Tape.{Tape, tape};
ghost use Rattle.js_machine.specs.declared.open.Frame.TheVariants as f;
ghost use Rattle.js_machine.specs.declared.open.Now.TheVariants as n;

use crate::closing::{bracket, close_behind, colon, comma, flush, paren, semicolon};
use crate::line_end::{brace, end};
use js_machine::{
    Frame, Have, Moved, Now, Reach, Rest, Role, Stack, copied, ends_line, last_of, member_reach,
    of_bumped, of_step_to, role_of,
};
use qml_base::{NoMemory, Place};
use qml_syntax::{Assignment, Node, Nodes, Operator, Postfix, Token, TokenKind};
use std::alloc::Global;

/// A token with which no read prefix goes on: the expression stays, with its steps, to be closed.
fn stuck(nodes: &mut Nodes, have: Have) -> Result<Moved, NoMemory>
    ensures { IfOk result
        (λ r. (fs : m.Open) → Moves None (kept_whole (tape nodes.old fs (n.Have have))) fs nodes.new r) }
{
    flush(nodes, &have)?;
    Ok(Moved::Stuck(Rest::Closing(have.tight, have.target)))
}

/// An operator that begins a chain, where its left operand binds tightly enough and such a chain may stand here.
fn begin_chain(
    nodes: &Nodes,
    frames: &mut Stack,
    operator: Operator,
    place: Place,
    tight: u8,
    target: bool,
) -> Result<Moved, NoMemory>
    ensures { IfOk result (λ r. Moves (m.begin_chain operator place (m.closed nodes.now frames.old tight target))
        (closed_whole (m.close_at 0 frames.old nodes.now tight target)) frames.new nodes.now r) }
{
    if operator.operand() <= tight && frames.admits(operator.level()) {
        frames.push(Frame::Chain(true, operator, place))?;
        Ok(Moved::To(Now::Need))
    } else {
        Ok(Moved::Stuck(Rest::Closing(tight, target)))
    }
}

/// An operator between two operands: it goes on with a chain of its level, or begins one (ECMA-262, 13.6 to 13.13).
fn operator(
    nodes: &mut Nodes,
    frames: &mut Stack,
    have: Have,
    operator: Operator,
    place: Place,
) -> Result<Moved, NoMemory>
    ensures { IfOk result (λ r. Moves (m.move_operator operator place
        (m.close_at (l.level operator) frames.old (m.flushed have nodes.old) have.tight have.target))
        (kept_whole (tape nodes.old frames.old (n.Have have))) frames.new nodes.new r) }
{
    let (tight, target) = close_behind(nodes, frames, have, operator.level())?;
    match frames.pop() {
        Some(Frame::Chain(first, before, at)) => {
            if before.level() == operator.level() {
                nodes.push(Node::Link(first, before, at))?;
                frames.push(Frame::Chain(false, operator, place))?;
                return Ok(Moved::To(Now::Need));
            }
            frames.push(Frame::Chain(first, before, at))?;
        }
        Some(other) => frames.push(other)?,
        None => {}
    }
    begin_chain(nodes, frames, operator, place, tight, target)
}

/// `?` of a choice that is no last part of another one.
fn begin_choice(
    nodes: &Nodes,
    frames: &mut Stack,
    tight: u8,
    target: bool,
) -> Result<Moved, NoMemory>
    ensures { IfOk result (λ r.
        Moves (if nat_le 2 tight && m.admits frames.old 1 then Some (tape nodes.now (f.Then true ∷ frames.old) n.Need)
        else None) (closed_whole (m.close_at 0 frames.old nodes.now tight target)) frames.new nodes.now r) }
{
    if 2 <= tight && frames.admits(1) {
        frames.push(Frame::Then(true))?;
        Ok(Moved::To(Now::Need))
    } else {
        Ok(Moved::Stuck(Rest::Closing(tight, target)))
    }
}

/// `?` (ECMA-262, 13.14 Conditional Operator).
fn question(nodes: &mut Nodes, frames: &mut Stack, have: Have) -> Result<Moved, NoMemory>
    ensures { IfOk result (λ r. Moves (m.move_question (m.close_at 1 frames.old (m.flushed have nodes.old)
        have.tight have.target)) (kept_whole (tape nodes.old frames.old (n.Have have))) frames.new nodes.new r) }
{
    let (tight, target) = close_behind(nodes, frames, have, 1)?;
    match frames.pop() {
        Some(Frame::Else) => {
            if 2 <= tight {
                frames.push(Frame::Then(false))?;
                Ok(Moved::To(Now::Need))
            } else {
                frames.push(Frame::Else)?;
                Ok(Moved::Stuck(Rest::Closing(tight, target)))
            }
        }
        Some(other) => {
            frames.push(other)?;
            begin_choice(nodes, frames, tight, target)
        }
        None => begin_choice(nodes, frames, tight, target),
    }
}

/// The first operator that assigns, behind what may be assigned to.
fn begin_update(
    nodes: &mut Nodes,
    frames: &mut Stack,
    assignment: Assignment,
    place: Place,
    tight: u8,
    target: bool,
) -> Result<Moved, NoMemory>
    ensures { IfOk result (λ r. Moves (if target && m.admits frames.old 0 then Some
        (tape (node.Target true assignment place ∷ nodes.old) (f.Assign ∷ frames.old) n.Need) else None)
        (closed_whole (m.close_at 0 frames.old nodes.old tight target)) frames.new nodes.new r) }
{
    if target && frames.admits(0) {
        nodes.push(Node::Target(true, assignment, place))?;
        frames.push(Frame::Assign)?;
        Ok(Moved::To(Now::Need))
    } else {
        Ok(Moved::Stuck(Rest::Closing(tight, target)))
    }
}

/// An operator that assigns (ECMA-262, 13.15 Assignment Operators).
fn update(
    nodes: &mut Nodes,
    frames: &mut Stack,
    have: Have,
    assignment: Assignment,
    place: Place,
) -> Result<Moved, NoMemory>
    ensures { IfOk result (λ r. Moves (m.move_update assignment place frames.old (m.flushed have nodes.old) have.target)
        (kept_whole (tape nodes.old frames.old (n.Have have))) frames.new nodes.new r) }
{
    flush(nodes, &have)?;
    match frames.pop() {
        Some(Frame::Assign) => {
            frames.push(Frame::Assign)?;
            if have.target {
                nodes.push(Node::Target(false, assignment, place))?;
                return Ok(Moved::To(Now::Need));
            }
            return Ok(Moved::Stuck(Rest::Closing(have.tight, have.target)));
        }
        Some(other) => frames.push(other)?,
        None => {}
    }
    begin_update(nodes, frames, assignment, place, have.tight, have.target)
}

/// `++` or `--` on the line of what it is behind (ECMA-262, 13.4 Update Expressions).
fn bump(
    nodes: &mut Nodes,
    frames: &Stack,
    have: Have,
    postfix: Postfix,
    place: Place,
) -> Result<Moved, NoMemory>
    ensures { IfOk result (λ r. Moves (if have.target && m.admits frames.now 14 then Some
        (tape (node.Postfix postfix place ∷ m.flushed have nodes.old) frames.now (n.Have m.of_bumped)) else None)
        (kept_whole (tape nodes.old frames.now (n.Have have))) frames.now nodes.new r) }
{
    flush(nodes, &have)?;
    if have.target && frames.admits(14) {
        nodes.push(Node::Postfix(postfix, place))?;
        Ok(Moved::To(Now::Have(of_bumped())))
    } else {
        Ok(Moved::Stuck(Rest::Closing(have.tight, have.target)))
    }
}

/// `.` before the name of a member (ECMA-262, 13.3 Left-Hand-Side Expressions).
fn dot(nodes: &mut Nodes, frames: &Stack, have: Have) -> Result<Moved, NoMemory>
    ensures { IfOk result (λ r. Moves (if have.primary then Some (tape nodes.old frames.now (n.Dotted have)) else None)
        (kept_whole (tape nodes.old frames.now (n.Have have))) frames.now nodes.new r) }
{
    if have.primary {
        Ok(Moved::To(Now::Dotted(have)))
    } else {
        stuck(nodes, have)
    }
}

/// `(` of a call.
fn call(nodes: &mut Nodes, frames: &mut Stack, have: Have, place: Place) -> Result<Moved, NoMemory>
    ensures { IfOk result (λ r. Moves (if have.primary then Some
        (tape (node.Mark ∷ nodes.old) (f.Args place (m.is_reach_binding have.reach) ∷ frames.old) n.Need) else None)
        (kept_whole (tape nodes.old frames.old (n.Have have))) frames.new nodes.new r) }
{
    if have.primary {
        nodes.push(Node::Mark)?;
        frames.push(Frame::Args(place, have.reach == Reach::Binding))?;
        Ok(Moved::To(Now::Need))
    } else {
        stuck(nodes, have)
    }
}

/// `[` of a step to an element.
fn index(nodes: &mut Nodes, frames: &mut Stack, have: Have, place: Place) -> Result<Moved, NoMemory>
    ensures { IfOk result (λ r. Moves (if have.primary then Some (tape nodes.old (f.Element place ∷ frames.old) n.Need)
        else None) (kept_whole (tape nodes.old frames.old (n.Have have))) frames.new nodes.new r) }
{
    if have.primary {
        frames.push(Frame::Element(place))?;
        Ok(Moved::To(Now::Need))
    } else {
        stuck(nodes, have)
    }
}

/// A token that goes on with the expression or closes it.
fn by_role(
    nodes: &mut Nodes,
    frames: &mut Stack,
    have: Have,
    token: &Token,
    role: Role,
    alloc: Global,
) -> Result<Moved, NoMemory>
    ensures { IfOk result (λ r. Moves (m.move_role have frames.old nodes.old token.now (that_role role))
        (kept_whole (tape nodes.old frames.old (n.Have have))) frames.new nodes.new r) }
{
    let place = token.place;
    match role {
        Role::Joins(joining) => operator(nodes, frames, have, joining, place),
        Role::Updates(assignment) => update(nodes, frames, have, assignment, place),
        Role::Bumps(postfix) => bump(nodes, frames, have, postfix, place),
        Role::Question => question(nodes, frames, have),
        Role::Dot => dot(nodes, frames, have),
        Role::Calls => call(nodes, frames, have, place),
        Role::Indexes => index(nodes, frames, have, place),
        Role::Colon => colon(nodes, frames, have),
        Role::Closes => paren(nodes, frames, have),
        Role::Shuts => bracket(nodes, frames, have),
        Role::Comma => comma(nodes, frames, have),
        Role::Semicolon => semicolon(nodes, frames, have),
        Role::Brace => brace(nodes, frames, have, token, alloc),
        Role::Other => stuck(nodes, have),
    }
}

/// A token behind an expression. A line end ends the statement where the token can't go on with it; else its role says
/// what it does.
pub fn have(
    nodes: &mut Nodes,
    frames: &mut Stack,
    have: Have,
    token: &Token,
    alloc: Global,
) -> Result<Moved, NoMemory>
    ensures { IfOk result (λ r. Moves (m.move_have have frames.old nodes.old token.now)
        (kept_whole (tape nodes.old frames.old (n.Have have))) frames.new nodes.new r) }
{
    if ends_line(last_of(have.callable), token) {
        end(nodes, frames, have, token, alloc)
    } else {
        by_role(nodes, frames, have, token, role_of(&token.what), alloc)
    }
}

/// A token behind an expression and a dot: the name of a member, and nothing else.
pub fn dotted(
    nodes: &mut Nodes,
    frames: &Stack,
    have: Have,
    token: &Token,
    alloc: Global,
) -> Result<Moved, NoMemory>
    ensures { IfOk result (λ r. Moves (m.move_dotted have frames.now nodes.old token.now.place token.now.what)
        (kept_whole (tape nodes.old frames.now (n.Dotted have))) frames.now nodes.new r) }
{
    match &token.what {
        TokenKind::Name(name) => {
            let reach = member_reach(have.reach, name);
            nodes.push(Node::Member(copied(name, alloc)?, token.place))?;
            Ok(Moved::To(Now::Have(of_step_to(true, reach))))
        }
        TokenKind::Number(_)
        | TokenKind::Version
        | TokenKind::Text(_)
        | TokenKind::Mark(_)
        | TokenKind::Word(_)
        | TokenKind::End => Ok(Moved::Stuck(Rest::Nothing)),
    }
}
