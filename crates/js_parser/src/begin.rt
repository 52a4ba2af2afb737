//! Where a statement is to come, and where a key of fields is.

ghost use Rattle.std.specs.Prelude.{◌≡◌, ◌∷◌, IfOk, Option, Some, None, MatchOption, if◌then◌else◌};
ghost use Rattle.js_machine.specs.Moves.{move_need, move_key, move_block, move_begin, loops};
ghost use Rattle.js_machine.specs.Kept.{begun_whole};
ghost use Rattle.js_machine.specs.Moved.{Moves};
ghost use Rattle.js_machine.specs.Tape.{tape};
ghost use Rattle.js_machine.specs.declared.open.Frame.TheVariants as f;
ghost use Rattle.js_machine.specs.declared.open.Stands.TheVariants as stands;
ghost use Rattle.js_machine.specs.declared.open.Now.TheVariants as n;
ghost use Rattle.js_machine.specs.declared.moved.Moved.TheVariants as moved;
ghost use Rattle.js_machine.specs.declared.moved.Rest.TheVariants as rest;
ghost use Rattle.qml_syntax.specs.declared.node.Node.TheVariants as node;
ghost use Rattle.qml_syntax.specs.declared.token.TokenKind.TheVariants as k;

use crate::need::need;
use js_machine::{Frame, Moved, Now, Reach, Rest, Stack, Stands, copied, of_step_to, plain};
use qml_base::{NoMemory, Place};
use qml_syntax::{Declaration, Mark, Node, Nodes, TokenKind, Word};
use std::alloc::Global;

/// A key of the fields that begin at a place, or their end; or nothing where the token can't come, then nothing changes.
pub fn key(
    nodes: &mut Nodes,
    frames: &mut Stack,
    fields: Place,
    place: Place,
    kind: &TokenKind,
    alloc: Global,
) -> Result<Option<Now>, NoMemory>
    ensures { IfOk result (λ r. MatchOption r
        ((move_key fields frames.old nodes.old place kind.now ≡ None) × (frames.new ≡ frames.old) × (nodes.new ≡ nodes.old))
        (λ now. move_key fields frames.old nodes.old place kind.now ≡ Some (tape nodes.new frames.new now))) }
{
    match kind {
        TokenKind::Name(name) => {
            nodes.push(Node::Key(false, copied(name, alloc)?, place))?;
            frames.push(Frame::Field(fields))?;
            Ok(Some(Now::Colon))
        }
        TokenKind::Text(text) => {
            nodes.push(Node::Key(true, copied(text, alloc)?, place))?;
            frames.push(Frame::Field(fields))?;
            Ok(Some(Now::Colon))
        }
        TokenKind::Mark(mark) => match mark {
            Mark::RightBrace => {
                let comma = !nodes.at_mark();
                nodes.push(Node::Fields(fields, comma))?;
                Ok(Some(Now::Have(plain())))
            }
            _ => Ok(None),
        },
        TokenKind::Number(_) | TokenKind::Version | TokenKind::Word(_) | TokenKind::End => Ok(None),
    }
}

/// `}` where a statement could come.
fn block(nodes: &mut Nodes, frames: &mut Stack) -> Result<Moved, NoMemory>
    ensures { IfOk result
        (λ r. Moves (move_block frames.old nodes.old) (begun_whole frames.old nodes.old) frames.new nodes.new r) }
{
    match frames.pop() {
        Some(Frame::Block(place)) => {
            nodes.push(Node::Block(place))?;
            Ok(Moved::To(Now::Did))
        }
        Some(Frame::Function(place)) => {
            nodes.push(Node::Binding(place))?;
            Ok(Moved::To(Now::BindingClose(of_step_to(false, Reach::Elsewhere))))
        }
        Some(other) => {
            frames.push(other)?;
            Ok(Moved::Stuck(Rest::Begun))
        }
        None => Ok(Moved::Stuck(Rest::Begun)),
    }
}

/// An expression as a statement.
fn expression(
    nodes: &mut Nodes,
    frames: &mut Stack,
    place: Place,
    kind: &TokenKind,
    alloc: Global,
) -> Result<Moved, NoMemory>
    ensures { IfOk result (λ r. Moves (move_need (f.Expression ∷ frames.old) nodes.old place kind.now)
        (begun_whole frames.old nodes.old) frames.new nodes.new r) }
{
    frames.push(Frame::Expression)?;
    let now = need(nodes, frames, place, kind, alloc)?;
    match now {
        Some(next) => Ok(Moved::To(next)),
        None => {
            frames.pop();
            Ok(Moved::Stuck(Rest::Begun))
        }
    }
}

/// A mark that a statement begins with, or ends a block.
fn mark(
    nodes: &mut Nodes,
    frames: &mut Stack,
    place: Place,
    found: Mark,
    alloc: Global,
) -> Result<Moved, NoMemory>
    ensures { IfOk result (λ r. Moves (move_begin frames.old nodes.old place (k.Mark found))
        (begun_whole frames.old nodes.old) frames.new nodes.new r) }
{
    match found {
        Mark::LeftBrace => {
            nodes.push(Node::Mark)?;
            frames.push(Frame::Block(place))?;
            Ok(Moved::To(Now::Begin))
        }
        Mark::RightBrace => block(nodes, frames),
        Mark::Semicolon => {
            nodes.push(Node::Empty(place))?;
            Ok(Moved::To(Now::Did))
        }
        _ => expression(nodes, frames, place, &TokenKind::Mark(found), alloc),
    }
}

/// `break` or `continue`.
fn jump(frames: &Stack, now: Now) -> Moved
    ensures { result ≡ (if loops frames.now then moved.To now else moved.Stuck rest.Begun) }
{
    if frames.in_loop() {
        Moved::To(now)
    } else {
        Moved::Stuck(Rest::Begun)
    }
}

/// A declaration of locals.
fn declaration(nodes: &mut Nodes, place: Place, what: Declaration) -> Result<Moved, NoMemory>
    ensures { IfOk result (λ r. (nodes.new ≡ node.Mark ∷ nodes.old) × (r ≡ moved.To (n.Name stands.Body place what))) }
{
    nodes.push(Node::Mark)?;
    Ok(Moved::To(Now::Name(Stands::Body, place, what)))
}

/// A reserved word that a statement begins with.
fn word(
    nodes: &mut Nodes,
    frames: &mut Stack,
    place: Place,
    found: Word,
    alloc: Global,
) -> Result<Moved, NoMemory>
    ensures { IfOk result (λ r. Moves (move_begin frames.old nodes.old place (k.Word found))
        (begun_whole frames.old nodes.old) frames.new nodes.new r) }
{
    match found {
        Word::If => {
            frames.push(Frame::If(place))?;
            Ok(Moved::To(Now::Condition))
        }
        Word::While => {
            frames.push(Frame::While(place))?;
            Ok(Moved::To(Now::Condition))
        }
        Word::For => Ok(Moved::To(Now::Header(place))),
        Word::Return => Ok(Moved::To(Now::Give(place))),
        Word::Break => Ok(jump(frames, Now::Break(place))),
        Word::Continue => Ok(jump(frames, Now::Continue(place))),
        Word::Var => declaration(nodes, place, Declaration::Var),
        Word::Let => declaration(nodes, place, Declaration::Let),
        Word::Const => declaration(nodes, place, Declaration::Const),
        _ => expression(nodes, frames, place, &TokenKind::Word(found), alloc),
    }
}

/// A token where a statement is to come.
pub fn begin(
    nodes: &mut Nodes,
    frames: &mut Stack,
    place: Place,
    kind: &TokenKind,
    alloc: Global,
) -> Result<Moved, NoMemory>
    ensures { IfOk result (λ r. Moves
        (move_begin frames.old nodes.old place kind.now) (begun_whole frames.old nodes.old) frames.new nodes.new r) }
{
    match kind {
        TokenKind::Mark(found) => mark(nodes, frames, place, *found, alloc),
        TokenKind::Word(found) => word(nodes, frames, place, *found, alloc),
        TokenKind::Name(_)
        | TokenKind::Number(_)
        | TokenKind::Version
        | TokenKind::Text(_)
        | TokenKind::End => expression(nodes, frames, place, kind, alloc),
    }
}
