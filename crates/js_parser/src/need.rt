//! Where an expression is to come.

ghost use Rattle.std.specs.Prelude.{◌≡◌, IfOk, Option, Some, None, MatchOption};
ghost use Rattle.js_machine.specs.Moves.{move_sign, move_args, move_items, move_function, move_need};
ghost use Rattle.js_machine.specs.Tape.{tape};
ghost use Rattle.qml_syntax.specs.declared.token.TokenKind.TheVariants as k;

use js_machine::{Frame, Now, Reach, Stack, copied, is_bump, of_name, of_step_to, plain};
use qml_base::{NoMemory, Place};
use qml_syntax::{Literal, Mark, Node, Nodes, Prefix, TokenKind, Word};
use std::alloc::Global;

/// A prefix: what has been read then, or nothing where it can't come.
fn sign(
    nodes: &mut Nodes,
    frames: &mut Stack,
    prefix: Prefix,
    place: Place,
) -> Result<Option<Now>, NoMemory>
    ensures { IfOk result (λ r. MatchOption r
        ((move_sign prefix place frames.old nodes.old ≡ None) × (frames.new ≡ frames.old) × (nodes.new ≡ nodes.old))
        (λ now. move_sign prefix place frames.old nodes.old ≡ Some (tape nodes.new frames.new now))) }
{
    match frames.pop() {
        Some(Frame::Sign(first, before, at)) => {
            if is_bump(before) {
                frames.push(Frame::Sign(first, before, at))?;
                return Ok(None);
            }
            nodes.push(Node::Sign(first, before, at))?;
            frames.push(Frame::Sign(false, prefix, place))?;
            Ok(Some(Now::Need))
        }
        Some(other) => {
            frames.push(other)?;
            frames.push(Frame::Sign(true, prefix, place))?;
            Ok(Some(Now::Need))
        }
        None => {
            frames.push(Frame::Sign(true, prefix, place))?;
            Ok(Some(Now::Need))
        }
    }
}

/// `)` of a call without arguments.
fn args(nodes: &mut Nodes, frames: &mut Stack) -> Result<Option<Now>, NoMemory>
    ensures { IfOk result (λ r. MatchOption r
        ((move_args frames.old nodes.old ≡ None) × (frames.new ≡ frames.old) × (nodes.new ≡ nodes.old))
        (λ now. move_args frames.old nodes.old ≡ Some (tape nodes.new frames.new now))) }
{
    match frames.pop() {
        Some(Frame::Args(place, binding)) => {
            if nodes.at_mark() {
                nodes.push(Node::Call(place))?;
                Ok(Some(Now::Have(of_step_to(false, Reach::Elsewhere))))
            } else {
                frames.push(Frame::Args(place, binding))?;
                Ok(None)
            }
        }
        Some(other) => {
            frames.push(other)?;
            Ok(None)
        }
        None => Ok(None),
    }
}

/// `]` of a list without elements, or behind a comma.
fn items(nodes: &mut Nodes, frames: &mut Stack) -> Result<Option<Now>, NoMemory>
    ensures { IfOk result (λ r. MatchOption r
        ((move_items frames.old nodes.old ≡ None) × (frames.new ≡ frames.old) × (nodes.new ≡ nodes.old))
        (λ now. move_items frames.old nodes.old ≡ Some (tape nodes.new frames.new now))) }
{
    match frames.pop() {
        Some(Frame::Items(place)) => {
            let comma = !nodes.at_mark();
            nodes.push(Node::List(place, comma))?;
            Ok(Some(Now::Have(plain())))
        }
        Some(other) => {
            frames.push(other)?;
            Ok(None)
        }
        None => Ok(None),
    }
}

/// `function` as the only argument of `Qt.binding`.
fn function(nodes: &Nodes, frames: &mut Stack, place: Place) -> Result<Option<Now>, NoMemory>
    ensures { IfOk result (λ r. MatchOption r
        ((move_function place frames.old nodes.now ≡ None) × (frames.new ≡ frames.old))
        (λ now. move_function place frames.old nodes.now ≡ Some (tape nodes.now frames.new now))) }
{
    match frames.pop() {
        Some(Frame::Args(at, binding)) => {
            if nodes.at_mark() && binding {
                frames.push(Frame::Function(place))?;
                Ok(Some(Now::Function))
            } else {
                frames.push(Frame::Args(at, binding))?;
                Ok(None)
            }
        }
        Some(other) => {
            frames.push(other)?;
            Ok(None)
        }
        None => Ok(None),
    }
}

/// A reserved word.
fn word(
    nodes: &mut Nodes,
    frames: &mut Stack,
    place: Place,
    word: Word,
) -> Result<Option<Now>, NoMemory>
    ensures { IfOk result (λ r. MatchOption r
        ((move_need frames.old nodes.old place (k.Word word) ≡ None) × (frames.new ≡ frames.old) × (nodes.new ≡ nodes.old))
        (λ now. move_need frames.old nodes.old place (k.Word word) ≡ Some (tape nodes.new frames.new now))) }
{
    let literal = match word {
        Word::True => Literal::True,
        Word::False => Literal::False,
        Word::Null => Literal::Null,
        Word::TypeOf => return sign(nodes, frames, Prefix::TypeOf, place),
        Word::Function => return function(nodes, frames, place),
        _ => return Ok(None),
    };
    nodes.push(Node::Literal(literal, place))?;
    Ok(Some(Now::Have(plain())))
}

/// A mark.
fn mark(
    nodes: &mut Nodes,
    frames: &mut Stack,
    place: Place,
    mark: Mark,
) -> Result<Option<Now>, NoMemory>
    ensures { IfOk result (λ r. MatchOption r
        ((move_need frames.old nodes.old place (k.Mark mark) ≡ None) × (frames.new ≡ frames.old) × (nodes.new ≡ nodes.old))
        (λ now. move_need frames.old nodes.old place (k.Mark mark) ≡ Some (tape nodes.new frames.new now))) }
{
    match mark {
        Mark::LeftParen => {
            frames.push(Frame::Paren(place))?;
            Ok(Some(Now::Need))
        }
        Mark::LeftBracket => {
            nodes.push(Node::Mark)?;
            frames.push(Frame::Items(place))?;
            Ok(Some(Now::Need))
        }
        Mark::LeftBrace => {
            nodes.push(Node::Mark)?;
            Ok(Some(Now::Key(place)))
        }
        Mark::RightParen => args(nodes, frames),
        Mark::RightBracket => items(nodes, frames),
        Mark::Not => sign(nodes, frames, Prefix::Not, place),
        Mark::Minus => sign(nodes, frames, Prefix::Minus, place),
        Mark::Plus => sign(nodes, frames, Prefix::Plus, place),
        Mark::BitNot => sign(nodes, frames, Prefix::BitNot, place),
        Mark::Increment => sign(nodes, frames, Prefix::Increment, place),
        Mark::Decrement => sign(nodes, frames, Prefix::Decrement, place),
        _ => Ok(None),
    }
}

/// A token where an expression is to come: what has been read then, or nothing where it can't come; then nothing changes.
pub fn need(
    nodes: &mut Nodes,
    frames: &mut Stack,
    place: Place,
    kind: &TokenKind,
    alloc: Global,
) -> Result<Option<Now>, NoMemory>
    ensures { IfOk result (λ r. MatchOption r
        ((move_need frames.old nodes.old place kind.now ≡ None) × (frames.new ≡ frames.old) × (nodes.new ≡ nodes.old))
        (λ now. move_need frames.old nodes.old place kind.now ≡ Some (tape nodes.new frames.new now))) }
{
    match kind {
        TokenKind::Name(name) => {
            nodes.push(Node::Name(copied(name, alloc)?, place))?;
            Ok(Some(Now::Have(of_name(name))))
        }
        TokenKind::Number(number) => {
            nodes.push(Node::Number(*number, place))?;
            Ok(Some(Now::Have(plain())))
        }
        TokenKind::Text(text) => {
            nodes.push(Node::Text(copied(text, alloc)?, place))?;
            Ok(Some(Now::Have(plain())))
        }
        TokenKind::Word(found) => word(nodes, frames, place, *found),
        TokenKind::Mark(found) => mark(nodes, frames, place, *found),
        TokenKind::Version | TokenKind::End => Ok(None),
    }
}
