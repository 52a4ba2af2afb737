//! The header of a `for`, and marks that have to come.

ghost use Rattle.std.specs.Prelude.{◌≡◌, ◌∷◌, IfOk, None, if◌then◌else◌};
ghost use Rattle.qml_syntax.specs.Nodes.{Table};
ghost use Rattle.qml_syntax.specs.declared.token.TokenKind.TheVariants as k;
ghost use Rattle.js_machine.specs.Machine as m;
ghost use Rattle.js_machine.specs.Moves.{move_need, move_first, move_test, move_next};
ghost use Rattle.js_machine.specs.Moved.{Moves};
ghost use Rattle.js_machine.specs.declared.moved.Moved.TheVariants as moved;
ghost use Rattle.js_machine.specs.declared.moved.Rest.TheVariants as rest;

use crate::need::need;
use js_machine::{Frame, Moved, Now, Rest, Stack, Stands};
use qml_base::{NoMemory, Place};
use qml_syntax::{Declaration, Mark, Node, Nodes, TokenKind, Word};
use std::alloc::Global;

/// An expression in the header.
fn value(
    nodes: &mut Nodes,
    frames: &mut Stack,
    frame: Frame,
    place: Place,
    kind: &TokenKind,
    alloc: Global,
) -> Result<Moved, NoMemory>
    ensures { IfOk result
        (λ r. Moves (move_need (frame ∷ frames.old) nodes.old place kind.now) None frames.new nodes.new r) }
{
    frames.push(frame)?;
    let now = need(nodes, frames, place, kind, alloc)?;
    match now {
        Some(next) => Ok(Moved::To(next)),
        None => Ok(Moved::Stuck(Rest::Nothing)),
    }
}

/// A word that the header begins with.
fn first_word(
    nodes: &mut Nodes,
    frames: &mut Stack,
    at: Place,
    place: Place,
    word: Word,
    alloc: Global,
) -> Result<Moved, NoMemory>
    ensures { IfOk result
        (λ r. Moves (move_first at frames.old nodes.old place (k.Word word)) None frames.new nodes.new r) }
{
    let what = match word {
        Word::Var => Declaration::Var,
        Word::Let => Declaration::Let,
        Word::Const => Declaration::Const,
        _ => {
            return value(
                nodes,
                frames,
                Frame::First(at),
                place,
                &TokenKind::Word(word),
                alloc,
            );
        }
    };
    nodes.push(Node::Mark)?;
    Ok(Moved::To(Now::Name(Stands::Header(at), place, what)))
}

/// Behind `for (`.
pub fn first(
    nodes: &mut Nodes,
    frames: &mut Stack,
    at: Place,
    place: Place,
    kind: &TokenKind,
    alloc: Global,
) -> Result<Moved, NoMemory>
    ensures { IfOk result (λ r. Moves (move_first at frames.old nodes.old place kind.now) None frames.new nodes.new r) }
{
    match kind {
        TokenKind::Word(word) => first_word(nodes, frames, at, place, *word, alloc),
        TokenKind::Mark(mark) => match mark {
            Mark::Semicolon => {
                nodes.push(Node::NoFirst)?;
                Ok(Moved::To(Now::Test(at)))
            }
            _ => value(
                nodes,
                frames,
                Frame::First(at),
                place,
                &TokenKind::Mark(*mark),
                alloc,
            ),
        },
        TokenKind::Name(_)
        | TokenKind::Number(_)
        | TokenKind::Version
        | TokenKind::Text(_)
        | TokenKind::End => value(nodes, frames, Frame::First(at), place, kind, alloc),
    }
}

/// Behind the first `;`.
pub fn test(
    nodes: &mut Nodes,
    frames: &mut Stack,
    at: Place,
    place: Place,
    kind: &TokenKind,
    alloc: Global,
) -> Result<Moved, NoMemory>
    ensures { IfOk result (λ r. Moves (move_test at frames.old nodes.old place kind.now) None frames.new nodes.new r) }
{
    match kind {
        TokenKind::Mark(mark) => match mark {
            Mark::Semicolon => {
                nodes.push(Node::Absent)?;
                Ok(Moved::To(Now::Next(at)))
            }
            _ => value(
                nodes,
                frames,
                Frame::Test(at),
                place,
                &TokenKind::Mark(*mark),
                alloc,
            ),
        },
        TokenKind::Name(_)
        | TokenKind::Number(_)
        | TokenKind::Version
        | TokenKind::Text(_)
        | TokenKind::Word(_)
        | TokenKind::End => value(nodes, frames, Frame::Test(at), place, kind, alloc),
    }
}

/// Behind the second `;`.
pub fn next(
    nodes: &mut Nodes,
    frames: &mut Stack,
    at: Place,
    place: Place,
    kind: &TokenKind,
    alloc: Global,
) -> Result<Moved, NoMemory>
    ensures { IfOk result (λ r. Moves (move_next at frames.old nodes.old place kind.now) None frames.new nodes.new r) }
{
    match kind {
        TokenKind::Mark(mark) => match mark {
            Mark::RightParen => {
                nodes.push(Node::Absent)?;
                frames.push(Frame::For(at))?;
                Ok(Moved::To(Now::Begin))
            }
            _ => value(
                nodes,
                frames,
                Frame::Next(at),
                place,
                &TokenKind::Mark(*mark),
                alloc,
            ),
        },
        TokenKind::Name(_)
        | TokenKind::Number(_)
        | TokenKind::Version
        | TokenKind::Text(_)
        | TokenKind::Word(_)
        | TokenKind::End => value(nodes, frames, Frame::Next(at), place, kind, alloc),
    }
}

/// Whether two of the marks that have to come somewhere are the same.
fn is_same(wanted: Mark, found: Mark) -> bool
    ensures { result ≡ m.is_mark wanted (k.Mark found) }
{
    match wanted {
        Mark::LeftParen => found == Mark::LeftParen,
        Mark::RightParen => found == Mark::RightParen,
        Mark::LeftBrace => found == Mark::LeftBrace,
        Mark::Colon => found == Mark::Colon,
        _ => false,
    }
}

/// A mark that has to come, and what has been read then.
pub fn expect(kind: &TokenKind, wanted: Mark, next: Now) -> Moved
    ensures { result ≡ (if m.is_mark wanted kind.now then moved.To next else moved.Stuck rest.Nothing) }
{
    match kind {
        TokenKind::Mark(found) => {
            if is_same(wanted, *found) {
                Moved::To(next)
            } else {
                Moved::Stuck(Rest::Nothing)
            }
        }
        TokenKind::Name(_)
        | TokenKind::Number(_)
        | TokenKind::Version
        | TokenKind::Text(_)
        | TokenKind::Word(_)
        | TokenKind::End => Moved::Stuck(Rest::Nothing),
    }
}
