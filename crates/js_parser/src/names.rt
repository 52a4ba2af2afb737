//! Statements of one word, and declarations.

ghost use Rattle.std.specs.Prelude.{◌≡◌, ◌∷◌, ◌&&◌, ◌||◌, IfOk, Option, Some, None, MatchOption};
ghost use Rattle.qml_syntax.specs.declared.token.Token.{Token};
ghost use Rattle.qml_syntax.specs.declared.node.Close.TheVariants as end;
ghost use Rattle.qml_syntax.specs.declared.node.Node.TheVariants as node;
ghost use Rattle.js_machine.specs.declared.open.Frame.TheVariants as f;
ghost use Rattle.js_machine.specs.declared.open.Now.TheVariants as n;
ghost use Rattle.js_machine.specs.Machine as m;
ghost use Rattle.js_machine.specs.Moves.{move_need, move_alone, move_name, declared, move_named_end, move_named, is_over};
ghost use Rattle.js_machine.specs.Kept.{over_whole, kept_whole};
ghost use Rattle.js_machine.specs.Moved.{Moves};
ghost use Rattle.js_machine.specs.Tape.{tape};

use crate::did::did;
use crate::need::need;
use js_machine::{Frame, Last, Moved, Now, Rest, Role, Stack, Stands, copied, ends_line, role_of};
use qml_base::{NoMemory, Place};
use qml_syntax::{Assignment, Close, Declaration, Mark, Node, Nodes, Token, TokenKind};
use std::alloc::Global;

/// Whether it is `}`.
fn is_brace(kind: &TokenKind) -> bool
    ensures { result ≡ m.is_brace kind.now }
{
    match kind {
        TokenKind::Mark(mark) => match mark {
            Mark::RightBrace => true,
            _ => false,
        },
        TokenKind::Name(_)
        | TokenKind::Number(_)
        | TokenKind::Version
        | TokenKind::Text(_)
        | TokenKind::Word(_)
        | TokenKind::End => false,
    }
}

/// Whether it is `;`.
fn is_semi(kind: &TokenKind) -> bool
    ensures { result ≡ m.is_semi kind.now }
{
    match kind {
        TokenKind::Mark(mark) => match mark {
            Mark::Semicolon => true,
            _ => false,
        },
        TokenKind::Name(_)
        | TokenKind::Number(_)
        | TokenKind::Version
        | TokenKind::Text(_)
        | TokenKind::Word(_)
        | TokenKind::End => false,
    }
}

/// Whether a statement of one word ends before this token.
fn ends_alone(token: &Token) -> bool
    ensures { result ≡ m.ends_alone token.now }
{
    is_brace(&token.what) || token.after_line
}

/// Behind `return`.
pub fn give(
    nodes: &mut Nodes,
    frames: &mut Stack,
    at: Place,
    token: &Token,
    alloc: Global,
) -> Result<Moved, NoMemory>
    ensures { IfOk result (λ r. Moves (move_alone (node.Give at end.Auto) (node.Give at end.Semi)
        frames.old nodes.old token.now (move_need (f.Give at ∷ frames.old) nodes.old token.now.place token.now.what))
        (over_whole (is_over frames.old (node.Give at end.Auto ∷ nodes.old))) frames.new nodes.new r) }
{
    if ends_alone(token) {
        nodes.push(Node::Give(at, Close::Auto))?;
        return did(nodes, frames, token, alloc);
    }
    if is_semi(&token.what) {
        nodes.push(Node::Give(at, Close::Semi))?;
        return Ok(Moved::To(Now::Did));
    }
    frames.push(Frame::Give(at))?;
    let now = need(nodes, frames, token.place, &token.what, alloc)?;
    match now {
        Some(next) => Ok(Moved::To(next)),
        None => {
            frames.pop();
            nodes.push(Node::Give(at, Close::Auto))?;
            Ok(Moved::Stuck(Rest::Ended))
        }
    }
}

/// Behind `break` or `continue`, which is the first node where it ends by itself and the second where a `;` ends it.
pub fn jump(
    nodes: &mut Nodes,
    frames: &mut Stack,
    by_end: Node,
    by_semi: Node,
    token: &Token,
    alloc: Global,
) -> Result<Moved, NoMemory>
    ensures { IfOk result (λ r. Moves (move_alone by_end by_semi frames.old nodes.old token.now None)
        (over_whole (is_over frames.old (by_end ∷ nodes.old))) frames.new nodes.new r) }
{
    if !ends_alone(token) && is_semi(&token.what) {
        nodes.push(by_semi)?;
        return Ok(Moved::To(Now::Did));
    }
    nodes.push(by_end)?;
    if ends_alone(token) {
        did(nodes, frames, token, alloc)
    } else {
        Ok(Moved::Stuck(Rest::Ended))
    }
}

/// A name to declare, or nothing where the token is none; then nothing changes.
pub fn name(
    nodes: &mut Nodes,
    frames: &Stack,
    declared: (Stands, Place, Declaration),
    place: Place,
    kind: &TokenKind,
    alloc: Global,
) -> Result<Option<Now>, NoMemory>
    ensures { IfOk result (λ r. MatchOption r
        ((move_name declared.0 declared.1 declared.2 frames.now nodes.old place kind.now ≡ None) × (nodes.new ≡ nodes.old))
        (λ now. move_name declared.0 declared.1 declared.2 frames.now nodes.old place kind.now ≡ Some (tape nodes.new frames.now now))) }
{
    match kind {
        TokenKind::Name(name) => {
            nodes.push(Node::Var(copied(name, alloc)?, place))?;
            Ok(Some(Now::Named(declared.0, declared.1, declared.2)))
        }
        TokenKind::Number(_)
        | TokenKind::Version
        | TokenKind::Text(_)
        | TokenKind::Mark(_)
        | TokenKind::Word(_)
        | TokenKind::End => Ok(None),
    }
}

/// `;` behind a declared name.
fn named_semi(
    nodes: &mut Nodes,
    frames: &Stack,
    stands: Stands,
    at: Place,
    what: Declaration,
) -> Result<Now, NoMemory>
    ensures { IfOk result (λ now. declared stands at what frames.now nodes.old ≡ tape nodes.new frames.now now) }
{
    match stands {
        Stands::Body => {
            nodes.push(Node::Declare(at, what, Close::Semi))?;
            Ok(Now::Did)
        }
        Stands::Header(header) => {
            nodes.push(Node::FirstDeclare(at, what))?;
            Ok(Now::Test(header))
        }
    }
}

/// What ends a declaration behind a name, or can't come there.
fn named_end(
    nodes: &mut Nodes,
    frames: &mut Stack,
    stands: Stands,
    at: Place,
    what: Declaration,
    token: &Token,
    alloc: Global,
) -> Result<Moved, NoMemory>
    ensures { IfOk result (λ r. Moves (move_named_end stands at what frames.old nodes.old token.now)
        (kept_whole (tape nodes.old frames.old (n.Named stands at what))) frames.new nodes.new r) }
{
    match stands {
        Stands::Body => {
            nodes.push(Node::Declare(at, what, Close::Auto))?;
            if is_brace(&token.what) || ends_line(Last::Bare, token) {
                did(nodes, frames, token, alloc)
            } else {
                Ok(Moved::Stuck(Rest::Ended))
            }
        }
        Stands::Header(_) => Ok(Moved::Stuck(Rest::Nothing)),
    }
}

/// Behind a declared name.
pub fn named(
    nodes: &mut Nodes,
    frames: &mut Stack,
    stands: Stands,
    at: Place,
    what: Declaration,
    token: &Token,
    alloc: Global,
) -> Result<Moved, NoMemory>
    ensures { IfOk result
        (λ r. Moves (move_named stands at what frames.old nodes.old token.now (m.role_of token.now.what))
        (kept_whole (tape nodes.old frames.old (n.Named stands at what))) frames.new nodes.new r) }
{
    let role = role_of(&token.what);
    match role {
        Role::Updates(Assignment::Plain) => {
            frames.push(Frame::Value(stands, at, what))?;
            Ok(Moved::To(Now::Need))
        }
        Role::Comma => Ok(Moved::To(Now::Name(stands, at, what))),
        Role::Semicolon => Ok(Moved::To(named_semi(nodes, frames, stands, at, what)?)),
        _ => named_end(nodes, frames, stands, at, what, token, alloc),
    }
}
