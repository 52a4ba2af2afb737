//! Among the members of an object or a group.

ghost use Rattle.std.specs.Prelude.{◌≡◌, ◌∷◌, IfOk, Some};
ghost use Rattle.qml_machine.specs.DocumentMoves as k;
ghost use Rattle.qml_machine.specs.DocumentTape.{kept};
ghost use Rattle.qml_machine.specs.declared.state.Now.TheVariants as state;
ghost use Rattle.qml_machine.specs.declared.state.MemberNow.TheVariants as member_now;
ghost use Rattle.qml_parser.specs.Reached.{reached, Leads, that_tail};

use crate::next::Next;
use crate::words::{Tail, first_word, is_semi, is_type, names_id, stops};
use js_machine::copied;
use qml_base::{NoMemory, Place};
use qml_machine::{Count, Frame, Frames, FunctionNow, KindNow, MemberNow, Now, ObjectNow, Whose};
use qml_syntax::{Adjective, Mark, Node, Nodes, Token, TokenKind, Word};
use std::alloc::Global;

/// What follows a member.
pub const DONE: Next = Next::To(Now::Member(MemberNow::Done));

const MEMBERS: Next = Next::To(Now::Member(MemberNow::Members));

/// Behind a value: its member has been read.
pub fn valued(nodes: &mut Nodes, frames: &mut Frames) -> Result<(), NoMemory>
    ensures { IfOk result
        (λ _. k.keep_valued nodes.old frames.old ≡ kept nodes.new frames.new (state.Member member_now.Done)) }
{
    match frames.pop() {
        Some(Frame::Path) => nodes.push(Node::Given)?,
        Some(Frame::Property(place, adjective)) => nodes.push(Node::Property(place, adjective))?,
        Some(other) => frames.push(other)?,
        None => {}
    }
    Ok(())
}

/// Behind an object, in its place.
fn held(nodes: &mut Nodes, frames: &mut Frames) -> Result<Next, NoMemory>
    ensures { IfOk result (λ r. k.keep_held nodes.old frames.old ≡ reached nodes.new frames.new r) }
{
    match frames.pop() {
        Some(Frame::Root) => {
            frames.push(Frame::Root)?;
            Ok(Next::To(Now::Object(ObjectNow::Rooted)))
        }
        Some(Frame::List(place)) => {
            frames.push(Frame::List(place))?;
            Ok(Next::To(Now::Object(ObjectNow::Objects)))
        }
        Some(Frame::Object) => {
            frames.push(Frame::Object)?;
            nodes.push(Node::Child)?;
            Ok(DONE)
        }
        Some(Frame::Group) => {
            frames.push(Frame::Group)?;
            nodes.push(Node::Child)?;
            Ok(DONE)
        }
        Some(other) => {
            frames.push(other)?;
            valued(nodes, frames)?;
            Ok(DONE)
        }
        None => {
            valued(nodes, frames)?;
            Ok(DONE)
        }
    }
}

/// `}` behind the members of an object or a group.
fn closed(nodes: &mut Nodes, frames: &mut Frames) -> Result<Next, NoMemory>
    ensures { IfOk result (λ r. k.keep_closed nodes.old frames.old ≡ reached nodes.new frames.new r) }
{
    match frames.pop() {
        Some(Frame::Object) => {
            nodes.push(Node::Object)?;
            held(nodes, frames)
        }
        Some(Frame::Group) => {
            nodes.push(Node::Group)?;
            Ok(DONE)
        }
        Some(other) => {
            frames.push(other)?;
            Ok(MEMBERS)
        }
        None => Ok(MEMBERS),
    }
}

/// `{` behind the name of a type.
pub fn opened(nodes: &mut Nodes, frames: &mut Frames) -> Result<Next, NoMemory>
    ensures { IfOk result (λ r. k.keep_opened nodes.old frames.old ≡ reached nodes.new frames.new r) }
{
    nodes.push(Node::Mark)?;
    frames.push(Frame::Object)?;
    Ok(MEMBERS)
}

/// Where a member or `}` is to come.
pub fn members(
    nodes: &mut Nodes,
    frames: &mut Frames,
    place: Place,
    kind: &TokenKind,
    alloc: Global,
) -> Result<Option<Next>, NoMemory>
    ensures { IfOk result (λ r. Leads (k.keep_members nodes.old frames.old place kind.now) nodes.new frames.new r) }
{
    match kind {
        TokenKind::Mark(Mark::RightBrace) => {
            let next = closed(nodes, frames)?;
            Ok(Some(next))
        }
        TokenKind::Word(Word::Function) => {
            Ok(Some(Next::To(Now::Function(FunctionNow::AtFunction(place)))))
        }
        TokenKind::Word(Word::Default) => {
            Ok(Some(Next::To(Now::Member(MemberNow::AtProperty(place, Adjective::Default)))))
        }
        TokenKind::Name(name) => {
            nodes.push(Node::First(copied(name, alloc)?, place))?;
            let (word, is_id, types) = (first_word(name), names_id(name), is_type(name));
            let now = MemberNow::Path(place, Count::Zero, word, is_id, types);
            Ok(Some(Next::To(Now::Member(now))))
        }
        _ => Ok(None),
    }
}

/// Behind a member.
pub fn done(
    nodes: &mut Nodes,
    frames: &mut Frames,
    token: &Token,
    alloc: Global,
) -> Result<Option<Next>, NoMemory>
    ensures { IfOk result
        (λ r. Leads (k.keep_done nodes.old frames.old token.now.place token.now.what) nodes.new frames.new r) }
{
    if is_semi(&token.what) {
        nodes.push(Node::Semi)?;
        return Ok(Some(MEMBERS));
    }
    members(nodes, frames, token.place, &token.what, alloc)
}

/// Behind what may be the last token of a member: its `;`, or a token before which it ends. The nodes are those of the
/// member with and without its `;`.
pub fn member(
    nodes: &mut Nodes,
    frames: &mut Frames,
    tail: Tail,
    ways: (Node, Node),
    token: &Token,
    alloc: Global,
) -> Result<Option<Next>, NoMemory>
    ensures { IfOk result (λ r. Leads
        (k.keep_end (that_tail tail) token.now (kept (ways.0 ∷ nodes.old) frames.old (state.Member member_now.Done))
        (k.keep_done (ways.1 ∷ nodes.old) frames.old token.now.place token.now.what)) nodes.new frames.new r) }
{
    let (by_semi, by_auto) = ways;
    if is_semi(&token.what) {
        nodes.push(by_semi)?;
        return Ok(Some(DONE));
    }
    if stops(tail, token) {
        nodes.push(by_auto)?;
        return done(nodes, frames, token, alloc);
    }
    Ok(None)
}
