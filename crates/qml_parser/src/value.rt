//! In a value, and in the block of a function. What has been read of the statement or the body, and what is open in it,
//! stand beside the nodes and frames of the document until it ends.

ghost use Rattle.std.specs.Prelude.{◌≡◌, ◌∷◌, ◌++◌, [], IfOk, Some, true, reverse};
ghost use Rattle.js_machine.specs.Moves as m;
ghost use Rattle.js_machine.specs.Moved.{rest_whole};
ghost use Rattle.js_machine.specs.Tape as js;
ghost use Rattle.qml_syntax.specs.Nodes.{Table};
ghost use Rattle.qml_machine.specs.DocumentMachine as d;
ghost use Rattle.qml_machine.specs.DocumentMoves as k;
ghost use Rattle.qml_machine.specs.DocumentTape as tape;
ghost use Rattle.qml_machine.specs.declared.state.Now.TheVariants as state;
ghost use Rattle.qml_machine.specs.declared.state.MemberNow.TheVariants as member_now;
ghost use Rattle.qml_parser.specs.Reached.{reached, kept_in, LeadsIn};
ghost use Rattle.qml_parser.specs.Shape as s;

use crate::member::{done, valued};
use crate::next::{Next, State};
use crate::words::{is_brace, is_left_brace, is_type};
use js_machine::{Frame as Open, Last, Moved, Rest, Stack, ends_line, last_of};
use js_parser::finish::finish;
use js_parser::step::step;
use qml_base::{NoMemory, Place};
use qml_machine::{Frame, Frames, MemberNow, Now, ScriptNow};
use qml_syntax::{Node, Nodes, Token};
use std::alloc::Global;

/// Where the members of an object that is opened are to come.
const MEMBERS: State = State::At(Now::Member(MemberNow::Members));

/// What has been read of a value.
#[derive(Clone, Copy, Debug, PartialEq, Eq)]
pub enum Shape {
    /// The name of a type alone.
    Object,
    /// The bracket of a list, and the name of a type alone.
    List(Place),
    /// Anything else.
    Other,
}

/// Whether a node is the name of a type alone.
fn is_own(name: &Node) -> bool
    ensures { result ≡ s.names_type (name.now ∷ []) }
{
    match name {
        Node::Name(name, _) => is_type(name),
        _ => false,
    }
}

/// Whether these nodes are the name of a type and its qualifier.
fn is_qualified(qualifier: &Node, name: &Node) -> bool
    ensures { result ≡ s.names_type (name.now ∷ qualifier.now ∷ []) }
{
    match name {
        Node::Member(name, _) => match qualifier {
            Node::Name(_, _) => is_type(name),
            _ => false,
        },
        _ => false,
    }
}

/// Whether these nodes are the name of a type.
fn names_type(nodes: &[Node]) -> bool
    ensures { result ≡ s.names_type (reverse nodes.now) }
{
    match nodes {
        [name] => is_own(name),
        [qualifier, name] => is_qualified(qualifier, name),
        _ => false,
    }
}

/// Whether these nodes are a mark and the name of a type.
fn marks_type(nodes: &[Node]) -> bool
    ensures { result ≡ s.marks_type (reverse nodes.now) }
{
    match nodes.split_first() {
        Some((first, rest)) => first.is_mark() && names_type(rest),
        None => false,
    }
}

/// What has been read of a value.
fn shape_now(inner: &Nodes, around: &Stack, now: js_machine::Now) -> Shape
    ensures { result ≡ s.shape_of (js.tape inner.now around.now now) }
{
    match now {
        js_machine::Now::Have(_) => shape_behind(inner.as_slice(), around.as_slice()),
        _ => Shape::Other,
    }
}

/// What has been read of a value in which no bracket is open, where these frames are around.
fn shape_alone(expression: &Open, one: &Open, nodes: &[Node]) -> Shape
    ensures { result ≡ s.shape_alone expression.now one.now (reverse nodes.now) }
{
    match expression {
        Open::Expression => match one {
            Open::One => {
                if names_type(nodes) {
                    Shape::Object
                } else {
                    Shape::Other
                }
            }
            _ => Shape::Other,
        },
        _ => Shape::Other,
    }
}

/// What has been read of a value in which this is open, where these frames are around.
fn shape_listed(items: &Open, expression: &Open, one: &Open, nodes: &[Node]) -> Shape
    ensures { result ≡ s.shape_listed items.now expression.now one.now (reverse nodes.now) }
{
    match items {
        Open::Items(place) => {
            if shape_first(expression, one, nodes) {
                Shape::List(*place)
            } else {
                Shape::Other
            }
        }
        _ => Shape::Other,
    }
}

/// Whether a list's bracket and the name of a type alone have been read, where these frames are around.
fn shape_first(expression: &Open, one: &Open, nodes: &[Node]) -> bool
    ensures { result ≡ s.shape_first expression.now one.now (reverse nodes.now) }
{
    match expression {
        Open::Expression => match one {
            Open::One => marks_type(nodes),
            _ => false,
        },
        _ => false,
    }
}

/// What has been read of a value that may end, where these frames are around.
fn shape_behind(nodes: &[Node], around: &[Open]) -> Shape
    ensures { result ≡ s.shape_behind (reverse around.now) (reverse nodes.now) }
{
    match around {
        [one, expression] => shape_alone(expression, one, nodes),
        [one, expression, items] => shape_listed(items, expression, one, nodes),
        _ => Shape::Other,
    }
}

/// Adds the first name of a type, if this is one.
fn push_qualifier(nodes: &mut Nodes, node: Node) -> Result<(), NoMemory>
    ensures { IfOk result (λ _. nodes.new ≡ s.qualified node nodes.old) }
{
    match node {
        Node::Name(name, place) => nodes.push(Node::First(name, place)),
        _other => Ok(()),
    }
}

/// Moves the name of a type, whose last node this is.
fn push_name(nodes: &mut Nodes, inner: &mut Nodes, node: Node) -> Result<(), NoMemory>
    ensures { IfOk result (λ _. nodes.new ≡ s.named_on (node ∷ inner.old) nodes.old) }
{
    match node {
        Node::Name(name, place) => nodes.push(Node::First(name, place)),
        Node::Member(name, _place) => {
            if let Some(qualifier) = inner.pop() {
                push_qualifier(nodes, qualifier)?;
            }
            nodes.push(Node::Dot(name))
        }
        _other => Ok(()),
    }
}

/// Moves the name of a type to the nodes of the document, and opens its object.
fn open_named(nodes: &mut Nodes, frames: &mut Frames, inner: &mut Nodes) -> Result<(), NoMemory>
    ensures { IfOk result (λ _. k.keep_opened (s.named_on inner.old nodes.old) frames.old ≡
        tape.kept nodes.new frames.new (state.Member member_now.Members)) }
{
    match inner.pop() {
        Some(node) => push_name(nodes, inner, node)?,
        None => {}
    }
    nodes.push(Node::Mark)?;
    frames.push(Frame::Object)?;
    Ok(())
}

/// Whether a statement may end before a token, where this has been read of it.
fn ends(now: js_machine::Now, token: &Token) -> bool
    ensures { result ≡ k.ends_now now token.now }
{
    match now {
        js_machine::Now::Have(have) => {
            is_brace(&token.what) || ends_line(last_of(have.callable), token)
        }
        js_machine::Now::Give(_) | js_machine::Now::Break(_) | js_machine::Now::Continue(_) => {
            is_brace(&token.what) || token.after_line
        }
        js_machine::Now::Named(_, _, _) => is_brace(&token.what) || ends_line(Last::Bare, token),
        _ => true,
    }
}

/// Opens what is read next.
pub fn begin(inner: &mut Nodes, around: &mut Stack, next: Next) -> Result<State, NoMemory>
    ensures { (nodes : Table) (frames : tape.Frames) →
        IfOk result (λ state. reached nodes frames next ≡ kept_in nodes frames inner.new around.new state) }
{
    match next {
        Next::To(now) => Ok(State::At(now)),
        Next::Value => {
            empty(inner);
            close_all(around);
            around.push(Open::One)?;
            Ok(State::Value(js_machine::Now::Begin))
        }
        Next::Block(place) => {
            empty(inner);
            close_all(around);
            inner.push(Node::Mark)?;
            around.push(Open::List)?;
            Ok(State::Body(place, js_machine::Now::Begin))
        }
    }
}

/// Takes away the nodes that are left of a statement.
fn empty(inner: &mut Nodes)
    ensures { inner.new ≡ [] }
{
    'nodes: while let Some(_) = inner.pop() {}
}

/// Closes what is left open of a statement.
fn close_all(around: &mut Stack)
    ensures { around.new ≡ [] }
{
    'frames: while let Some(_) = around.pop() {}
}

/// A token behind a value, of which this is left to do.
fn value_end(
    nodes: &mut Nodes,
    frames: &mut Frames,
    inner: &mut Nodes,
    around: &mut Stack,
    rest: Rest,
    token: &Token,
    alloc: Global,
) -> Result<Option<State>, NoMemory>
    ensures { IfOk result (λ r. LeadsIn (s.ended nodes.old frames.old token.now (rest_whole rest around.old inner.old))
        nodes.new frames.new inner.new around.new r) }
{
    if !finish(inner, around, rest)? {
        return Ok(None);
    }
    nodes.append(inner)?;
    valued(nodes, frames)?;
    match done(nodes, frames, token, alloc)? {
        Some(next) => {
            let state = begin(inner, around, next)?;
            Ok(Some(state))
        }
        None => Ok(None),
    }
}

/// `{` in a value: behind exactly the name of a type, which may stand behind the bracket of a list, it opens an object.
fn value_brace(
    nodes: &mut Nodes,
    frames: &mut Frames,
    inner: &mut Nodes,
    around: &mut Stack,
    now: js_machine::Now,
    token: &Token,
    alloc: Global,
) -> Result<Option<State>, NoMemory>
    requires { d.is_left_brace token.now.what ≡ true }
    ensures { IfOk result (λ r. LeadsIn (k.keep (tape.kept_value nodes.old frames.old
        (js.tape inner.old around.old now)) token.now) nodes.new frames.new inner.new around.new r) }
{
    match shape_now(inner, around, now) {
        Shape::Object => {
            open_named(nodes, frames, inner)?;
            Ok(Some(MEMBERS))
        }
        Shape::List(place) => {
            nodes.push(Node::Mark)?;
            frames.push(Frame::List(place))?;
            open_named(nodes, frames, inner)?;
            Ok(Some(MEMBERS))
        }
        Shape::Other => {
            let moved = step(inner, around, now, token, alloc)?;
            match moved {
                Moved::To(next) => Ok(Some(State::Value(next))),
                Moved::Stuck(_) => Ok(None),
            }
        }
    }
}

/// A token in a value.
pub fn value(
    nodes: &mut Nodes,
    frames: &mut Frames,
    inner: &mut Nodes,
    around: &mut Stack,
    now: js_machine::Now,
    token: &Token,
    alloc: Global,
) -> Result<Option<State>, NoMemory>
    ensures { IfOk result (λ r. LeadsIn (k.keep (tape.kept_value nodes.old frames.old
        (js.tape inner.old around.old now)) token.now) nodes.new frames.new inner.new around.new r) }
{
    if is_left_brace(&token.what) {
        return value_brace(nodes, frames, inner, around, now, token, alloc);
    }
    let moved = step(inner, around, now, token, alloc)?;
    match moved {
        Moved::To(next) => Ok(Some(State::Value(next))),
        Moved::Stuck(rest) => {
            if !ends(now, token) {
                return Ok(None);
            }
            value_end(nodes, frames, inner, around, rest, token, alloc)
        }
    }
}

/// Behind the block of a function at a place.
fn function(nodes: &mut Nodes, frames: &mut Frames, place: Place) -> Result<Now, NoMemory>
    ensures { (part : Table) (below : Table) → IfOk result (λ now. nodes.old ≡ part ++ below →
        k.keep_function below frames.old place part ≡ tape.kept nodes.new frames.new now) }
{
    nodes.push(Node::Function(place))?;
    match frames.pop() {
        Some(Frame::Script(pragma)) => {
            frames.push(Frame::Script(pragma))?;
            return Ok(Now::Script(ScriptNow::Functions));
        }
        Some(other) => frames.push(other)?,
        None => {}
    }
    nodes.push(Node::Method)?;
    Ok(Now::Member(MemberNow::Done))
}

/// `}` behind the block of a function at a place, of which this is left to do.
fn body_end(
    nodes: &mut Nodes,
    frames: &mut Frames,
    inner: &mut Nodes,
    around: &mut Stack,
    rest: Rest,
    place: Place,
) -> Result<Option<State>, NoMemory>
    ensures { IfOk result (λ r. LeadsIn (k.keep_body_end nodes.old frames.old place
        (rest_whole rest around.old inner.old)) nodes.new frames.new inner.new around.new r) }
{
    if !finish(inner, around, rest)? {
        return Ok(None);
    }
    nodes.append(inner)?;
    let now = function(nodes, frames, place)?;
    Ok(Some(State::At(now)))
}

/// A token in the block of a function at a place.
pub fn body(
    nodes: &mut Nodes,
    frames: &mut Frames,
    inner: &mut Nodes,
    around: &mut Stack,
    place: Place,
    now: js_machine::Now,
    token: &Token,
    alloc: Global,
) -> Result<Option<State>, NoMemory>
    ensures { IfOk result (λ r. LeadsIn (k.keep (tape.kept_body nodes.old frames.old place
        (js.tape inner.old around.old now)) token.now) nodes.new frames.new inner.new around.new r) }
{
    match step(inner, around, now, token, alloc)? {
        Moved::To(next) => Ok(Some(State::Body(place, next))),
        Moved::Stuck(rest) => {
            if is_brace(&token.what) {
                body_end(nodes, frames, inner, around, rest, place)
            } else {
                Ok(None)
            }
        }
    }
}
