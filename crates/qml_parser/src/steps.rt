//! One token.

ghost use Rattle.std.specs.Prelude.{◌≡◌, ◌∷◌, IfOk};
ghost use Rattle.qml_machine.specs.DocumentMoves as k;
ghost use Rattle.qml_machine.specs.DocumentTape.{kept};
ghost use Rattle.qml_machine.specs.KeptDocument.{kept_text};
ghost use Rattle.qml_machine.specs.declared.state.Now.TheVariants as state;
ghost use Rattle.qml_parser.specs.Reached.{kept_in, Leads, Leaves, Goes};

use crate::function::{
    function_closed, function_name, function_named, function_opened, functions, library_word,
    par_name, par_named, pragma_end, pragma_word, script_start, signal_named, signal_opened,
    signal_par_named,
};
use crate::import::{
    import, import_end, imports, module, module_dotted, object_dotted, object_name, object_named,
    qualifier, sourced, typed,
};
use crate::kind::{element_end, element_name, kind_dotted, kind_named, kind_start, kinded};
use crate::member::{DONE, done, member, members, valued};
use crate::next::{Next, State};
use crate::path::{
    alias_colon, id_name, path, path_dotted, property, property_word, target, target_dotted,
    target_name,
};
use crate::value::{begin, body, value};
use crate::words::Tail;
use js_machine::Stack;
use qml_base::NoMemory;
use qml_machine::{
    Frame, Frames, FunctionNow, ImportNow, KindNow, MemberNow, Now, ObjectNow, ScriptNow,
};
use qml_syntax::{Close, Mark, Node, Nodes, Token, TokenKind};
use std::alloc::Global;

/// Behind an object of a list.
fn objects(
    nodes: &mut Nodes,
    frames: &mut Frames,
    kind: &TokenKind,
) -> Result<Option<Next>, NoMemory>
    ensures { IfOk result (λ r. Leads (k.keep_objects nodes.old frames.old kind.now) nodes.new frames.new r) }
{
    match kind {
        TokenKind::Mark(Mark::Comma) => Ok(Some(Next::To(Now::Object(ObjectNow::AtObject)))),
        TokenKind::Mark(Mark::RightBracket) => match frames.pop() {
            Some(Frame::List(place)) => {
                nodes.push(Node::ObjectList(place))?;
                valued(nodes, frames)?;
                Ok(Some(DONE))
            }
            _ => Ok(None),
        },
        _ => Ok(None),
    }
}

/// A token before or in an import.
fn in_import(
    nodes: &mut Nodes,
    frames: &mut Frames,
    now: ImportNow,
    token: &Token,
    alloc: Global,
) -> Result<Option<Next>, NoMemory>
    ensures { IfOk result
        (λ r. Leads (k.keep (kept nodes.old frames.old (state.Import now)) token.now) nodes.new frames.new r) }
{
    let (place, kind) = (token.place, &token.what);
    match now {
        ImportNow::Imports => imports(nodes, place, kind, alloc),
        ImportNow::AtImport => import(nodes, place, kind, alloc),
        ImportNow::ModuleNamed => module(nodes, token, alloc),
        ImportNow::ModuleDotted => module_dotted(nodes, kind, alloc),
        ImportNow::Sourced(what) => sourced(nodes, Tail::As, what, token, alloc),
        ImportNow::AtQualifier(what) => qualifier(nodes, what, kind, alloc),
        ImportNow::Qualified(what) => import_end(nodes, Tail::Whole, what, token, alloc),
    }
}

/// A token before the members of an object, or behind one.
fn in_object(
    nodes: &mut Nodes,
    frames: &mut Frames,
    now: ObjectNow,
    token: &Token,
    alloc: Global,
) -> Result<Option<Next>, NoMemory>
    ensures { IfOk result (λ r. Leaves (k.keep (kept nodes.old frames.old (state.Object now)) token.now)
        (kept_text (kept nodes.old frames.old (state.Object now))) (state.Object now) nodes.new frames.new r) }
{
    let (place, kind) = (token.place, &token.what);
    match now {
        ObjectNow::AtObject => object_name(nodes, place, kind, alloc),
        ObjectNow::ObjectNamed(types) => object_named(nodes, frames, types, kind),
        ObjectNow::ObjectDotted => object_dotted(nodes, kind, alloc),
        ObjectNow::Typed => typed(nodes, frames, kind),
        ObjectNow::Rooted => Ok(None),
        ObjectNow::Objects => objects(nodes, frames, kind),
    }
}

/// A token among members.
fn in_member(
    nodes: &mut Nodes,
    frames: &mut Frames,
    now: MemberNow,
    token: &Token,
    alloc: Global,
) -> Result<Option<Next>, NoMemory>
    ensures { IfOk result
        (λ r. Leads (k.keep (kept nodes.old frames.old (state.Member now)) token.now) nodes.new frames.new r) }
{
    let (place, kind) = (token.place, &token.what);
    match now {
        MemberNow::Members => members(nodes, frames, place, kind, alloc),
        MemberNow::Done => done(nodes, frames, token, alloc),
        MemberNow::Path(at, count, word, is_id, types) => {
            path(
                nodes,
                frames,
                (at, count, word, is_id, types),
                place,
                kind,
                alloc,
            )
        }
        MemberNow::PathDotted(at, count) => path_dotted(nodes, at, count, kind, alloc),
        MemberNow::AtId(at) => id_name(nodes, at, place, kind, alloc),
        MemberNow::IdNamed(at) => {
            let ways = (Node::Id(at, Close::Semi), Node::Id(at, Close::Auto));
            member(nodes, frames, Tail::Whole, ways, token, alloc)
        }
        MemberNow::AtProperty(at, adjective) => Ok(property_word(at, adjective, kind)),
        MemberNow::PropertyNamed(at, adjective) => {
            property(nodes, frames, at, adjective, token, alloc)
        }
        MemberNow::AliasNamed(at, default) => Ok(alias_colon(at, default, kind)),
        MemberNow::AtTarget(at, default) => target_name(nodes, at, default, place, kind, alloc),
        MemberNow::Target(at, default, count) => {
            target(nodes, frames, at, default, count, token, alloc)
        }
        MemberNow::TargetDotted(at, default, count) => {
            target_dotted(nodes, at, default, count, kind, alloc)
        }
    }
}

/// A token in a kind.
fn in_kind(
    nodes: &mut Nodes,
    frames: &mut Frames,
    now: KindNow,
    token: &Token,
    alloc: Global,
) -> Result<Option<Next>, NoMemory>
    ensures { IfOk result
        (λ r. Leads (k.keep (kept nodes.old frames.old (state.Kind now)) token.now) nodes.new frames.new r) }
{
    let (place, kind) = (token.place, &token.what);
    match now {
        KindNow::AtKind(whose) => kind_start(nodes, whose, place, kind, alloc),
        KindNow::KindNamed(whose, is_alias, is_list) => {
            kind_named(nodes, (whose, is_alias, is_list), place, kind, alloc)
        }
        KindNow::KindDotted(whose) => kind_dotted(nodes, whose, kind, alloc),
        KindNow::AtElement(whose) => element_name(nodes, whose, place, kind, alloc),
        KindNow::ElementNamed(whose) => Ok(element_end(whose, kind)),
        KindNow::Kinded(whose) => kinded(nodes, whose, place, kind, alloc),
    }
}

/// A token in a signal, or in a function before its block.
fn in_function(
    nodes: &mut Nodes,
    frames: &mut Frames,
    now: FunctionNow,
    token: &Token,
    alloc: Global,
) -> Result<Option<Next>, NoMemory>
    ensures { IfOk result
        (λ r. Leads (k.keep (kept nodes.old frames.old (state.Function now)) token.now) nodes.new frames.new r) }
{
    let (place, kind) = (token.place, &token.what);
    match now {
        FunctionNow::SignalNamed(at) => signal_named(nodes, frames, at, token, alloc),
        FunctionNow::SignalOpened(at) => signal_opened(nodes, at, place, kind, alloc),
        FunctionNow::SignalParNamed(at) => Ok(signal_par_named(at, kind)),
        FunctionNow::SignalClosed(at) => {
            let ways = (
                Node::SignalWith(at, Close::Semi),
                Node::SignalWith(at, Close::Auto),
            );
            member(nodes, frames, Tail::Whole, ways, token, alloc)
        }
        FunctionNow::AtFunction(at) => function_name(nodes, at, place, kind, alloc),
        FunctionNow::FunctionNamed(at) => function_named(nodes, at, kind),
        FunctionNow::FunctionOpened(at) => function_opened(nodes, at, kind, alloc),
        FunctionNow::AtPar(at) => par_name(nodes, at, kind, alloc),
        FunctionNow::ParNamed(at) => par_named(nodes, at, kind),
        FunctionNow::FunctionClosed(at) => function_closed(nodes, at, kind),
    }
}

/// A token in a script file, between functions.
fn in_script(
    nodes: &Nodes,
    frames: &mut Frames,
    now: ScriptNow,
    token: &Token,
) -> Result<Option<Next>, NoMemory>
    ensures { IfOk result (λ r. Leaves (k.keep (kept nodes.now frames.old (state.Script now)) token.now)
        (kept_text (kept nodes.now frames.old (state.Script now))) (state.Script now) nodes.now frames.new r) }
{
    let (place, kind) = (token.place, &token.what);
    match now {
        ScriptNow::ScriptBegun => script_start(frames, token),
        ScriptNow::AtPragma => Ok(pragma_word(kind)),
        ScriptNow::AtLibrary => Ok(library_word(kind)),
        ScriptNow::PragmaRead => Ok(pragma_end(token)),
        ScriptNow::Functions => Ok(functions(place, kind)),
    }
}

/// A token outside of values and of the blocks of functions.
fn outside(
    nodes: &mut Nodes,
    frames: &mut Frames,
    now: Now,
    token: &Token,
    alloc: Global,
) -> Result<Option<Next>, NoMemory>
    ensures { IfOk result (λ r. Leaves (k.keep (kept nodes.old frames.old now) token.now)
        (kept_text (kept nodes.old frames.old now)) now nodes.new frames.new r) }
{
    match now {
        Now::Import(now) => in_import(nodes, frames, now, token, alloc),
        Now::Object(now) => in_object(nodes, frames, now, token, alloc),
        Now::Member(now) => in_member(nodes, frames, now, token, alloc),
        Now::Kind(now) => in_kind(nodes, frames, now, token, alloc),
        Now::Function(now) => in_function(nodes, frames, now, token, alloc),
        Now::Script(now) => in_script(nodes, frames, now, token),
    }
}

/// Reads one token: what has been read then, or nothing where no read prefix goes on with it.
pub fn step_file(
    nodes: &mut Nodes,
    frames: &mut Frames,
    inner: &mut Nodes,
    around: &mut Stack,
    state: State,
    token: &Token,
    alloc: Global,
) -> Result<Option<State>, NoMemory>
    ensures { IfOk result
        (λ r. Goes (k.keep (kept_in nodes.old frames.old inner.old around.old state) token.now) (kept_text
        (kept_in nodes.old frames.old inner.old around.old state)) nodes.new frames.new inner.new around.new state r) }
{
    match state {
        State::At(now) => match outside(nodes, frames, now, token, alloc)? {
            Some(next) => {
                let state = begin(inner, around, next)?;
                Ok(Some(state))
            }
            None => Ok(None),
        },
        State::Value(now) => value(nodes, frames, inner, around, now, token, alloc),
        State::Body(place, now) => body(nodes, frames, inner, around, place, now, token, alloc),
    }
}
