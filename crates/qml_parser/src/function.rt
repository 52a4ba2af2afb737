//! In a signal, in a function before its block, and between the functions of a script file.

ghost use Rattle.std.specs.Prelude.{◌≡◌, ◌∷◌, IfOk, Some, None, if◌then◌else◌, codes};
ghost use Rattle.std.specs.Str.{bytes_eq};
ghost use Rattle.qml_syntax.specs.Nodes.{Table};
ghost use Rattle.qml_syntax.specs.Words as w;
ghost use Rattle.qml_syntax.specs.declared.node.Node.TheVariants as node;
ghost use Rattle.qml_machine.specs.DocumentMachine as m;
ghost use Rattle.qml_machine.specs.DocumentMoves as k;
ghost use Rattle.qml_machine.specs.DocumentTape as tape;
ghost use Rattle.qml_machine.specs.declared.state.Now.TheVariants as state;
ghost use Rattle.qml_machine.specs.declared.state.FunctionNow.TheVariants as function_now;
ghost use Rattle.qml_machine.specs.declared.state.ScriptNow.TheVariants as script_now;
ghost use Rattle.qml_parser.specs.Reached.{Leads};

use crate::kind::kind_start;
use crate::member::member;
use crate::next::Next;
use crate::words::{Tail, is_dot, is_left_paren, is_right_paren, names_library, names_pragma};
use js_machine::copied;
use qml_base::{NoMemory, Place};
use qml_machine::{Frame, Frames, FunctionNow, KindNow, Now, ScriptNow, Whose};
use qml_syntax::{Close, Mark, Node, Nodes, Token, TokenKind, Word};
use std::alloc::Global;

/// Behind the name of a signal.
pub fn signal_named(
    nodes: &mut Nodes,
    frames: &mut Frames,
    at: Place,
    token: &Token,
    alloc: Global,
) -> Result<Option<Next>, NoMemory>
    ensures { IfOk result (λ r. Leads (k.keep (tape.kept nodes.old frames.old
        (state.Function (function_now.SignalNamed at))) token.now) nodes.new frames.new r) }
{
    if is_left_paren(&token.what) {
        nodes.push(Node::Mark)?;
        return Ok(Some(Next::To(Now::Function(FunctionNow::SignalOpened(at)))));
    }
    let ways = (Node::Signal(at, Close::Semi), Node::Signal(at, Close::Auto));
    member(nodes, frames, Tail::Brackets, ways, token, alloc)
}

/// Behind `(` of a signal.
pub fn signal_opened(
    nodes: &mut Nodes,
    at: Place,
    place: Place,
    kind: &TokenKind,
    alloc: Global,
) -> Result<Option<Next>, NoMemory>
    ensures { (fs : tape.Frames) →
        IfOk result (λ r. Leads (k.keep_signal_opened nodes.old fs at place kind.now) nodes.new fs r) }
{
    if is_right_paren(kind) {
        return Ok(Some(Next::To(Now::Function(FunctionNow::SignalClosed(at)))));
    }
    kind_start(nodes, Whose::SignalParameter(at), place, kind, alloc)
}

/// Behind a parameter of a signal.
pub fn signal_par_named(at: Place, kind: &TokenKind) -> Option<Next>
    ensures { (s : Table) (fs : tape.Frames) → Leads (k.keep_signal_par s fs at kind.now) s fs result }
{
    match kind {
        TokenKind::Mark(Mark::Comma) => {
            Some(Next::To(Now::Kind(KindNow::AtKind(Whose::SignalParameter(at)))))
        }
        TokenKind::Mark(Mark::RightParen) => {
            Some(Next::To(Now::Function(FunctionNow::SignalClosed(at))))
        }
        _ => None,
    }
}

/// The name of a function.
pub fn function_name(
    nodes: &mut Nodes,
    at: Place,
    place: Place,
    kind: &TokenKind,
    alloc: Global,
) -> Result<Option<Next>, NoMemory>
    ensures { (fs : tape.Frames) → IfOk result (λ r. Leads (k.keep_name kind.now (λ x. Some (tape.kept
        (node.First x place ∷ nodes.old) fs (state.Function (function_now.FunctionNamed at))))) nodes.new fs r) }
{
    match kind {
        TokenKind::Name(name) => {
            nodes.push(Node::First(copied(name, alloc)?, place))?;
            Ok(Some(Next::To(Now::Function(FunctionNow::FunctionNamed(at)))))
        }
        _ => Ok(None),
    }
}

/// `(` behind the name of a function.
pub fn function_named(
    nodes: &mut Nodes,
    at: Place,
    kind: &TokenKind,
) -> Result<Option<Next>, NoMemory>
    ensures { (fs : tape.Frames) → IfOk result (λ r. Leads (k.keep_mark (m.is_left_paren kind.now)
        (tape.kept (node.Mark ∷ nodes.old) fs (state.Function (function_now.FunctionOpened at)))) nodes.new fs r) }
{
    if !is_left_paren(kind) {
        return Ok(None);
    }
    nodes.push(Node::Mark)?;
    Ok(Some(Next::To(Now::Function(FunctionNow::FunctionOpened(at)))))
}

/// Behind `(` of a function.
pub fn function_opened(
    nodes: &mut Nodes,
    at: Place,
    kind: &TokenKind,
    alloc: Global,
) -> Result<Option<Next>, NoMemory>
    ensures { (fs : tape.Frames) →
        IfOk result (λ r. Leads (k.keep_function_opened nodes.old fs at kind.now) nodes.new fs r) }
{
    match kind {
        TokenKind::Mark(Mark::RightParen) => {
            Ok(Some(Next::To(Now::Function(FunctionNow::FunctionClosed(at)))))
        }
        TokenKind::Name(name) => {
            nodes.push(Node::ParameterName(copied(name, alloc)?))?;
            Ok(Some(Next::To(Now::Function(FunctionNow::ParNamed(at)))))
        }
        _ => Ok(None),
    }
}

/// The name of a parameter behind a comma.
pub fn par_name(
    nodes: &mut Nodes,
    at: Place,
    kind: &TokenKind,
    alloc: Global,
) -> Result<Option<Next>, NoMemory>
    ensures { (fs : tape.Frames) → IfOk result (λ r. Leads (k.keep_name kind.now (λ x. Some (tape.kept
        (node.ParameterName x ∷ nodes.old) fs (state.Function (function_now.ParNamed at))))) nodes.new fs r) }
{
    match kind {
        TokenKind::Name(name) => {
            nodes.push(Node::ParameterName(copied(name, alloc)?))?;
            Ok(Some(Next::To(Now::Function(FunctionNow::ParNamed(at)))))
        }
        _ => Ok(None),
    }
}

/// Behind the name of a parameter.
pub fn par_named(nodes: &mut Nodes, at: Place, kind: &TokenKind) -> Result<Option<Next>, NoMemory>
    ensures { (fs : tape.Frames) → IfOk result (λ r. Leads (k.keep_par nodes.old fs at kind.now) nodes.new fs r) }
{
    match kind {
        TokenKind::Mark(Mark::Colon) => {
            Ok(Some(Next::To(Now::Kind(KindNow::AtKind(Whose::Parameter(at))))))
        }
        TokenKind::Mark(Mark::Comma) => {
            nodes.push(Node::NoKind)?;
            nodes.push(Node::Parameter)?;
            Ok(Some(Next::To(Now::Function(FunctionNow::AtPar(at)))))
        }
        TokenKind::Mark(Mark::RightParen) => {
            nodes.push(Node::NoKind)?;
            nodes.push(Node::Parameter)?;
            Ok(Some(Next::To(Now::Function(FunctionNow::FunctionClosed(at)))))
        }
        _ => Ok(None),
    }
}

/// Behind `)` of a function.
pub fn function_closed(
    nodes: &mut Nodes,
    at: Place,
    kind: &TokenKind,
) -> Result<Option<Next>, NoMemory>
    ensures { (fs : tape.Frames) →
        IfOk result (λ r. Leads (k.keep_function_closed nodes.old fs at kind.now) nodes.new fs r) }
{
    match kind {
        TokenKind::Mark(Mark::Colon) => {
            Ok(Some(Next::To(Now::Kind(KindNow::AtKind(Whose::Result(at))))))
        }
        TokenKind::Mark(Mark::LeftBrace) => {
            nodes.push(Node::NoKind)?;
            Ok(Some(Next::Block(at)))
        }
        _ => Ok(None),
    }
}

/// Where a function of a script file is to come.
pub fn functions(place: Place, kind: &TokenKind) -> Option<Next>
    ensures { (s : Table) (fs : tape.Frames) → Leads (k.keep_functions s fs place kind.now) s fs result }
{
    match kind {
        TokenKind::Word(Word::Function) => {
            Some(Next::To(Now::Function(FunctionNow::AtFunction(place))))
        }
        _ => None,
    }
}

/// At the start of a script file.
pub fn script_start(frames: &mut Frames, token: &Token) -> Result<Option<Next>, NoMemory>
    ensures found { (s : Table) → IfOk result
        (λ r. Leads (k.keep (tape.kept s frames.old (state.Script script_now.ScriptBegun)) token.now) s frames.new r) }
    ensures kept { IfOk result (λ r. r ≡ None → frames.new ≡ frames.old) }
{
    if is_dot(&token.what) {
        frames.clear();
        frames.push(Frame::Script(true))?;
        return Ok(Some(Next::To(Now::Script(ScriptNow::AtPragma))));
    }
    Ok(functions(token.place, &token.what))
}

/// `pragma` behind a dot.
pub fn pragma_word(kind: &TokenKind) -> Option<Next>
    ensures { (s : Table) (fs : tape.Frames) → Leads (k.keep_name kind.now (λ x.
        k.keep_mark (bytes_eq x (codes "pragma")) (tape.kept s fs (state.Script script_now.AtLibrary)))) s fs result }
{
    match kind {
        TokenKind::Name(name) => {
            if names_pragma(name) {
                Some(Next::To(Now::Script(ScriptNow::AtLibrary)))
            } else {
                None
            }
        }
        _ => None,
    }
}

/// `library` behind `pragma`.
pub fn library_word(kind: &TokenKind) -> Option<Next>
    ensures { (s : Table) (fs : tape.Frames) → Leads (k.keep_name kind.now (λ x.
        k.keep_mark (bytes_eq x (codes "library")) (tape.kept s fs (state.Script script_now.PragmaRead)))) s fs result }
{
    match kind {
        TokenKind::Name(name) => {
            if names_library(name) {
                Some(Next::To(Now::Script(ScriptNow::PragmaRead)))
            } else {
                None
            }
        }
        _ => None,
    }
}

/// Behind `.pragma library`, which a line end ends.
pub fn pragma_end(token: &Token) -> Option<Next>
    ensures { (s : Table) (fs : tape.Frames) → Leads
        (if token.now.after_line then k.keep_functions s fs token.now.place token.now.what else None) s fs result }
{
    if token.after_line {
        functions(token.place, &token.what)
    } else {
        None
    }
}
