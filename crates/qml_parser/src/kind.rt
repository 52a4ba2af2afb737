//! In the kind of a property or a parameter.

ghost use Rattle.std.specs.Prelude.{◌≡◌, ◌∷◌, Bool, IfOk, Some, None, true, false, MatchOption, if◌then◌else◌};
ghost use Rattle.qml_syntax.specs.Nodes.{Table};
ghost use Rattle.qml_syntax.specs.declared.node.Node.TheVariants as node;
ghost use Rattle.qml_machine.specs.DocumentMachine as m;
ghost use Rattle.qml_machine.specs.DocumentMoves as k;
ghost use Rattle.qml_machine.specs.DocumentTape as tape;
ghost use Rattle.qml_machine.specs.declared.state.Now.TheVariants as state;
ghost use Rattle.qml_machine.specs.declared.state.KindNow.TheVariants as kind_now;
ghost use Rattle.qml_machine.specs.declared.state.MemberNow.TheVariants as member_now;
ghost use Rattle.qml_machine.specs.declared.state.Whose.TheVariants as whose_of;
ghost use Rattle.qml_parser.specs.Going as g;
ghost use Rattle.qml_parser.specs.Reached.{reached, Leads};

use crate::next::Next;
use crate::words::{is_dot, is_greater, is_less, names_alias, names_list};
use js_machine::copied;
use qml_base::{NoMemory, Place};
use qml_machine::{FunctionNow, KindNow, MemberNow, Now, Whose};
use qml_syntax::{Adjective, Mark, Node, Nodes, TokenKind, Word};
use qml_text::Text;
use std::alloc::Global;

/// Where a kind is to come.
pub fn kind_start(
    nodes: &mut Nodes,
    whose: Whose,
    place: Place,
    kind: &TokenKind,
    alloc: Global,
) -> Result<Option<Next>, NoMemory>
    ensures { (fs : tape.Frames) →
        IfOk result (λ r. Leads (k.keep_kind whose nodes.old fs place kind.now) nodes.new fs r) }
{
    match kind {
        TokenKind::Name(name) => {
            nodes.push(Node::First(copied(name, alloc)?, place))?;
            let now = KindNow::KindNamed(whose, names_alias(name), names_list(name));
            Ok(Some(Next::To(Now::Kind(now))))
        }
        TokenKind::Word(Word::Var) => {
            nodes.push(Node::KindVar)?;
            Ok(Some(Next::To(Now::Kind(KindNow::Kinded(whose)))))
        }
        _ => Ok(None),
    }
}

/// The name of an alias behind the kind `alias`: the place where its property begins, and whether `default` stands there.
fn alias_head(whose: Whose, kind: &TokenKind) -> Option<(Place, bool, &Text)>
    ensures { MatchOption result
        (g.head_of whose kind.now ≡ None) (λ head. g.head_of whose kind.now ≡ Some (head.0, head.1, head.2.now)) }
{
    match whose {
        Whose::Declared(at, adjective) => match kind {
            TokenKind::Name(name) => match adjective {
                Adjective::Ordinary => Some((at, false, name)),
                Adjective::Default => Some((at, true, name)),
                Adjective::ReadOnly => None,
            },
            _ => None,
        },
        _ => None,
    }
}

/// The name behind a property's kind, whose node is made.
fn declared(
    nodes: &mut Nodes,
    at: Place,
    adjective: Adjective,
    name: &Text,
    place: Place,
    alloc: Global,
) -> Result<Next, NoMemory>
    ensures { (fs : tape.Frames) → IfOk result (λ r. reached nodes.new fs r ≡
        tape.kept (node.First name.now place ∷ nodes.old) fs (state.Member (member_now.PropertyNamed at adjective))) }
{
    nodes.push(Node::First(copied(name, alloc)?, place))?;
    Ok(Next::To(Now::Member(MemberNow::PropertyNamed(at, adjective))))
}

/// Behind a kind, whose node is made.
pub fn kinded(
    nodes: &mut Nodes,
    whose: Whose,
    place: Place,
    kind: &TokenKind,
    alloc: Global,
) -> Result<Option<Next>, NoMemory>
    ensures { (base : Table) (fs : tape.Frames) →
        IfOk result (λ r. Leads (k.keep_kinded whose false nodes.old base fs place kind.now) nodes.new fs r) }
{
    match whose {
        Whose::Declared(at, adjective) => match kind {
            TokenKind::Name(name) => {
                let next = declared(nodes, at, adjective, name, place, alloc)?;
                Ok(Some(next))
            }
            _ => Ok(None),
        },
        Whose::SignalParameter(at) => match kind {
            TokenKind::Name(name) => {
                nodes.push(Node::SignalParameter(copied(name, alloc)?))?;
                Ok(Some(Next::To(Now::Function(FunctionNow::SignalParNamed(at)))))
            }
            _ => Ok(None),
        },
        Whose::Parameter(at) => parameter_kinded(nodes, at, kind),
        Whose::Result(at) => match kind {
            TokenKind::Mark(Mark::LeftBrace) => Ok(Some(Next::Block(at))),
            _ => Ok(None),
        },
    }
}

/// Behind the kind of a function's parameter.
fn parameter_kinded(
    nodes: &mut Nodes,
    at: Place,
    kind: &TokenKind,
) -> Result<Option<Next>, NoMemory>
    ensures { (is_alias : Bool) (base : Table) (fs : tape.Frames) (place : Place) → IfOk result
        (λ r. Leads (k.keep_kinded (whose_of.Parameter at) is_alias nodes.old base fs place kind.now) nodes.new fs r) }
{
    match kind {
        TokenKind::Mark(Mark::Comma) => {
            nodes.push(Node::Parameter)?;
            Ok(Some(Next::To(Now::Function(FunctionNow::AtPar(at)))))
        }
        TokenKind::Mark(Mark::RightParen) => {
            nodes.push(Node::Parameter)?;
            Ok(Some(Next::To(Now::Function(FunctionNow::FunctionClosed(at)))))
        }
        _ => Ok(None),
    }
}

/// The name behind the kind `alias` of a property: that of an alias.
fn alias_name(
    nodes: &mut Nodes,
    at: Place,
    is_default: bool,
    name: &Text,
    place: Place,
    alloc: Global,
) -> Result<Option<Next>, NoMemory>
    ensures { (fs : tape.Frames) → IfOk result (λ r. Leads (Some (tape.kept (node.First name.now place ∷
        k.popped nodes.old) fs (state.Member (member_now.AliasNamed at is_default)))) nodes.new fs r) }
{
    nodes.pop();
    nodes.push(Node::First(copied(name, alloc)?, place))?;
    Ok(Some(Next::To(Now::Member(MemberNow::AliasNamed(at, is_default)))))
}

/// Behind a name that may be the whole kind, which is `alias` alone: an alias, or a property of this kind.
fn alias_named(
    nodes: &mut Nodes,
    whose: Whose,
    place: Place,
    kind: &TokenKind,
    alloc: Global,
) -> Result<Option<Next>, NoMemory>
    ensures { (fs : tape.Frames) → IfOk result
        (λ r. Leads (k.keep_kinded whose true (node.KindName ∷ nodes.old) nodes.old fs place kind.now) nodes.new fs r) }
{
    match alias_head(whose, kind) {
        Some((at, is_default, name)) => alias_name(nodes, at, is_default, name, place, alloc),
        None => {
            nodes.push(Node::KindName)?;
            kinded(nodes, whose, place, kind, alloc)
        }
    }
}

/// `<` behind the first name of a kind: whether it is `list`.
fn element_start(nodes: &mut Nodes, whose: Whose, is_list: bool) -> Option<Next>
    ensures { (fs : tape.Frames) → Leads (if is_list then Some
        (tape.kept (k.popped nodes.old) fs (state.Kind (kind_now.AtElement whose))) else None) nodes.new fs result }
{
    if is_list {
        nodes.pop();
        Some(Next::To(Now::Kind(KindNow::AtElement(whose))))
    } else {
        None
    }
}

/// Behind a name of a kind: whether the kind is `alias` so far, and whether it is `list`.
pub fn kind_named(
    nodes: &mut Nodes,
    found: (Whose, bool, bool),
    place: Place,
    kind: &TokenKind,
    alloc: Global,
) -> Result<Option<Next>, NoMemory>
    ensures { (fs : tape.Frames) → IfOk result
        (λ r. Leads (k.keep_kind_named found.0 found.1 found.2 nodes.old fs place kind.now) nodes.new fs r) }
{
    let (whose, is_alias, is_list) = found;
    if is_dot(kind) {
        return Ok(Some(Next::To(Now::Kind(KindNow::KindDotted(whose)))));
    }
    if is_less(kind) {
        return Ok(element_start(nodes, whose, is_list));
    }
    if is_alias {
        return alias_named(nodes, whose, place, kind, alloc);
    }
    nodes.push(Node::KindName)?;
    kinded(nodes, whose, place, kind, alloc)
}

/// The name behind a dot of a kind.
pub fn kind_dotted(
    nodes: &mut Nodes,
    whose: Whose,
    kind: &TokenKind,
    alloc: Global,
) -> Result<Option<Next>, NoMemory>
    ensures { (fs : tape.Frames) → IfOk result (λ r. Leads (k.keep_name kind.now (λ x. Some
        (tape.kept (node.Dot x ∷ nodes.old) fs (state.Kind (kind_now.KindNamed whose false false))))) nodes.new fs r) }
{
    match kind {
        TokenKind::Name(name) => {
            nodes.push(Node::Dot(copied(name, alloc)?))?;
            Ok(Some(Next::To(Now::Kind(KindNow::KindNamed(whose, false, false)))))
        }
        _ => Ok(None),
    }
}

/// The name of what a list holds.
pub fn element_name(
    nodes: &mut Nodes,
    whose: Whose,
    place: Place,
    kind: &TokenKind,
    alloc: Global,
) -> Result<Option<Next>, NoMemory>
    ensures { (fs : tape.Frames) → IfOk result (λ r. Leads (k.keep_name kind.now (λ x. Some (tape.kept
        (node.KindList x place ∷ nodes.old) fs (state.Kind (kind_now.ElementNamed whose))))) nodes.new fs r) }
{
    match kind {
        TokenKind::Name(name) => {
            nodes.push(Node::KindList(copied(name, alloc)?, place))?;
            Ok(Some(Next::To(Now::Kind(KindNow::ElementNamed(whose)))))
        }
        _ => Ok(None),
    }
}

/// `>` behind the name of what a list holds.
pub fn element_end(whose: Whose, kind: &TokenKind) -> Option<Next>
    ensures { (s : Table) (fs : tape.Frames) →
        Leads (k.keep_mark (m.is_greater kind.now) (tape.kept s fs (state.Kind (kind_now.Kinded whose)))) s fs result }
{
    if is_greater(kind) {
        Some(Next::To(Now::Kind(KindNow::Kinded(whose))))
    } else {
        None
    }
}
