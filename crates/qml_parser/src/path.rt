//! Behind the names at the start of a member: ids, paths, properties and aliases.

ghost use Rattle.std.specs.Prelude.{◌≡◌, ◌∷◌, IfOk, Some, None, false, if◌then◌else◌, codes};
ghost use Rattle.std.specs.Str.{bytes_eq};
ghost use Rattle.qml_syntax.specs.Nodes.{Table};
ghost use Rattle.qml_syntax.specs.Words as w;
ghost use Rattle.qml_syntax.specs.declared.node.Node.TheVariants as node;
ghost use Rattle.qml_machine.specs.DocumentMachine as m;
ghost use Rattle.qml_machine.specs.declared.state.Now.TheVariants as state;
ghost use Rattle.qml_machine.specs.declared.state.MemberNow.TheVariants as member_now;
ghost use Rattle.qml_machine.specs.declared.state.KindNow.TheVariants as kind_now;
ghost use Rattle.qml_machine.specs.declared.state.Whose.TheVariants as whose;
ghost use Rattle.qml_machine.specs.declared.state.Frame.TheVariants as frame;
ghost use Rattle.qml_machine.specs.declared.state.FirstWord.TheVariants as word;
ghost use Rattle.qml_machine.specs.declared.state.Count.TheVariants as count;
ghost use Rattle.qml_machine.specs.DocumentMoves as k;
ghost use Rattle.qml_machine.specs.DocumentTape as tape;
ghost use Rattle.qml_parser.specs.Reached.{Leads};

use crate::member::{member, opened};
use crate::next::Next;
use crate::words::{
    Tail, is_colon, is_dot, is_id, is_type, names_alias, names_list, names_property,
};
use js_machine::copied;
use qml_base::{NoMemory, Place};
use qml_machine::{Count, FirstWord, Frame, Frames, FunctionNow, KindNow, MemberNow, Now, Whose};
use qml_syntax::{Adjective, Close, Mark, Node, Nodes, Token, TokenKind, Word};
use qml_text::Text;
use std::alloc::Global;

/// A name behind the first name of a member, which is the word of a property or a signal.
fn path_name(
    nodes: &mut Nodes,
    word: FirstWord,
    at: Place,
    name: &Text,
    place: Place,
    alloc: Global,
) -> Result<Option<Next>, NoMemory>
    ensures { (fs : tape.Frames) →
        IfOk result (λ r. Leads (k.keep_path_name word nodes.old fs at name.now place) nodes.new fs r) }
{
    match word {
        FirstWord::Property => {
            nodes.pop();
            nodes.push(Node::First(copied(name, alloc)?, place))?;
            let whose = Whose::Declared(at, Adjective::Ordinary);
            let now = KindNow::KindNamed(whose, names_alias(name), names_list(name));
            Ok(Some(Next::To(Now::Kind(now))))
        }
        FirstWord::ReadOnly => {
            if names_property(name) {
                nodes.pop();
                let whose = Whose::Declared(at, Adjective::ReadOnly);
                Ok(Some(Next::To(Now::Kind(KindNow::AtKind(whose)))))
            } else {
                Ok(None)
            }
        }
        FirstWord::Signal => {
            nodes.pop();
            nodes.push(Node::First(copied(name, alloc)?, place))?;
            Ok(Some(Next::To(Now::Function(FunctionNow::SignalNamed(at)))))
        }
        FirstWord::Other => Ok(None),
    }
}

/// `var` behind the first name of a member.
fn path_var(nodes: &mut Nodes, word: FirstWord, at: Place) -> Result<Option<Next>, NoMemory>
    ensures { (fs : tape.Frames) → IfOk result (λ r. Leads (k.keep_path_var word nodes.old fs at) nodes.new fs r) }
{
    match word {
        FirstWord::Property => {
            nodes.pop();
            nodes.push(Node::KindVar)?;
            let whose = Whose::Declared(at, Adjective::Ordinary);
            Ok(Some(Next::To(Now::Kind(KindNow::Kinded(whose)))))
        }
        FirstWord::ReadOnly | FirstWord::Signal | FirstWord::Other => Ok(None),
    }
}

/// Behind a path at the start of a member: its place, how many names stand behind the first, which word the first is,
/// whether it is `id` alone, and whether it may name a type.
pub fn path(
    nodes: &mut Nodes,
    frames: &mut Frames,
    found: (Place, Count, FirstWord, bool, bool),
    place: Place,
    kind: &TokenKind,
    alloc: Global,
) -> Result<Option<Next>, NoMemory>
    ensures { IfOk result
        (λ r. Leads (k.keep_path nodes.old frames.old found.0 found.1 found.2 found.3 found.4 place kind.now)
        nodes.new frames.new r) }
{
    let (at, count, word, is_id, types) = found;
    match kind {
        TokenKind::Mark(Mark::Dot) => {
            Ok(Some(Next::To(Now::Member(MemberNow::PathDotted(at, count)))))
        }
        TokenKind::Mark(Mark::Colon) => path_colon(nodes, frames, at, is_id),
        TokenKind::Mark(Mark::LeftBrace) => path_brace(nodes, frames, types),
        TokenKind::Name(name) => match count {
            Count::Zero => path_name(nodes, word, at, name, place, alloc),
            Count::One | Count::More => Ok(None),
        },
        TokenKind::Word(follows) => match follows {
            Word::Var => match count {
                Count::Zero => path_var(nodes, word, at),
                Count::One | Count::More => Ok(None),
            },
            _ => Ok(None),
        },
        _ => Ok(None),
    }
}

/// `:` behind a path.
fn path_colon(
    nodes: &mut Nodes,
    frames: &mut Frames,
    at: Place,
    is_id: bool,
) -> Result<Option<Next>, NoMemory>
    ensures { IfOk result
        (λ r. Leads (if is_id then Some (tape.kept (k.popped nodes.old) frames.old (state.Member (member_now.AtId at)))
        else Some (tape.kept_value nodes.old (frame.Path ∷ frames.old) k.begun_value)) nodes.new frames.new r) }
{
    if is_id {
        nodes.pop();
        Ok(Some(Next::To(Now::Member(MemberNow::AtId(at)))))
    } else {
        frames.push(Frame::Path)?;
        Ok(Some(Next::Value))
    }
}

/// `{` behind a path, which may name a type or not.
fn path_brace(nodes: &mut Nodes, frames: &mut Frames, types: bool) -> Result<Option<Next>, NoMemory>
    ensures { IfOk result (λ r. Leads (if types then Some (k.keep_opened nodes.old frames.old) else Some (tape.kept
        (node.Mark ∷ nodes.old) (frame.Group ∷ frames.old) (state.Member member_now.Members))) nodes.new frames.new r) }
{
    if types {
        let next = opened(nodes, frames)?;
        Ok(Some(next))
    } else {
        nodes.push(Node::Mark)?;
        frames.push(Frame::Group)?;
        Ok(Some(Next::To(Now::Member(MemberNow::Members))))
    }
}

/// The name behind a dot of a path.
pub fn path_dotted(
    nodes: &mut Nodes,
    at: Place,
    count: Count,
    kind: &TokenKind,
    alloc: Global,
) -> Result<Option<Next>, NoMemory>
    ensures { (fs : tape.Frames) →
        IfOk result (λ r. Leads (k.keep_name kind.now (λ x. Some (tape.kept (node.Dot x ∷ nodes.old) fs (state.Member
        (member_now.Path at (k.next_count count) word.Other false (k.next_types count x)))))) nodes.new fs r) }
{
    match kind {
        TokenKind::Name(name) => {
            nodes.push(Node::Dot(copied(name, alloc)?))?;
            let types = match count {
                Count::Zero => is_type(name),
                Count::One | Count::More => false,
            };
            let now = MemberNow::Path(at, next_count(count), FirstWord::Other, false, types);
            Ok(Some(Next::To(Now::Member(now))))
        }
        _ => Ok(None),
    }
}

/// With one name more.
pub fn next_count(count: Count) -> Count
    ensures { result ≡ k.next_count count }
{
    match count {
        Count::Zero => Count::One,
        Count::One | Count::More => Count::More,
    }
}

/// The name of an id.
pub fn id_name(
    nodes: &mut Nodes,
    at: Place,
    place: Place,
    kind: &TokenKind,
    alloc: Global,
) -> Result<Option<Next>, NoMemory>
    ensures { (fs : tape.Frames) → IfOk result (λ r. Leads (k.keep_name kind.now (λ x. k.keep_mark (w.is_id x)
        (tape.kept (node.First x place ∷ nodes.old) fs (state.Member (member_now.IdNamed at))))) nodes.new fs r) }
{
    match kind {
        TokenKind::Name(name) => {
            if !is_id(name) {
                return Ok(None);
            }
            nodes.push(Node::First(copied(name, alloc)?, place))?;
            Ok(Some(Next::To(Now::Member(MemberNow::IdNamed(at)))))
        }
        _ => Ok(None),
    }
}

/// The word `property` behind `default`.
pub fn property_word(at: Place, adjective: Adjective, kind: &TokenKind) -> Option<Next>
    ensures { (s : Table) (fs : tape.Frames) →
        Leads (k.keep_name kind.now (λ x. k.keep_mark (bytes_eq x (codes "property"))
        (tape.kept s fs (state.Kind (kind_now.AtKind (whose.Declared at adjective)))))) s fs result }
{
    match kind {
        TokenKind::Name(name) => {
            if names_property(name) {
                Some(Next::To(Now::Kind(KindNow::AtKind(Whose::Declared(at, adjective)))))
            } else {
                None
            }
        }
        _ => None,
    }
}

/// Behind the name of a property.
pub fn property(
    nodes: &mut Nodes,
    frames: &mut Frames,
    at: Place,
    adjective: Adjective,
    token: &Token,
    alloc: Global,
) -> Result<Option<Next>, NoMemory>
    ensures { IfOk result
        (λ r. Leads (k.keep_property nodes.old frames.old at adjective token.now) nodes.new frames.new r) }
{
    if is_colon(&token.what) {
        frames.push(Frame::Property(at, adjective))?;
        return Ok(Some(Next::Value));
    }
    match adjective {
        Adjective::Ordinary | Adjective::Default => {
            let ways = (
                Node::Bare(at, adjective, Close::Semi),
                Node::Bare(at, adjective, Close::Auto),
            );
            member(nodes, frames, Tail::Value, ways, token, alloc)
        }
        Adjective::ReadOnly => Ok(None),
    }
}

/// `:` behind the name of an alias.
pub fn alias_colon(at: Place, is_default: bool, kind: &TokenKind) -> Option<Next>
    ensures { (s : Table) (fs : tape.Frames) → Leads (k.keep_mark
        (m.is_colon kind.now) (tape.kept s fs (state.Member (member_now.AtTarget at is_default)))) s fs result }
{
    if is_colon(kind) {
        Some(Next::To(Now::Member(MemberNow::AtTarget(at, is_default))))
    } else {
        None
    }
}

/// The first name of an alias's target.
pub fn target_name(
    nodes: &mut Nodes,
    at: Place,
    is_default: bool,
    place: Place,
    kind: &TokenKind,
    alloc: Global,
) -> Result<Option<Next>, NoMemory>
    ensures { (fs : tape.Frames) →
        IfOk result (λ r. Leads (k.keep_name kind.now (λ x. Some (tape.kept (node.First x place ∷ nodes.old) fs
        (state.Member (member_now.Target at is_default count.Zero))))) nodes.new fs r) }
{
    match kind {
        TokenKind::Name(name) => {
            nodes.push(Node::First(copied(name, alloc)?, place))?;
            Ok(Some(Next::To(Now::Member(MemberNow::Target(at, is_default, Count::Zero)))))
        }
        _ => Ok(None),
    }
}

/// The name behind a dot of an alias's target.
pub fn target_dotted(
    nodes: &mut Nodes,
    at: Place,
    is_default: bool,
    count: Count,
    kind: &TokenKind,
    alloc: Global,
) -> Result<Option<Next>, NoMemory>
    ensures { (fs : tape.Frames) → IfOk result (λ r. Leads (k.keep_name kind.now (λ x. Some (tape.kept (node.Dot x ∷
        nodes.old) fs (state.Member (member_now.Target at is_default (k.next_count count)))))) nodes.new fs r) }
{
    match kind {
        TokenKind::Name(name) => {
            nodes.push(Node::Dot(copied(name, alloc)?))?;
            let now = MemberNow::Target(at, is_default, next_count(count));
            Ok(Some(Next::To(Now::Member(now))))
        }
        _ => Ok(None),
    }
}

/// Behind a name of an alias's target.
pub fn target(
    nodes: &mut Nodes,
    frames: &mut Frames,
    at: Place,
    is_default: bool,
    count: Count,
    token: &Token,
    alloc: Global,
) -> Result<Option<Next>, NoMemory>
    ensures { IfOk result
        (λ r. Leads (k.keep_target nodes.old frames.old at is_default count token.now) nodes.new frames.new r) }
{
    let full = match count {
        Count::More => true,
        Count::Zero | Count::One => false,
    };
    if is_dot(&token.what) && !full {
        let now = MemberNow::TargetDotted(at, is_default, count);
        return Ok(Some(Next::To(Now::Member(now))));
    }
    let tail = match count {
        Count::More => Tail::Whole,
        Count::Zero | Count::One => Tail::Dot,
    };
    let ways = (
        Node::Alias(at, is_default, Close::Semi),
        Node::Alias(at, is_default, Close::Auto),
    );
    member(nodes, frames, tail, ways, token, alloc)
}
