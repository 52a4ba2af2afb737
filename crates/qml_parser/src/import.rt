//! Before and in an import, and before the root object.

ghost use Rattle.std.specs.Prelude.{◌≡◌, ◌∷◌, IfOk, Some};
ghost use Rattle.qml_syntax.specs.Nodes.{Table};
ghost use Rattle.qml_syntax.specs.Words as w;
ghost use Rattle.qml_syntax.specs.declared.node.Node.TheVariants as node;
ghost use Rattle.qml_machine.specs.DocumentMachine as m;
ghost use Rattle.qml_machine.specs.DocumentMoves as k;
ghost use Rattle.qml_machine.specs.DocumentTape as tape;
ghost use Rattle.qml_machine.specs.declared.state.Now.TheVariants as state;
ghost use Rattle.qml_machine.specs.declared.state.ImportNow.TheVariants as import_now;
ghost use Rattle.qml_machine.specs.declared.state.ObjectNow.TheVariants as object_now;
ghost use Rattle.qml_syntax.specs.Nodes as n;
ghost use Rattle.qml_parser.specs.Going as g;
ghost use Rattle.qml_parser.specs.Reached.{Leads, that_tail};

use crate::member::opened;
use crate::next::Next;
use crate::words::{Tail, is_as, is_dot, is_left_brace, is_script, is_semi, is_type, stops};
use js_machine::copied;
use qml_base::{NoMemory, Place};
use qml_machine::{Frames, ImportNow, Imported, Now, ObjectNow};
use qml_syntax::{Close, Mark, Node, Nodes, Token, TokenKind, Version, Word};
use std::alloc::Global;

/// Where an import or the root object is to come.
pub fn imports(
    nodes: &mut Nodes,
    place: Place,
    kind: &TokenKind,
    alloc: Global,
) -> Result<Option<Next>, NoMemory>
    ensures { (fs : tape.Frames) →
        IfOk result (λ r. Leads (k.keep_imports nodes.old fs place kind.now) nodes.new fs r) }
{
    match kind {
        TokenKind::Word(Word::Import) => Ok(Some(Next::To(Now::Import(ImportNow::AtImport)))),
        TokenKind::Name(name) => {
            nodes.push(Node::First(copied(name, alloc)?, place))?;
            Ok(Some(Next::To(Now::Object(ObjectNow::ObjectNamed(is_type(name))))))
        }
        _ => Ok(None),
    }
}

/// What is imported.
pub fn import(
    nodes: &mut Nodes,
    place: Place,
    kind: &TokenKind,
    alloc: Global,
) -> Result<Option<Next>, NoMemory>
    ensures { (fs : tape.Frames) → IfOk result (λ r. Leads (k.keep_import nodes.old fs place kind.now) nodes.new fs r) }
{
    match kind {
        TokenKind::Name(name) => {
            nodes.push(Node::First(copied(name, alloc)?, place))?;
            Ok(Some(Next::To(Now::Import(ImportNow::ModuleNamed))))
        }
        TokenKind::Text(text) => {
            nodes.push(Node::File(copied(text, alloc)?, place))?;
            let now = ImportNow::Sourced(Imported::Text(is_script(text)));
            Ok(Some(Next::To(Now::Import(now))))
        }
        _ => Ok(None),
    }
}

/// The node of an import that ends so.
fn import_node(what: Imported, close: Close) -> Node
    ensures { (s : Table) → result ∷ s ≡ k.import_row what (n.close_of close) s }
{
    match what {
        Imported::Module(version) => Node::ImportModule(version, close),
        Imported::Text(_) => Node::ImportFile(close),
    }
}

/// Behind what may be the last token of an import.
pub fn import_end(
    nodes: &mut Nodes,
    tail: Tail,
    what: Imported,
    token: &Token,
    alloc: Global,
) -> Result<Option<Next>, NoMemory>
    ensures { (fs : tape.Frames) →
        IfOk result (λ r. Leads (k.keep_import_end (that_tail tail) what nodes.old fs token.now) nodes.new fs r) }
{
    if is_semi(&token.what) {
        nodes.push(import_node(what, Close::Semi))?;
        return Ok(Some(Next::To(Now::Import(ImportNow::Imports))));
    }
    if stops(tail, token) {
        nodes.push(import_node(what, Close::Auto))?;
        return imports(nodes, token.place, &token.what, alloc);
    }
    Ok(None)
}

/// Whether it needs a qualifier: a script file does.
fn needs(what: Imported) -> bool
    ensures { result ≡ k.needs what }
{
    match what {
        Imported::Module(_) => false,
        Imported::Text(is_script) => is_script,
    }
}

/// Behind what is imported, before a qualifier.
pub fn sourced(
    nodes: &mut Nodes,
    tail: Tail,
    what: Imported,
    token: &Token,
    alloc: Global,
) -> Result<Option<Next>, NoMemory>
    ensures { (fs : tape.Frames) →
        IfOk result (λ r. Leads (k.keep_sourced (that_tail tail) what nodes.old fs token.now) nodes.new fs r) }
{
    if is_as(&token.what) {
        return Ok(Some(Next::To(Now::Import(ImportNow::AtQualifier(what)))));
    }
    if needs(what) {
        return Ok(None);
    }
    nodes.push(Node::Plain)?;
    import_end(nodes, tail, what, token, alloc)
}

/// The version that a token is, if it is one.
fn version(kind: &TokenKind) -> Option<Version>
    ensures { result ≡ g.version_of kind.now }
{
    match kind {
        TokenKind::Version => Some(Version::Full),
        TokenKind::Number(number) => Some(Version::Number(*number)),
        _ => None,
    }
}

/// Behind a name of a module.
pub fn module(nodes: &mut Nodes, token: &Token, alloc: Global) -> Result<Option<Next>, NoMemory>
    ensures { (fs : tape.Frames) →
        IfOk result (λ r. Leads (k.keep_module nodes.old fs token.now token.now.what) nodes.new fs r) }
{
    if is_dot(&token.what) {
        return Ok(Some(Next::To(Now::Import(ImportNow::ModuleDotted))));
    }
    match version(&token.what) {
        Some(version) => {
            let what = Imported::Module(version);
            Ok(Some(Next::To(Now::Import(ImportNow::Sourced(what)))))
        }
        None => {
            let what = Imported::Module(Version::Absent);
            sourced(nodes, Tail::Version, what, token, alloc)
        }
    }
}

/// The name behind a dot of a module.
pub fn module_dotted(
    nodes: &mut Nodes,
    kind: &TokenKind,
    alloc: Global,
) -> Result<Option<Next>, NoMemory>
    ensures { (fs : tape.Frames) → IfOk result (λ r. Leads (k.keep_name kind.now
        (λ x. Some (tape.kept (node.Dot x ∷ nodes.old) fs (state.Import import_now.ModuleNamed)))) nodes.new fs r) }
{
    match kind {
        TokenKind::Name(name) => {
            nodes.push(Node::Dot(copied(name, alloc)?))?;
            Ok(Some(Next::To(Now::Import(ImportNow::ModuleNamed))))
        }
        _ => Ok(None),
    }
}

/// The qualifier behind `as`.
pub fn qualifier(
    nodes: &mut Nodes,
    what: Imported,
    kind: &TokenKind,
    alloc: Global,
) -> Result<Option<Next>, NoMemory>
    ensures { (fs : tape.Frames) → IfOk result (λ r. Leads (k.keep_name kind.now (λ q. Some
        (tape.kept (node.Qualifier q ∷ nodes.old) fs (state.Import (import_now.Qualified what))))) nodes.new fs r) }
{
    match kind {
        TokenKind::Name(name) => {
            nodes.push(Node::Qualifier(copied(name, alloc)?))?;
            Ok(Some(Next::To(Now::Import(ImportNow::Qualified(what)))))
        }
        _ => Ok(None),
    }
}

/// Where an object of a list is to come.
pub fn object_name(
    nodes: &mut Nodes,
    place: Place,
    kind: &TokenKind,
    alloc: Global,
) -> Result<Option<Next>, NoMemory>
    ensures { (fs : tape.Frames) → IfOk result (λ r. Leads (k.keep_name kind.now (λ x. Some (tape.kept
        (node.First x place ∷ nodes.old) fs (state.Object (object_now.ObjectNamed (w.is_type x)))))) nodes.new fs r) }
{
    match kind {
        TokenKind::Name(name) => {
            nodes.push(Node::First(copied(name, alloc)?, place))?;
            Ok(Some(Next::To(Now::Object(ObjectNow::ObjectNamed(is_type(name))))))
        }
        _ => Ok(None),
    }
}

/// Behind the first name of an object's type, which may name a type or not.
pub fn object_named(
    nodes: &mut Nodes,
    frames: &mut Frames,
    types: bool,
    kind: &TokenKind,
) -> Result<Option<Next>, NoMemory>
    ensures { IfOk result
        (λ r. Leads (k.keep_object_named types nodes.old frames.old kind.now) nodes.new frames.new r) }
{
    match kind {
        TokenKind::Mark(Mark::Dot) => Ok(Some(Next::To(Now::Object(ObjectNow::ObjectDotted)))),
        TokenKind::Mark(Mark::LeftBrace) => {
            if types {
                let next = opened(nodes, frames)?;
                Ok(Some(next))
            } else {
                Ok(None)
            }
        }
        _ => Ok(None),
    }
}

/// The name behind the dot of an object's type.
pub fn object_dotted(
    nodes: &mut Nodes,
    kind: &TokenKind,
    alloc: Global,
) -> Result<Option<Next>, NoMemory>
    ensures { (fs : tape.Frames) → IfOk result (λ r. Leads (k.keep_name kind.now (λ x. k.keep_mark
        (w.is_type x) (tape.kept (node.Dot x ∷ nodes.old) fs (state.Object object_now.Typed)))) nodes.new fs r) }
{
    match kind {
        TokenKind::Name(name) => {
            if !is_type(name) {
                return Ok(None);
            }
            nodes.push(Node::Dot(copied(name, alloc)?))?;
            Ok(Some(Next::To(Now::Object(ObjectNow::Typed))))
        }
        _ => Ok(None),
    }
}

/// `{` behind the name of an object's type.
pub fn typed(
    nodes: &mut Nodes,
    frames: &mut Frames,
    kind: &TokenKind,
) -> Result<Option<Next>, NoMemory>
    ensures { IfOk result (λ r.
        Leads (k.keep_mark (m.is_left_brace kind.now) (k.keep_opened nodes.old frames.old)) nodes.new frames.new r) }
{
    if is_left_brace(kind) {
        let next = opened(nodes, frames)?;
        Ok(Some(next))
    } else {
        Ok(None)
    }
}
