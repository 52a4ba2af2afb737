//! The two entries.

ghost use Rattle.std.specs.Prelude.{◌≡◌, ◌≤◌, [], ◌∷◌, ◌++◌, Bool, List, IfOk, Option, Some, None, length, drop, if◌then◌else◌};
ghost use Rattle.qml_syntax.specs.Opened.{IsListing};
ghost use Rattle.qml_syntax.specs.Depth.{deep_whole};
ghost use Rattle.qml_syntax.specs.Listed.{listed_whole};
ghost use Rattle.qml_syntax.specs.Tree.{Whole};
ghost use Rattle.qml_syntax.specs.declared.token.Token.{Token};
ghost use Rattle.qml_syntax.specs.declared.token.TokenKind.TheVariants as k;
ghost use Rattle.qml_machine.specs.DocumentMachine.{a_document, a_script};
ghost use Rattle.qml_machine.specs.DocumentAnswer.{TellsText, parse_of};
ghost use Rattle.qml_machine.specs.KeptDocument.{keep_run, keep_start, kept_text};
ghost use Rattle.qml_parser.specs.Answer.{entry_of, Lists, Judges, Mirrors};
ghost use Rattle.qml_parser.specs.Reached.{kept_in};
ghost use Rattle.qml_syntax.specs.declared.node.Node as n;
ghost use Rattle.js_machine.specs.declared.open.Frame as f;

use crate::next::State;
use crate::steps::step_file;
use js_machine::{ParseFault, Stack};
use qml_base::{NoMemory, Place};
use qml_machine::{Frame, Frames, ImportNow, Now, ObjectNow, ScriptNow};
use qml_syntax::{Node, Nodes, Token, Tree};
use std::alloc::Global;

/// Where a file begins.
const FIRST_PLACE: Place = Place { line: 1, column: 1 };

/// Where the tokens end or no read prefix goes on: whether there is a tree, whose nodes these are then.
fn finish_file(nodes: &mut Nodes, frames: &mut Frames, state: State) -> Result<bool, NoMemory>
    ensures { (inner : List n.Node) (around : List f.Frame) → IfOk result
        (λ r. kept_text (kept_in nodes.old frames.old inner around state) ≡ (if r then Some nodes.new else None)) }
{
    match state {
        State::At(Now::Object(ObjectNow::Rooted)) => nodes.push(Node::Document)?,
        State::At(Now::Script(ScriptNow::ScriptBegun)) => nodes.push(Node::Script(false))?,
        State::At(Now::Script(ScriptNow::PragmaRead)) => nodes.push(Node::Script(true))?,
        State::At(Now::Script(ScriptNow::Functions)) => match frames.pop() {
            Some(Frame::Script(pragma)) => nodes.push(Node::Script(pragma))?,
            _ => return Ok(false),
        },
        _ => return Ok(false),
    }
    Ok(true)
}

/// Opens a document or a script file.
fn start(is_script: bool, nodes: &mut Nodes, frames: &mut Frames) -> Result<State, NoMemory>
    ensures { (inner : List n.Node) (around : List f.Frame) → IfOk result (λ state. nodes.old ≡ [] →
        frames.old ≡ [] → kept_in nodes.new frames.new inner around state ≡ keep_start (entry_of is_script)) }
{
    nodes.push(Node::Mark)?;
    if is_script {
        frames.push(Frame::Script(false))?;
        Ok(State::At(Now::Script(ScriptNow::ScriptBegun)))
    } else {
        frames.push(Frame::Root)?;
        Ok(State::At(Now::Import(ImportNow::Imports)))
    }
}

/// Reads tokens: whether there is a tree, whose nodes these are then, and how many tokens are read.
fn read_file(
    nodes: &mut Nodes,
    frames: &mut Frames,
    first: State,
    tokens: &[Token],
    alloc: Global,
) -> Result<(bool, usize), NoMemory>
    ensures { IfOk result (λ r. (keep_run tokens.now (kept_in nodes.old frames.old [] [] first) ≡
        record { tree = if r.0 then Some nodes.new else None; rest = drop r.1 tokens.now }) ×
        (r.1 ≤ length tokens.now)) }
{
    let mut inner = Nodes::new(alloc);
    let mut around = Stack::new(alloc);
    let mut state = first;
    let mut count = 0;
    for token in tokens {
        let next = step_file(nodes, frames, &mut inner, &mut around, state, token, alloc)?;
        match next {
            Some(next) => state = next,
            None => {
                let found = finish_file(nodes, frames, state)?;
                return Ok((found, count));
            }
        }
        count += 1;
    }
    let found = finish_file(nodes, frames, state)?;
    Ok((found, count))
}

/// Reads tokens from the first on: the nodes, whether they are a tree's, and how many tokens are read.
fn front(alloc: Global, is_script: bool, tokens: &[Token]) -> Result<(Nodes, bool, usize), NoMemory>
    ensures { IfOk result (λ r. (keep_run tokens.now (keep_start (entry_of is_script)) ≡
        record { tree = if r.1 then Some r.0 else None; rest = drop r.2 tokens.now }) × (r.2 ≤ length tokens.now)) }
{
    let mut nodes = Nodes::new(alloc);
    let mut frames = Frames::new(alloc);
    let first = start(is_script, &mut nodes, &mut frames)?;
    let (found, count) = read_file(&mut nodes, &mut frames, first, tokens, alloc)?;
    Ok((nodes, found, count))
}

/// The tree of nodes, where none of them stands too deep.
fn judged(alloc: Global, nodes: Nodes) -> Result<Tree, ParseFault>
    requires { IsListing nodes }
    ensures { Judges nodes result }
{
    match nodes.too_deep(alloc) {
        Err(_) => Err(ParseFault::NoMemory),
        Ok(Some(place)) => Err(ParseFault::TooDeep { place }),
        Ok(None) => match Tree::new(alloc, nodes) {
            Ok(tree) => Ok(tree),
            Err(_) => Err(ParseFault::NoMemory),
        },
    }
}

/// The place of a token, and of nothing behind the last.
fn place_at(tokens: &[Token], at: usize) -> Place
    ensures { (t : Token) (more : List Token) → drop at tokens.now ≡ t ∷ more → result ≡ t.place }
{
    match tokens.get(at) {
        Some(token) => token.place,
        None => FIRST_PLACE,
    }
}

/// Reads a document or a script file.
fn parse(alloc: Global, is_script: bool, tokens: &[Token]) -> Result<Tree, ParseFault>
    ensures { (before : List Token) (e : Token) →
        tokens.now ≡ before ++ e ∷ [] → e.what ≡ k.End → Mirrors (parse_of (entry_of is_script) tokens.now) result }
{
    match front(alloc, is_script, tokens) {
        Err(_) => Err(ParseFault::NoMemory),
        Ok((nodes, found, count)) => {
            if found && count + 1 == tokens.len() {
                judged(alloc, nodes)
            } else {
                Err(ParseFault::Syntax {
                    place: place_at(tokens, count),
                })
            }
        }
    }
}

/// Reads the tokens of a document, which end in the end of the file. The answer is the tree of all tokens before the end;
/// `Syntax` exactly where no document reads them, at the first token, the end included, with which no read prefix goes on;
/// `TooDeep`, at the first token of the first node that stands deeper than 100, exactly where one does (Qt 5.15, "QML
/// Syntax Basics" and "QML Object Attributes", as far as `qml_syntax`'s `ReadsDocument` says). So `Syntax` is told before
/// `TooDeep`. Nothing recurses. Where the last token isn't the end of the file, nothing is said of the answer.
pub fn parse_document(alloc: Global, tokens: &[Token]) -> Result<Tree, ParseFault>
    ensures { (before : List Token) (e : Token) →
        tokens.now ≡ before ++ e ∷ [] → e.what ≡ k.End → TellsText Lists a_document before e result }
{
    parse(alloc, false, tokens)
}

/// Reads the tokens of a script file, which is functions alone, likewise (Qt 5.15, "Defining JavaScript Resources in QML").
pub fn parse_functions(alloc: Global, tokens: &[Token]) -> Result<Tree, ParseFault>
    ensures { (before : List Token) (e : Token) →
        tokens.now ≡ before ++ e ∷ [] → e.what ≡ k.End → TellsText Lists a_script before e result }
{
    parse(alloc, true, tokens)
}
