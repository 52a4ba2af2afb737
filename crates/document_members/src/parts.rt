//! The parts of a member, taken from the last on.

ghost use Rattle.std.specs.Prelude.{◌≡◌, [], IfOk};
ghost use Rattle.qml_syntax.specs.Onto.{onto};
ghost use Rattle.qml_syntax.specs.Places.{part_at};
ghost use Rattle.document_members.specs.Parts as s;

use crate::member::NamePath;
use qml_base::{NoMemory, Place};
use qml_syntax::{Node, Tree};
use qml_text::Text;
use std::alloc::Global;

/// A name and its place.
#[derive(Debug, Drop)]
pub struct Name {
    pub text: Text,
    pub at: Place,
}

/// What a function's first part and its node say: the place of the word `function`, and the name.
#[derive(Debug, Drop)]
pub struct Head {
    pub word: Place,
    pub name: Name,
}

fn copied(alloc: Global, text: &Text) -> Result<Text, NoMemory>
    ensures { IfOk result (λ t. t ≡ text.now) }
{
    match text.copy(alloc) {
        Ok(copy) => Ok(copy),
        Err(_) => Err(NoMemory),
    }
}

/// No name.
fn no_name() -> Name
    ensures { result ≡ s.no_name }
{
    Name {
        text: Text::new(),
        at: Place { line: 0, column: 0 },
    }
}

/// The name that a node is.
fn name_by(alloc: Global, node: &Node) -> Result<Name, NoMemory>
    ensures { IfOk result (λ name. name ≡ s.name_by node.now) }
{
    match node {
        Node::First(text, at) => Ok(Name {
            text: copied(alloc, text)?,
            at: *at,
        }),
        _ => Ok(no_name()),
    }
}

/// The name at a place.
#[tactic(auto, using(crate::proofs::PartLemmas::name_found, crate::proofs::PartLemmas::name_missing))]
pub fn name_at(alloc: Global, tree: &Tree, part: usize) -> Result<Name, NoMemory>
    ensures { IfOk result (λ name. name ≡ s.name_in (part_at tree.now part)) }
{
    match tree.node(part) {
        Some(node) => {
            let name = name_by(alloc, node)?;
            Ok(name)
        }
        None => Ok(no_name()),
    }
}

/// The name behind a dot that a node is.
fn dot_by(alloc: Global, node: &Node) -> Result<Option<Text>, NoMemory>
    ensures { IfOk result (λ name. name ≡ s.dot_by node.now) }
{
    match node {
        Node::Dot(text) => Ok(Some(copied(alloc, text)?)),
        _ => Ok(None),
    }
}

/// The name behind a dot at a place.
#[tactic(auto, using(crate::proofs::PartLemmas::dot_found, crate::proofs::PartLemmas::dot_missing))]
fn dot_at(alloc: Global, tree: &Tree, part: usize) -> Result<Option<Text>, NoMemory>
    ensures { IfOk result (λ name. name ≡ s.dot_in (part_at tree.now part)) }
{
    match tree.node(part) {
        Some(node) => {
            let name = dot_by(alloc, node)?;
            Ok(name)
        }
        None => Ok(None),
    }
}

/// The name of the signal's parameter that a node is.
fn parameter_by(alloc: Global, node: &Node) -> Result<Option<Text>, NoMemory>
    ensures { IfOk result (λ name. name ≡ s.parameter_by node.now) }
{
    match node {
        Node::SignalParameter(text) => Ok(Some(copied(alloc, text)?)),
        _ => Ok(None),
    }
}

/// The name of the signal's parameter at a place.
#[tactic(auto, using(crate::proofs::PartLemmas::parameter_found, crate::proofs::PartLemmas::parameter_missing))]
fn parameter_at(alloc: Global, tree: &Tree, part: usize) -> Result<Option<Text>, NoMemory>
    ensures { IfOk result (λ name. name ≡ s.parameter_in (part_at tree.now part)) }
{
    match tree.node(part) {
        Some(node) => {
            let name = parameter_by(alloc, node)?;
            Ok(name)
        }
        None => Ok(None),
    }
}

/// Takes the last part: its place, and where there is none the one behind all nodes.
#[tactic(auto, using(crate::proofs::PartLemmas::place_popped, crate::proofs::PartLemmas::no_place_popped))]
pub fn pop_place(tree: &Tree, parts: &mut Vec<usize>) -> usize
    ensures { s.PopsPlace tree.now parts.old.items parts.new.items result }
{
    match parts.pop() {
        Some(part) => part,
        None => tree.len(),
    }
}

/// Takes the last part as a name.
#[tactic(auto, using(crate::proofs::PartLemmas::name_of_place))]
pub fn pop_name(alloc: Global, tree: &Tree, parts: &mut Vec<usize>) -> Result<Name, NoMemory>
    ensures { IfOk result (λ name. s.PopsName tree.now parts.old.items parts.new.items name) }
{
    let part = pop_place(tree, parts);
    let name = name_at(alloc, tree, part)?;
    Ok(name)
}

/// Takes the last parts as a path: a name and those behind dots.
#[tactic(auto, using(crate::proofs::PathLemmas::dots_begin, crate::proofs::PathLemmas::dots_go_on, crate::proofs::PathLemmas::path_ends, crate::proofs::PathLemmas::path_runs_out))]
pub fn pop_path(alloc: Global, tree: &Tree, parts: &mut Vec<usize>) -> Result<NamePath, NoMemory>
    ensures { IfOk result (λ path. s.PopsPath tree.now parts.old.items parts.new.items path) }
{
    let mut rest = Vec::new(alloc);
    'parts: while let Some(part) = parts.pop() {
        let dot = dot_at(alloc, tree, part)?;
        match dot {
            Some(name) => rest.push(name)?,
            None => {
                let name = name_at(alloc, tree, part)?;
                return Ok(path_of(name, rest));
            }
        }
    }
    Ok(path_of(no_name(), rest))
}

/// A path of a name and those behind it, the last first.
#[tactic(auto, using(crate::proofs::PathLemmas::turned))]
fn path_of(name: Name, rest: Vec<Text>) -> NamePath
    ensures { s.parts_of_path result ≡ ((name.text, name.at), onto rest.items []) }
{
    let mut turned = rest;
    turned.reverse();
    NamePath {
        first: name.text,
        at: name.at,
        rest: turned,
    }
}

/// Takes the last parts as parameters of a signal, and the mark before them.
#[tactic(auto, using(crate::proofs::PathLemmas::parameters_begin, crate::proofs::PathLemmas::parameters_go_on, crate::proofs::PathLemmas::parameters_end, crate::proofs::PathLemmas::parameters_run_out))]
pub fn pop_parameters(
    alloc: Global,
    tree: &Tree,
    parts: &mut Vec<usize>,
) -> Result<Vec<Text>, NoMemory>
    ensures { IfOk result (λ names. s.PopsParameters tree.now parts.old.items parts.new.items names.items) }
{
    let mut names = Vec::new(alloc);
    'parts: while let Some(part) = parts.pop() {
        let parameter = parameter_at(alloc, tree, part)?;
        match parameter {
            Some(name) => names.push(name)?,
            None => {
                names.reverse();
                return Ok(names);
            }
        }
    }
    names.reverse();
    Ok(names)
}

/// Whether a node is that of a member.
fn member_by(node: &Node) -> bool
    ensures { result ≡ s.member_by node.now }
{
    match node {
        Node::Id(_, _) | Node::Property(_, _) | Node::Bare(_, _, _) => true,
        Node::Alias(_, _, _) | Node::Signal(_, _) | Node::SignalWith(_, _) => true,
        Node::Method | Node::Given | Node::Group | Node::Child | Node::Semi => true,
        _ => false,
    }
}

/// Whether a member stands at a place.
#[tactic(auto, using(crate::proofs::PartLemmas::member_found, crate::proofs::PartLemmas::member_missing))]
fn member_at(tree: &Tree, part: usize) -> bool
    ensures { result ≡ s.member_in (part_at tree.now part) }
{
    match tree.node(part) {
        Some(node) => member_by(node),
        None => false,
    }
}

/// Takes the last parts as members, and the mark before them.
#[tactic(auto, using(crate::proofs::PathLemmas::members_go_on, crate::proofs::PathLemmas::members_end, crate::proofs::PathLemmas::members_run_out))]
pub fn pop_members(tree: &Tree, parts: &mut Vec<usize>)
    ensures { s.PopsMembers tree.now parts.old.items parts.new.items }
{
    'parts: while let Some(part) = parts.pop() {
        if !member_at(tree, part) {
            return;
        }
    }
}

/// The place of a function's word that a node is.
fn word_by(node: &Node) -> Option<Place>
    ensures { result ≡ s.word_by node.now }
{
    match node {
        Node::Function(word) => Some(*word),
        _ => None,
    }
}

/// The place of the word of the function at a place.
#[tactic(auto, using(crate::proofs::PartLemmas::word_found, crate::proofs::PartLemmas::word_missing))]
fn word_at(tree: &Tree, part: usize) -> Option<Place>
    ensures { result ≡ s.word_in (part_at tree.now part) }
{
    match tree.node(part) {
        Some(node) => word_by(node),
        None => None,
    }
}

/// The name at the first part of a node.
#[tactic(auto, using(crate::proofs::PartLemmas::first_named, crate::proofs::PartLemmas::first_unnamed))]
fn first_name(alloc: Global, tree: &Tree, at: usize) -> Result<Name, NoMemory>
    ensures { IfOk result (λ name. name ≡ s.first_name_of (part_at tree.now at)) }
{
    let _root = tree.root();
    match tree.first(at) {
        Some(part) => {
            let name = name_at(alloc, tree, part)?;
            Ok(name)
        }
        None => Ok(no_name()),
    }
}

/// The head of the function at a place.
#[tactic(auto, using(crate::proofs::PartLemmas::head_found, crate::proofs::PartLemmas::head_missing))]
pub fn head_at(alloc: Global, tree: &Tree, function: usize) -> Result<Head, NoMemory>
    ensures { IfOk result (λ head. head ≡ s.head_of (part_at tree.now function)) }
{
    match word_at(tree, function) {
        Some(word) => Ok(Head {
            word,
            name: first_name(alloc, tree, function)?,
        }),
        None => Ok(Head {
            word: Place { line: 0, column: 0 },
            name: no_name(),
        }),
    }
}
