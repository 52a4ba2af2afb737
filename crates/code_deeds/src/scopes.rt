//! Blocks, loops and functions that are entered and left.

ghost use Rattle.std.specs.Prelude.{◌≡◌, ◌++◌, IfOk, OnOk, reverse};
ghost use Rattle.js_locals.specs.Laid.{laid};
ghost use Rattle.code_deeds.specs.Around.{outer};
ghost use Rattle.code_deeds.specs.Forms.{node_at};
ghost use Rattle.code_deeds.specs.Scopes as s;

use crate::around::Entry;
use crate::form::{Form, StepForm};
use crate::tasks::Task;
use js_locals::{DeclaredNames, first_part, is_var, let_names, row_behind, var_names};
use qml_base::{NoMemory, Place};
use qml_syntax::{Node, Tree};
use std::alloc::Global;

/// Adds names, so that the first of them is the innermost.
pub fn push_names(names: &[usize], entries: &mut Vec<Entry>) -> Result<(), NoMemory>
    ensures { OnOk result (reverse entries.new.items ≡ s.name_entries names.now ++ reverse entries.old.items) }
{
    let mut left = names;
    'names: while let Some((last, front)) = left.split_last() {
        entries.push(Entry::Name(*last))?;
        left = front;
    }
    Ok(())
}

/// Ends the innermost block or function.
pub fn leave(entries: &mut Vec<Entry>)
    ensures { reverse entries.new.items ≡ outer (reverse entries.old.items) }
{
    'entries: while let Some(entry) = entries.pop() {
        match entry {
            Entry::Name(_) => {}
            Entry::Block => return,
            Entry::Function(_) => return,
        }
    }
}

/// The names that the statements in a node declare by `let` and `const` for it.
#[tactic(auto, using(crate::proofs::NameLemmas::lets_told))]
pub fn lets_in(alloc: Global, tree: &Tree, at: usize) -> Result<DeclaredNames, NoMemory>
    ensures { IfOk result (λ names. s.AreLets tree.now at names) }
{
    let Some(mark) = first_part(tree, at) else {
        return Err(NoMemory);
    };
    match let_names(tree, row_behind(tree, mark), DeclaredNames::new(alloc)) {
        Ok(names) => Ok(names),
        Err(_) => Err(NoMemory),
    }
}

/// The names that the statements in a node declare by `var`, however deep.
#[tactic(auto, using(crate::proofs::NameLemmas::vars_told))]
pub fn vars_in(alloc: Global, tree: &Tree, at: usize) -> Result<DeclaredNames, NoMemory>
    ensures { IfOk result (λ names. s.AreVars tree.now at names) }
{
    let Some(mark) = first_part(tree, at) else {
        return Err(NoMemory);
    };
    match var_names(tree, row_behind(tree, mark), DeclaredNames::new(alloc)) {
        Ok(names) => Ok(names),
        Err(_) => Err(NoMemory),
    }
}

/// Whether names are declared at a node, and so by `let` or `const`.
fn declares_lets(tree: &Tree, at: usize) -> bool
    ensures { result ≡ s.declares_lets (node_at tree.now at) }
{
    match tree.node(at) {
        Some(Node::FirstDeclare(_, kind)) => !is_var(*kind),
        _ => false,
    }
}

/// The names with which a `for` begins whose beginning stands at a place, if it declares them by `let` or `const`.
#[tactic(auto, using(crate::proofs::NameLemmas::firsts_told, crate::proofs::NameLemmas::no_firsts))]
fn first_lets(alloc: Global, tree: &Tree, at: usize) -> Result<DeclaredNames, NoMemory>
    ensures { IfOk result (λ names. s.AreFirstLets tree.now at names) }
{
    if !declares_lets(tree, at) {
        return Ok(DeclaredNames::new(alloc));
    }
    let Some(mark) = first_part(tree, at) else {
        return Err(NoMemory);
    };
    match js_locals::first_names(tree, false, mark, DeclaredNames::new(alloc)) {
        Ok(names) => Ok(names),
        Err(_) => Err(NoMemory),
    }
}

/// The names with which the `for` at a place begins, if it declares them by `let` or `const`.
fn for_lets(alloc: Global, tree: &Tree, at: usize) -> Result<DeclaredNames, NoMemory>
    ensures { IfOk result (λ names. s.AreForLets tree.now at names) }
{
    match tree.first(at) {
        Some(first) => first_lets(alloc, tree, first),
        None => Err(NoMemory),
    }
}

/// Enters a block or a loop with these names.
fn enter(names: &[usize], entries: &mut Vec<Entry>, tasks: &mut Vec<Task>) -> Result<(), NoMemory>
    ensures { IfOk result (λ _. s.EntersBlock names.now (reverse entries.old.items) (reverse entries.new.items)
        (reverse tasks.old.items) (reverse tasks.new.items)) }
{
    entries.push(Entry::Block)?;
    push_names(names, entries)?;
    tasks.push(Task::Leave)?;
    Ok(())
}

/// Enters the node at a place, where it begins a block or a loop.
pub fn entered(
    alloc: Global,
    tree: &Tree,
    at: usize,
    form: Form,
    entries: &mut Vec<Entry>,
    tasks: &mut Vec<Task>,
) -> Result<(), NoMemory>
    ensures { IfOk result (λ _. s.Enters tree.now at form (reverse entries.old.items) (reverse entries.new.items)
        (reverse tasks.old.items) (reverse tasks.new.items)) }
{
    match form {
        Form::Block => {
            let names = lets_in(alloc, tree, at)?;
            enter(names.places(), entries, tasks)?;
            Ok(())
        }
        Form::For => {
            let names = for_lets(alloc, tree, at)?;
            enter(names.places(), entries, tasks)?;
            Ok(())
        }
        Form::Name | Form::ChangesFirst(_) | Form::ChangesLast(_) => Ok(()),
        Form::Steps | Form::Assign | Form::Parts | Form::Other => Ok(()),
    }
}

/// Adds the names that the statements in a node declare, by `let` and `const` for it and by `var`.
pub fn push_body_names(
    alloc: Global,
    tree: &Tree,
    at: usize,
    entries: &mut Vec<Entry>,
) -> Result<(), NoMemory>
    ensures { IfOk result (λ _. s.HasBody tree.now at (reverse entries.old.items) (reverse entries.new.items)) }
{
    let vars = vars_in(alloc, tree, at)?;
    let lets = lets_in(alloc, tree, at)?;
    push_names(vars.places(), entries)?;
    push_names(lets.places(), entries)?;
    Ok(())
}

/// Enters the step at a place, where it is the call of `Qt.binding` with a function.
pub fn entered_step(
    alloc: Global,
    tree: &Tree,
    at: usize,
    bound: Option<Place>,
    form: StepForm,
    entries: &mut Vec<Entry>,
    tasks: &mut Vec<Task>,
) -> Result<(), NoMemory>
    ensures { IfOk result (λ _. s.EntersStep tree.now at bound form (reverse entries.old.items)
        (reverse entries.new.items) (reverse tasks.old.items) (reverse tasks.new.items)) }
{
    match form {
        StepForm::Binding(_) => {
            entries.push(Entry::Function(bound))?;
            push_body_names(alloc, tree, at, entries)?;
            tasks.push(Task::Leave)?;
            Ok(())
        }
        StepForm::Element | StepForm::Call(_) | StepForm::Other => Ok(()),
    }
}

/// The name of the parameter at a place, if one is there.
fn parameter_at(tree: &Tree, at: usize) -> Option<usize>
    ensures { result ≡ s.parameter_at tree.now at }
{
    match tree.node(at) {
        Some(Node::Parameter) => tree.first(at),
        _ => None,
    }
}

/// Adds the names of the parameters among the parts of a function.
fn push_parameters(tree: &Tree, parts: &[usize], entries: &mut Vec<Entry>) -> Result<(), NoMemory>
    ensures { OnOk result (reverse entries.new.items ≡ s.parameter_entries tree.now parts.now ++
        reverse entries.old.items) }
{
    let mut left = parts;
    'parts: while let Some((last, front)) = left.split_last() {
        push_parameter(tree, *last, entries)?;
        left = front;
    }
    Ok(())
}

fn push_parameter(tree: &Tree, at: usize, entries: &mut Vec<Entry>) -> Result<(), NoMemory>
    ensures { OnOk result (reverse entries.new.items ≡ s.parameter_entry tree.now at ++ reverse entries.old.items) }
{
    match parameter_at(tree, at) {
        Some(name) => {
            entries.push(Entry::Name(name))?;
            Ok(())
        }
        None => Ok(()),
    }
}

/// The names that the statement at a place and those behind it declare by `let` and `const`.
#[tactic(auto, using(crate::proofs::NameLemmas::single_lets))]
fn lets_from(alloc: Global, tree: &Tree, at: usize) -> Result<DeclaredNames, NoMemory>
    ensures { IfOk result (λ names. s.AreLetsFrom tree.now at names) }
{
    match let_names(tree, Some(at), DeclaredNames::new(alloc)) {
        Ok(names) => Ok(names),
        Err(_) => Err(NoMemory),
    }
}

/// Those that they declare by `var`, however deep.
#[tactic(auto, using(crate::proofs::NameLemmas::single_vars))]
fn vars_from(alloc: Global, tree: &Tree, at: usize) -> Result<DeclaredNames, NoMemory>
    ensures { IfOk result (λ names. s.AreVarsFrom tree.now at names) }
{
    match var_names(tree, Some(at), DeclaredNames::new(alloc)) {
        Ok(names) => Ok(names),
        Err(_) => Err(NoMemory),
    }
}

/// Adds the names that the statement at a place and those behind it declare.
pub fn push_single_names(
    alloc: Global,
    tree: &Tree,
    at: usize,
    entries: &mut Vec<Entry>,
) -> Result<(), NoMemory>
    ensures { IfOk result (λ _. s.HasSingle tree.now at (reverse entries.old.items) (reverse entries.new.items)) }
{
    let vars = vars_from(alloc, tree, at)?;
    let lets = lets_from(alloc, tree, at)?;
    push_names(vars.places(), entries)?;
    push_names(lets.places(), entries)?;
    Ok(())
}

/// Enters a function of these parts, and gives its body.
pub fn enter_function(
    alloc: Global,
    tree: &Tree,
    parts: &[usize],
    entries: &mut Vec<Entry>,
) -> Result<usize, NoMemory>
    ensures { IfOk result (λ body. s.HasFunction tree.now parts.now body (reverse entries.old.items)
        (reverse entries.new.items)) }
{
    match parts.split_last() {
        Some((body, before)) => {
            push_parameters(tree, before, entries)?;
            push_body_names(alloc, tree, *body, entries)?;
            Ok(*body)
        }
        None => Err(NoMemory),
    }
}
