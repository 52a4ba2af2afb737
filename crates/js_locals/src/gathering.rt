//! The names that statements declare.

ghost use Rattle.std.specs.Prelude.{◌≡◌, ◌∷◌, ◌++◌, [], Bool as 𝔹, false, true, None, if◌then◌else◌, reverse, IfOk, MatchOption};
ghost use Rattle.qml_syntax.specs.Opened.{node_of};
ghost use Rattle.js_meaning.specs.Locals.{is_var, lets_of, vars_of_all};
ghost use Rattle.js_locals.specs.Laid.{laid, stmts_in};
ghost use Rattle.js_locals.specs.Scopes.{fresh_slots};
ghost use Rattle.js_locals.specs.Gathering.{inner_of, asks_for, names_in, row_from, is_var_first, NameAdded, NamesAdded, FirstAdded, Inside, HoldsRow, HoldsNames, Walks, row_onto, Gathers};

use crate::parts::{first_part, for_parts, is_var, is_var_node, next_part, node_at};
use qml_syntax::{Declaration, Node, Tree};
use qml_text::NoMemory;
use std::alloc::Global;
use std::marker::Model;

/// The names that statements declare, told by their places, with the room in which they were gathered. Contracts see the
/// list of the places.
#[derive(Drop)]
pub struct DeclaredNames {
    pending: Vec<usize>,
    places: Vec<usize>,
}

impl Model for DeclaredNames {
    ghost use Rattle.std.specs.Prelude.{ℕ, List};

    ghost Value = { List ℕ };

    ghost view = { λ d. d.places.items };
}

impl DeclaredNames {
    /// No name, and no room yet. It takes no memory.
    pub fn new(alloc: Global) -> DeclaredNames
        ensures { result ≡ [] }
    {
        DeclaredNames {
            pending: Vec::new(alloc),
            places: Vec::new(alloc),
        }
    }

    /// The places, in the order in which the names were found.
    pub fn places(&self) -> &[usize]
        ensures { result.now ≡ self.now }
    {
        self.places.as_slice()
    }

    /// Takes the last name.
    pub(crate) fn pop(&mut self) -> Option<usize>
        ensures { MatchOption result ((self.old ≡ []) × (self.new ≡ self.old)) (λ p. self.old ≡ self.new ++ p ∷ []) }
    {
        self.places.pop()
    }
}

/// What stands inside a statement.
#[derive(Clone, Copy)]
pub enum Inner {
    /// The statements of a block.
    Block,
    /// Names that are declared.
    Names(Declaration),
    /// A condition, with statements behind it.
    Condition,
    /// The parts of a `for`.
    For,
    /// No name and no statement.
    Nothing,
}

/// What stands inside a statement.
fn inner_of(node: &Node) -> Inner
    ensures { result ≡ inner_of node.now }
{
    match node {
        Node::Block(_) => Inner::Block,
        Node::Declare(_, kind, _) => Inner::Names(*kind),
        Node::When(_) => Inner::Condition,
        Node::Either(_) => Inner::Condition,
        Node::While(_) => Inner::Condition,
        Node::For(_) => Inner::For,
        _ => Inner::Nothing,
    }
}

/// The part behind one, if there is one.
#[tactic(auto, using(crate::proofs::GatheringLemmas::row_is))]
pub fn row_behind(tree: &Tree, part: usize) -> Option<usize>
    ensures { row_from (laid tree.now) result ≡ (laid tree.now).rest part }
{
    next_part(tree, part)
}

/// Whether a `for` begins with names that are declared by `var`.
fn is_var_first(node: &Node) -> bool
    ensures { result ≡ is_var_first node.now }
{
    match node {
        Node::FirstDeclare(_, kind) => is_var(*kind),
        _ => false,
    }
}

/// Adds a place, if it is that of a name that is declared.
#[tactic(auto, using(crate::proofs::GatheringLemmas::adds_name, crate::proofs::GatheringLemmas::adds_no_name))]
fn add_name(tree: &Tree, var: bool, place: usize, names: &mut Vec<usize>) -> Result<(), NoMemory>
    ensures { IfOk result (λ _. NameAdded (laid tree.now) var place names.old.items names.new.items) }
{
    let Some(node) = node_at(tree, place) else {
        return Err(NoMemory);
    };
    if is_var_node(node) {
        names.push(place)?;
        Ok(())
    } else {
        Ok(())
    }
}

/// Adds the places of the names behind a mark.
#[tactic(auto, using(crate::proofs::GatheringLemmas::adding_first, crate::proofs::GatheringLemmas::adding_last, crate::proofs::GatheringLemmas::adding_on))]
fn add_names(tree: &Tree, var: bool, mark: usize, names: &mut Vec<usize>) -> Result<(), NoMemory>
    ensures { IfOk result (λ _. NamesAdded (laid tree.now) var mark names.old.items names.new.items) }
{
    let mut part = row_behind(tree, mark);
    'names: while let Some(place) = part {
        add_name(tree, var, place, names)?;
        part = row_behind(tree, place);
    }
    Ok(())
}

/// The names with which a `for` begins, if it declares them by `let` or `const`, in this room.
#[tactic(auto, using(crate::proofs::GatheringLemmas::first_names_are))]
pub fn first_names(
    tree: &Tree,
    var: bool,
    mark: usize,
    room: DeclaredNames,
) -> Result<DeclaredNames, NoMemory>
    ensures { IfOk result (λ names. fresh_slots (laid tree.now) false names [] ≡ (if var then [] else names_in false ((laid tree.now).rest mark) [])) }
{
    let mut places = room.places;
    places.clear();
    if !var {
        add_names(tree, false, mark, &mut places)?;
    }
    Ok(DeclaredNames {
        pending: room.pending,
        places,
    })
}

/// The row inside a block, where it counts for the names that are asked for.
#[tactic(auto, using(crate::proofs::GatheringLemmas::block_when, crate::proofs::GatheringLemmas::shallow_when))]
fn inside_block(tree: &Tree, var: bool, at: usize) -> Result<Option<usize>, NoMemory>
    ensures { IfOk result (λ p. HoldsRow (laid tree.now) Inner.Block var at p) }
{
    if var {
        match first_part(tree, at) {
            Some(mark) => Ok(row_behind(tree, mark)),
            None => Err(NoMemory),
        }
    } else {
        Ok(None)
    }
}

/// The row behind a condition.
#[tactic(auto, using(crate::proofs::GatheringLemmas::condition_inside))]
fn inside_condition(tree: &Tree, var: bool, at: usize) -> Result<Option<usize>, NoMemory>
    ensures { IfOk result (λ p. HoldsRow (laid tree.now) Inner.Condition var at p) }
{
    match first_part(tree, at) {
        Some(test) => Ok(row_behind(tree, test)),
        None => Err(NoMemory),
    }
}

/// Whether names that are declared so are asked for.
fn same_kind(var: bool, kind: Declaration) -> bool
    ensures { result ≡ asks_for var kind }
{
    if var { is_var(kind) } else { !is_var(kind) }
}

/// Adds the names of a declaration, where it is of the kind that is asked for.
#[tactic(auto, using(crate::proofs::GatheringLemmas::names_not_asked, crate::proofs::GatheringLemmas::names_asked))]
fn inside_names(
    tree: &Tree,
    var: bool,
    kind: Declaration,
    at: usize,
    names: &mut Vec<usize>,
) -> Result<(), NoMemory>
    ensures { IfOk result (λ _. HoldsNames (laid tree.now) (Inner.Names kind) var at names.old.items names.new.items None) }
{
    if !same_kind(var, kind) {
        return Ok(());
    }
    match first_part(tree, at) {
        Some(mark) => {
            add_names(tree, var, mark, names)?;
            Ok(())
        }
        None => Err(NoMemory),
    }
}

/// Adds the names with which a `for` begins, if it declares them by `var`.
#[tactic(auto, using(crate::proofs::GatheringLemmas::first_not_added, crate::proofs::GatheringLemmas::first_asked))]
fn first_inside(tree: &Tree, at: usize, names: &mut Vec<usize>) -> Result<(), NoMemory>
    ensures { IfOk result (λ _. FirstAdded (laid tree.now) at names.old.items names.new.items) }
{
    let Some(node) = node_at(tree, at) else {
        return Err(NoMemory);
    };
    if !is_var_first(node) {
        return Ok(());
    }
    match first_part(tree, at) {
        Some(mark) => {
            add_names(tree, true, mark, names)?;
            Ok(())
        }
        None => Err(NoMemory),
    }
}

/// Adds the names of a `for`, and gives the row of its statement.
#[tactic(auto, using(crate::proofs::GatheringLemmas::for_when, crate::proofs::GatheringLemmas::for_shallow))]
fn inside_for(
    tree: &Tree,
    var: bool,
    at: usize,
    names: &mut Vec<usize>,
) -> Result<Option<usize>, NoMemory>
    ensures { IfOk result (λ p. HoldsNames (laid tree.now) Inner.For var at names.old.items names.new.items p) }
{
    let Some(begin) = first_part(tree, at) else {
        return Err(NoMemory);
    };
    let parts = for_parts(tree, begin)?;
    let row = row_behind(tree, parts.1);
    if var {
        first_inside(tree, begin, names)?;
        Ok(row)
    } else {
        Ok(row)
    }
}

/// Adds the names of the statement at a place, and gives the row inside it.
#[tactic(auto, using(crate::proofs::GatheringLemmas::inside_if, crate::proofs::GatheringLemmas::inside_names_if, crate::proofs::GatheringLemmas::nothing_inside))]
fn inside(
    tree: &Tree,
    var: bool,
    at: usize,
    names: &mut Vec<usize>,
) -> Result<Option<usize>, NoMemory>
    ensures { IfOk result (λ p. Inside (laid tree.now) var at names.old.items names.new.items p) }
{
    let Some(node) = node_at(tree, at) else {
        return Err(NoMemory);
    };
    match inner_of(node) {
        Inner::Block => {
            let row = inside_block(tree, var, at)?;
            Ok(row)
        }
        Inner::Names(kind) => {
            inside_names(tree, var, kind, at, names)?;
            Ok(None)
        }
        Inner::Condition => {
            let row = inside_condition(tree, var, at)?;
            Ok(row)
        }
        Inner::For => {
            let row = inside_for(tree, var, at, names)?;
            Ok(row)
        }
        Inner::Nothing => Ok(None),
    }
}

/// Adds a row, if there is one.
fn push_row(pending: &mut Vec<usize>, row: Option<usize>) -> Result<(), NoMemory>
    ensures { IfOk result (λ _. reverse pending.new.items ≡ row_onto row (reverse pending.old.items)) }
{
    if let Some(part) = row {
        pending.push(part)?;
    }
    Ok(())
}

/// Walks over the statement at a place: what is behind it and inside it is still to be walked.
#[tactic(auto, using(crate::proofs::GatheringLemmas::walks))]
fn walked(
    tree: &Tree,
    var: bool,
    at: usize,
    pending: &mut Vec<usize>,
    names: &mut Vec<usize>,
) -> Result<(), NoMemory>
    ensures { IfOk result (λ _. Walks (laid tree.now) var at (reverse pending.old.items) (reverse pending.new.items) names.old.items names.new.items) }
{
    push_row(pending, row_behind(tree, at))?;
    let row = inside(tree, var, at, names)?;
    push_row(pending, row)?;
    Ok(())
}

/// The names of the statements from one on: by `var` however deep, or else by `let` and `const` for their own block.
#[tactic(auto, using(crate::proofs::GatheringLemmas::gathers_first, crate::proofs::GatheringLemmas::gathers_on))]
fn gathered(
    tree: &Tree,
    var: bool,
    first: Option<usize>,
    room: DeclaredNames,
) -> Result<DeclaredNames, NoMemory>
    ensures { IfOk result (λ names. Gathers (laid tree.now) var first [] names) }
{
    let mut pending = room.pending;
    let mut places = room.places;
    pending.clear();
    places.clear();
    push_row(&mut pending, first)?;
    'rows: while let Some(at) = pending.pop() {
        walked(tree, var, at, &mut pending, &mut places)?;
    }
    Ok(DeclaredNames { pending, places })
}

/// The names that the statements from one on declare by `var`, however deep in their blocks, in this room.
#[tactic(auto, using(crate::proofs::GatheringLemmas::var_names_are))]
pub fn var_names(
    tree: &Tree,
    first: Option<usize>,
    room: DeclaredNames,
) -> Result<DeclaredNames, NoMemory>
    ensures { IfOk result (λ names. fresh_slots (laid tree.now) true names [] ≡ vars_of_all (stmts_in (row_from (laid tree.now) first)) []) }
{
    let names = gathered(tree, true, first, room)?;
    Ok(names)
}

/// The names that the statements from one on declare by `let` and `const` for their block, in this room.
#[tactic(auto, using(crate::proofs::GatheringLemmas::let_names_are))]
pub fn let_names(
    tree: &Tree,
    first: Option<usize>,
    room: DeclaredNames,
) -> Result<DeclaredNames, NoMemory>
    ensures { IfOk result (λ names. fresh_slots (laid tree.now) false names [] ≡ lets_of (stmts_in (row_from (laid tree.now) first))) }
{
    let names = gathered(tree, false, first, room)?;
    Ok(names)
}
