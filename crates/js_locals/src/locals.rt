//! The locals of a call.

ghost use Rattle.std.specs.Prelude.{◌≡◌, ◌<◌, [], ◌∷◌, None, if◌then◌else◌, length, reverse, OnOk, IfOk, MatchOption};
ghost use Rattle.js_meaning.specs.Operate.{same_units};
ghost use Rattle.js_locals.specs.Laid.{laid};
ghost use Rattle.js_meaning.specs.Locals.{local};
ghost use Rattle.js_locals.specs.Scopes.{writable_by, scopes_of, named_by, held_of, held_by, given_value, put_by, given_at, Placed, is_scope, outer, fresh, fresh_onto, parameters_onto};

use crate::gathering::DeclaredNames;
use crate::names::{copied, name_of};
use qml_syntax::Tree;
use qml_text::{NoMemory, Text};
use qml_value::Value;
use std::alloc::{AllocFailed, Global};
use std::marker::Model;
use std::mem;

/// A local, or what begins a scope. Names are told by the places of their nodes.
#[derive(Drop)]
pub enum Local {
    /// What begins a scope.
    Scope,
    /// A local that has no value yet.
    Dead(usize),
    /// A local with its value, and whether it may be assigned.
    Alive(usize, bool, Value),
    /// A local likewise whose name stands in no node: a parameter of a signal.
    Given(Text, bool, Value),
}

/// The locals of a call, scope by scope. Contracts see the latest in front.
#[derive(Drop)]
pub struct Locals {
    locals: Vec<Local>,
}

impl Model for Locals {
    ghost use Rattle.std.specs.Prelude.{List, reverse};
    ghost use Rattle.js_locals.specs.declared.locals.Local as l;
    ghost use Rattle.qml_value.specs.contracts.value.Value as v;
    ghost use Rattle.std.specs.Coded.{codes};

    ghost Value = { List l.Local };

    ghost coded = { Prim.hlevel (codes, v.the_row.coded) };

    ghost view = { λ o. reverse o.locals.items };
}

impl Locals {
    /// No local.
    pub fn new(alloc: Global) -> Locals
        ensures { result ≡ [] }
    {
        Locals {
            locals: Vec::new(alloc),
        }
    }

    /// Adds a local, or what begins a scope.
    pub fn push(&mut self, local: Local) -> Result<(), AllocFailed<Local>>
        ensures { OnOk result (self.new ≡ local ∷ self.old) }
    {
        self.locals.push(local)
    }

    /// Takes the latest local, or what begins the scope that holds none.
    pub fn pop(&mut self) -> Option<Local>
        ensures { MatchOption result ((self.old ≡ []) × (self.new ≡ self.old)) (λ l. self.old ≡ l ∷ self.new) }
    {
        self.locals.pop()
    }

    /// Takes all locals away. Their room stays.
    pub fn clear(&mut self)
        ensures { self.new ≡ [] }
    {
        self.locals.clear();
    }

    /// The locals, the latest last.
    fn all(&self) -> &[Local]
        ensures { reverse result.now ≡ self.now }
    {
        self.locals.as_slice()
    }
}

/// Whether two names are the same.
fn same_name(a: &Text, b: &Text) -> bool
    ensures { result ≡ same_units a.now b.now }
{
    a.same(b)
}

/// Whether a local has this name.
fn is_named(local: &Local, tree: &Tree, name: &Text) -> Result<bool, NoMemory>
    ensures { IfOk result (λ b. b ≡ named_by (laid tree.now) name.now local.now) }
{
    match local {
        Local::Scope => Ok(false),
        Local::Dead(place) => {
            let own = name_of(tree, *place)?;
            Ok(same_name(name, own))
        }
        Local::Alive(place, _, _) => {
            let own = name_of(tree, *place)?;
            Ok(same_name(name, own))
        }
        Local::Given(own, _, _) => Ok(same_name(name, own)),
    }
}

/// The local of a name among these, the latest first.
fn find_in<'a>(locals: &'a [Local], tree: &Tree, name: &Text) -> Result<Option<&'a Local>, NoMemory>
    ensures { IfOk result (λ o. MatchOption o (held_by (laid tree.now) name.now (reverse locals.now) ≡ None) (λ l. held_by (laid tree.now) name.now (reverse locals.now) ≡ held_of l.now)) }
{
    let mut left = locals;
    'locals: while let Some((last, front)) = left.split_last() {
        if is_named(last, tree, name)? {
            return Ok(Some(last));
        }
        left = front;
    }
    Ok(None)
}

/// The local of a name, the innermost first.
#[tactic(auto, using(crate::proofs::ScopeLemmas::local_is))]
pub fn find<'a>(locals: &'a Locals, tree: &Tree, name: &Text) -> Result<Option<&'a Local>, NoMemory>
    ensures found { IfOk result (λ o. MatchOption o (held_by (laid tree.now) name.now locals.now ≡ None) (λ l. held_by (laid tree.now) name.now locals.now ≡ held_of l.now)) }
    ensures same { local name.now (scopes_of (laid tree.now) locals.now) ≡ held_by (laid tree.now) name.now locals.now }
{
    find_in(locals.all(), tree, name)
}

/// Whether a local may be assigned.
#[derive(Clone, Copy)]
pub enum Writable {
    /// It may.
    Yes,
    /// It is declared by `const`.
    Readonly,
    /// It has no value yet, or there is none.
    Nothing,
}

/// Whether a local with a value may be assigned.
fn writable_if(yes: bool) -> Writable
    ensures { result ≡ (if yes then Writable.Yes else Writable.Readonly) }
{
    if yes {
        Writable::Yes
    } else {
        Writable::Readonly
    }
}

/// Whether a local may be assigned.
fn writable_held(local: &Local) -> Writable
    ensures { result ≡ writable_by (held_of local.now) }
{
    match local {
        Local::Scope => Writable::Nothing,
        Local::Dead(_) => Writable::Nothing,
        Local::Alive(_, yes, _) => writable_if(*yes),
        Local::Given(_, yes, _) => writable_if(*yes),
    }
}

/// Whether the local of a name may be assigned.
pub fn writable_in(locals: &Locals, tree: &Tree, name: &Text) -> Result<Writable, NoMemory>
    ensures { IfOk result (λ w. w ≡ writable_by (local name.now (scopes_of (laid tree.now) locals.now))) }
{
    match find(locals, tree, name)? {
        Some(local) => Ok(writable_held(local)),
        None => Ok(Writable::Nothing),
    }
}

/// A local with another value.
fn given_value(local: Local, writable: bool, value: Value) -> Local
    ensures { result ≡ given_value writable value local }
{
    match local {
        Local::Scope => Local::Scope,
        Local::Dead(place) => Local::Alive(place, writable, value),
        Local::Alive(place, _, _) => Local::Alive(place, writable, value),
        Local::Given(name, _, _) => Local::Given(name, writable, value),
    }
}

/// Where the local of a name stands among these, the latest of that name.
#[tactic(auto, using(crate::proofs::PlacedLemmas::placed_here, crate::proofs::PlacedLemmas::unplaced_on, crate::proofs::PlacedLemmas::unplaced_first, crate::proofs::PlacedLemmas::placed_nowhere))]
fn place_in(locals: &[Local], tree: &Tree, name: &Text) -> Result<Option<usize>, NoMemory>
    ensures { IfOk result (λ o. Placed (laid tree.now) name.now locals.now o) }
{
    let mut left = locals;
    'locals: while let Some((last, front)) = left.split_last() {
        if is_named(last, tree, name)? {
            return Ok(Some(front.len()));
        }
        left = front;
    }
    Ok(None)
}

/// Gives the local at a place another value.
fn give(locals: &mut Vec<Local>, at: usize, writable: bool, value: Value)
    requires { at < length locals.old.items }
    ensures { locals.new.items ≡ given_at at writable value locals.old.items }
{
    let local = mem::replace(&mut locals[at], Local::Scope);
    locals[at] = given_value(local, writable, value);
}

/// Gives the local of a name another value, the innermost first.
#[tactic(auto, using(crate::proofs::PlacedLemmas::put_at_place, crate::proofs::PlacedLemmas::put_nowhere))]
pub fn put(
    locals: &mut Locals,
    tree: &Tree,
    name: &Text,
    writable: bool,
    value: Value,
) -> Result<(), NoMemory>
    ensures { IfOk result (λ _. locals.new ≡ put_by (laid tree.now) name.now writable value locals.old) }
{
    let found = place_in(&locals.locals, tree, name)?;
    if let Some(at) = found {
        give(&mut locals.locals, at, writable, value);
    }
    Ok(())
}

/// Whether it is what begins a scope.
fn is_scope(local: &Local) -> bool
    ensures { result ≡ is_scope local.now }
{
    match local {
        Local::Scope => true,
        Local::Dead(_) | Local::Alive(_, _, _) | Local::Given(_, _, _) => false,
    }
}

/// Leaves the innermost scope.
pub fn leave(locals: &mut Locals)
    ensures { locals.new ≡ outer locals.old }
{
    'locals: while let Some(local) = locals.pop() {
        if is_scope(&local) {
            return;
        }
    }
}

/// A local that is declared: by `var` it is Undefined at first.
fn fresh(var: bool, place: usize) -> Local
    ensures { result ≡ fresh var place }
{
    if var {
        Local::Alive(place, true, Value::Undefined)
    } else {
        Local::Dead(place)
    }
}

/// Declares names in the innermost scope, the first of them as the latest, and gives their room back.
#[tactic(auto, using(crate::proofs::ScopeLemmas::fresh_last))]
pub fn declare(
    locals: &mut Locals,
    var: bool,
    names: DeclaredNames,
) -> Result<DeclaredNames, NoMemory>
    ensures { IfOk result (λ _. locals.new ≡ fresh_onto var names locals.old) }
{
    let mut names = names;
    'names: while let Some(place) = names.pop() {
        locals.push(fresh(var, place))?;
    }
    Ok(names)
}

/// Declares parameters with their arguments in the innermost scope.
pub fn bind(
    locals: &mut Locals,
    alloc: Global,
    names: &[usize],
    values: &[Value],
) -> Result<(), NoMemory>
    ensures { IfOk result (λ _. locals.new ≡ parameters_onto names.now values.now locals.old) }
{
    let mut left = values;
    'names: for place in names {
        match left.split_first() {
            Some((value, behind)) => {
                let value = copied(alloc, value)?;
                locals.push(Local::Alive(*place, true, value))?;
                left = behind;
            }
            None => locals.push(Local::Alive(*place, true, Value::Undefined))?,
        }
    }
    Ok(())
}
