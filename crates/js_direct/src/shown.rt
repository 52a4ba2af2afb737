//! What operands show.

ghost use Rattle.std.specs.Prelude.{◌≡◌, pos, Bool as 𝔹, Some, None, IfSome};
ghost use Rattle.qml_value.specs.declared.value.Value.{Num as a_number};
ghost use Rattle.evaluation.specs.declared.came.Ended.TheVariants as by;
ghost use Rattle.evaluation.specs.Evaluating.{is};
ghost use Rattle.js_meaning.specs.Operate.{bounded};
ghost use Rattle.js_meaning.specs.Locals.{alive, local};
ghost use Rattle.js_meaning.specs.Looking.{literal_value};
ghost use Rattle.js_locals.specs.Laid.{laid};
ghost use Rattle.js_locals.specs.Scopes.{held_of, scopes_of};
ghost use Rattle.js_direct.specs.Showing.{IfShown, IsShown, NameShows, Shows, Operates, Combines};

use evaluation::{Seen, View};
use js_locals::{Local, Locals, find};
use qml_base::{CellNo, Found, Home};
use qml_syntax::{Literal, Node, Operator, Tree};
use qml_text::Text;
use qml_value::{Num, Value};

/// A number, a truth, or something else.
#[derive(Clone, Copy)]
pub enum Shown {
    /// A number.
    Number(Num),
    /// True or false.
    Truth(bool),
    /// Another value, or none.
    Other,
}

/// What a value shows.
#[inline(always)]
fn value_shown(value: &Value) -> Shown
    ensures { IfShown result (λ v. value.now ≡ v) }
{
    match value {
        Value::Num(n) => Shown::Number(*n),
        Value::Bool(b) => Shown::Truth(*b),
        _ => Shown::Other,
    }
}

/// What a local shows.
#[inline(always)]
fn local_shown(local: &Local) -> Shown
    ensures { IfShown result (λ v. (b : 𝔹) × (held_of local.now ≡ Some (alive b v))) }
{
    match local {
        Local::Scope => Shown::Other,
        Local::Dead(_) => Shown::Other,
        Local::Alive(_, _, value) => value_shown(value),
        Local::Given(_, _, value) => value_shown(value),
    }
}

/// What a cell shows.
#[inline(always)]
fn cell_shown<V: View>(view: &V, cell: CellNo) -> Shown
    ensures { IfShown result (λ v. V.seen view.now cell ≡ Some (is v)) }
{
    match view.read(cell) {
        Seen::Is(value) => value_shown(value),
        Seen::Loop | Seen::Past | Seen::Need => Shown::Other,
    }
}

/// What a name shows that is no local, by the cell that it finds.
#[inline(always)]
fn found_shown<V: View>(
    view: &V,
    locals: &Locals,
    tree: &Tree,
    home: Home,
    name: &Text,
) -> (Shown, Option<CellNo>)
    requires { local name.now (scopes_of (laid tree.now) locals.now) ≡ None }
    ensures { IfShown result.0 (λ v. NameShows (record { names = V.names view.now; view = V.seen view.now }) (laid tree.now) home locals.now name.now result.1 v) }
{
    match view.resolve(home, name) {
        Found::Cell(cell) => (cell_shown(view, cell), Some(cell)),
        _ => (Shown::Other, None),
    }
}

/// What a name shows, with the cell that is read.
#[inline(always)]
fn name_shown<V: View>(
    view: &V,
    locals: &Locals,
    tree: &Tree,
    home: Home,
    name: &Text,
) -> (Shown, Option<CellNo>)
    ensures { IfShown result.0 (λ v. NameShows (record { names = V.names view.now; view = V.seen view.now }) (laid tree.now) home locals.now name.now result.1 v) }
{
    match find(locals, tree, name) {
        Ok(Some(local)) => (local_shown(local), None),
        Ok(None) => found_shown(view, locals, tree, home, name),
        Err(_) => (Shown::Other, None),
    }
}

/// What a number shows as it is written.
#[inline(always)]
fn number_shown(n: u64) -> Shown
    ensures { IfShown result (λ v. bounded (pos n) ≡ by.Value v) }
{
    match Num::new(i128::from(n)) {
        Ok(n) => Shown::Number(n),
        Err(_) => Shown::Other,
    }
}

/// What `true` or `false` shows.
#[inline(always)]
fn literal_shown(literal: Literal) -> Shown
    ensures { IfShown result (λ v. literal_value literal ≡ v) }
{
    match literal {
        Literal::True => Shown::Truth(true),
        Literal::False => Shown::Truth(false),
        Literal::Null => Shown::Other,
    }
}

/// What the node of an operand shows, with the cell that is read.
#[inline(always)]
pub(crate) fn node_shown<V: View>(
    view: &V,
    locals: &Locals,
    tree: &Tree,
    home: Home,
    node: &Node,
) -> (Shown, Option<CellNo>)
    ensures { IfShown result.0 (λ v. Shows (record { names = V.names view.now; view = V.seen view.now }) (laid tree.now) home locals.now node.now result.1 v) }
{
    match node {
        Node::Name(name, _) => name_shown(view, locals, tree, home, name),
        Node::Number(n, _) => (number_shown(*n), None),
        Node::Literal(value, _) => (literal_shown(*value), None),
        _ => (Shown::Other, None),
    }
}

/// The number that is shown.
#[inline(always)]
fn number_of(it: Shown) -> Option<Num>
    ensures { IfSome result (λ n. it ≡ Shown.Number n) }
{
    match it {
        Shown::Number(n) => Some(n),
        Shown::Truth(_) | Shown::Other => None,
    }
}

/// What is shown, as a value.
#[inline(always)]
fn value_of(it: Shown) -> Option<Value>
    ensures { IfSome result (λ v. IsShown it v) }
{
    match it {
        Shown::Number(n) => Some(Value::Num(n)),
        Shown::Truth(b) => Some(Value::Bool(b)),
        Shown::Other => None,
    }
}

/// A value that a node shows, with the cell that is read.
#[derive(Drop)]
pub(crate) struct Plain {
    pub(crate) cell: Option<CellNo>,
    pub(crate) value: Value,
}

/// The value that the node of an operand shows.
#[inline(always)]
#[tactic(auto, using(crate::proofs::DirectLemmas::shown_is))]
pub(crate) fn plain_value<V: View>(
    view: &V,
    locals: &Locals,
    tree: &Tree,
    home: Home,
    node: &Node,
) -> Option<Plain>
    ensures { IfSome result (λ p. Shows (record { names = V.names view.now; view = V.seen view.now }) (laid tree.now) home locals.now node.now p.cell p.value) }
{
    let (it, cell) = node_shown(view, locals, tree, home, node);
    let Some(value) = value_of(it) else {
        return None;
    };
    Some(Plain { cell, value })
}

/// A number, if it isn't past the limit.
#[inline(always)]
fn within(n: i128) -> Shown
    ensures { IfShown result (λ v. bounded n ≡ by.Value v) }
{
    match Num::new(n) {
        Ok(n) => Shown::Number(n),
        Err(_) => Shown::Other,
    }
}

/// An operator between two numbers.
#[inline(always)]
fn between(op: Operator, a: Num, b: Num) -> Shown
    ensures { IfShown result (λ v. Operates op (a_number a) (a_number b) v) }
{
    match op {
        Operator::Plus => within(i128::from(a.get()) + i128::from(b.get())),
        Operator::Minus => within(i128::from(a.get()) - i128::from(b.get())),
        Operator::Times => within(i128::from(a.get()) * i128::from(b.get())),
        Operator::Less => Shown::Truth(a.get() < b.get()),
        Operator::Greater => Shown::Truth(a.get() > b.get()),
        Operator::LessEqual => Shown::Truth(a.get() <= b.get()),
        Operator::GreaterEqual => Shown::Truth(a.get() >= b.get()),
        _ => Shown::Other,
    }
}

/// The value of an operator between two numbers that nodes show, with the cells that are read.
#[derive(Drop)]
pub(crate) struct Combined {
    pub(crate) first: Option<CellNo>,
    pub(crate) second: Option<CellNo>,
    pub(crate) value: Value,
}

/// The value of an operator between two numbers that nodes show.
#[inline(always)]
#[tactic(auto, using(crate::proofs::DirectLemmas::combines))]
pub(crate) fn operands_combined<V: View>(
    view: &V,
    locals: &Locals,
    tree: &Tree,
    home: Home,
    op: Operator,
    left: &Node,
    right: &Node,
) -> Option<Combined>
    ensures { IfSome result (λ p. Combines (record { names = V.names view.now; view = V.seen view.now }) (laid tree.now) home locals.now op left.now right.now p.first p.second p.value) }
{
    let (a, first) = node_shown(view, locals, tree, home, left);
    let Some(x) = number_of(a) else {
        return None;
    };
    let (b, second) = node_shown(view, locals, tree, home, right);
    let Some(y) = number_of(b) else {
        return None;
    };
    let Some(value) = value_of(between(op, x, y)) else {
        return None;
    };
    Some(Combined {
        first,
        second,
        value,
    })
}
