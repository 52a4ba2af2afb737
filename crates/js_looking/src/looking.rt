//! What cells, names and members give.

ghost use Rattle.std.specs.Prelude.{◌≡◌, IfOk, IfSome};
ghost use Rattle.qml_syntax.specs.Opened.{node_of};
ghost use Rattle.js_meaning.specs.Looking.{plain_member, at_number};
ghost use Rattle.js_meaning.specs.Locals.{local};
ghost use Rattle.js_locals.specs.Laid.{laid, name_at, name_of};
ghost use Rattle.js_locals.specs.Scopes.{scopes_of, held_of};
ghost use Rattle.js_frames.specs.Standing.{standing};
ghost use Rattle.js_frames.specs.Moves.{arrive, arrive_ended, next_of, global_next, no_index, local_next, NameGives, ReadGives, FoundGives, MemberGives, MemberOf, ElementOf};

use evaluation::{Ended, Evaluated, Seen, View};
use js_frames::{Before, Callee, Machine, Next, Spot, To};
use js_locals::{Local, Locals, copied, find, node_at};
use js_methods::{element_at, member_of_plain, named};
use js_operators::is_nothing;
use qml_base::{Cause, CellNo, Found, Home};
use qml_syntax::{Node, Tree};
use qml_text::{NoMemory, Text};
use qml_value::Value;
use std::alloc::Global;

/// A throw.
pub fn threw(cause: Cause) -> Next
    ensures { result ≡ Next.Ended (Evaluated.Threw cause) }
{
    Next::Ended(Evaluated::Threw(cause))
}

/// A value where it goes.
pub fn arrive(to: To, value: Value) -> Next
    ensures { result ≡ arrive to value }
{
    match to {
        To::Back => Next::Back(value),
        To::Step(at) => Next::Step(Before::Value(value), at),
        To::Member(at) => Next::Step(Before::OfValue(value, at), at),
        To::Spot(at) => Next::Found(Spot::Member(value, at)),
        To::Nothing(at) => Next::Args(Callee::Nothing, at),
    }
}

/// What was computed, where it goes.
pub fn arrive_ended(to: To, ended: Ended) -> Next
    ensures { result ≡ arrive_ended to ended }
{
    match ended {
        Ended::Value(value) => arrive(to, value),
        Ended::Threw(cause) => Next::Ended(Evaluated::Threw(cause)),
        Ended::Past => Next::Ended(Evaluated::Past),
    }
}

/// What was computed, back to what awaits it.
pub fn next_of(ended: Ended) -> Next
    ensures { result ≡ next_of ended }
{
    match ended {
        Ended::Value(value) => Next::Back(value),
        Ended::Threw(cause) => Next::Ended(Evaluated::Threw(cause)),
        Ended::Past => Next::Ended(Evaluated::Past),
    }
}

/// Reads a cell.
pub fn read_cell<V: View>(
    machine: &mut Machine,
    alloc: Global,
    view: &V,
    to: To,
    cell: CellNo,
) -> Result<Next, NoMemory>
    ensures { IfOk result (λ y. ReadGives (record { names = V.names view.now; view = V.seen view.now }) to cell (standing machine.old) (standing machine.new) y) }
{
    machine.reads.push(cell)?;
    match view.read(cell) {
        Seen::Is(value) => {
            let value = copied(alloc, value)?;
            Ok(arrive(to, value))
        }
        Seen::Loop => Ok(Next::Ended(Evaluated::Loop)),
        Seen::Past => Ok(Next::Ended(Evaluated::Past)),
        Seen::Need => Ok(Next::Ended(Evaluated::Need(cell))),
    }
}

/// What a global gives that is used as a value.
fn global_value(to: To, name: &Text) -> Next
    ensures { result ≡ global_next to name.now }
{
    if named(name, b"undefined") {
        arrive(to, Value::Undefined)
    } else {
        threw(Cause::Kind)
    }
}

/// What a name gives, by what it finds.
pub fn found_value<V: View>(
    machine: &mut Machine,
    alloc: Global,
    view: &V,
    to: To,
    name: &Text,
    found: Found,
) -> Result<Next, NoMemory>
    ensures { IfOk result (λ y. FoundGives (record { names = V.names view.now; view = V.seen view.now }) to name.now found (standing machine.old) (standing machine.new) y) }
{
    match found {
        Found::Cell(cell) => read_cell(machine, alloc, view, to, cell),
        Found::Object(object) => Ok(arrive(to, Value::Object(object))),
        Found::Component(object) => Ok(arrive(to, Value::Component(object))),
        Found::Global => Ok(global_value(to, name)),
        Found::Nothing => Ok(threw(Cause::Name)),
        Found::Body(_, _) | Found::Signal(_, _) | Found::Method(_, _) | Found::Script(_) => {
            Ok(threw(Cause::Kind))
        }
    }
}

/// What a local gives where it goes.
fn taken(alloc: Global, to: To, local: &Local) -> Result<Option<Next>, NoMemory>
    ensures { IfOk result (λ o. o ≡ local_next to (held_of local.now)) }
{
    match local {
        Local::Scope => Ok(None),
        Local::Dead(_) => Ok(Some(threw(Cause::Name))),
        Local::Alive(_, _, value) => {
            let value = copied(alloc, value)?;
            Ok(Some(arrive(to, value)))
        }
        Local::Given(_, _, value) => {
            let value = copied(alloc, value)?;
            Ok(Some(arrive(to, value)))
        }
    }
}

/// What the local of a name gives where it goes, if there is one.
pub fn local_value(
    locals: &Locals,
    alloc: Global,
    tree: &Tree,
    to: To,
    name: &Text,
) -> Result<Option<Next>, NoMemory>
    ensures { IfOk result (λ o. o ≡ local_next to (local name.now (scopes_of (laid tree.now) locals.now))) }
{
    match find(locals, tree, name)? {
        Some(local) => taken(alloc, to, local),
        None => Ok(None),
    }
}

/// What a name gives.
pub fn name_value<V: View>(
    machine: &mut Machine,
    alloc: Global,
    tree: &Tree,
    view: &V,
    home: Home,
    to: To,
    name: &Text,
) -> Result<Next, NoMemory>
    ensures { IfOk result (λ y. NameGives (record { names = V.names view.now; view = V.seen view.now }) (laid tree.now) home to name.now (standing machine.old) (standing machine.new) y) }
{
    match local_value(&machine.locals, alloc, tree, to, name)? {
        Some(next) => Ok(next),
        None => {
            let found = view.resolve(home, name);
            found_value(machine, alloc, view, to, name, found)
        }
    }
}

/// What a member of an object gives, by what it finds.
pub fn found_member<V: View>(
    machine: &mut Machine,
    alloc: Global,
    view: &V,
    to: To,
    found: Found,
) -> Result<Next, NoMemory>
    ensures { IfOk result (λ y. MemberGives (record { names = V.names view.now; view = V.seen view.now }) to found (standing machine.old) (standing machine.new) y) }
{
    match found {
        Found::Cell(cell) => read_cell(machine, alloc, view, to, cell),
        Found::Object(object) => Ok(arrive(to, Value::Object(object))),
        Found::Component(object) => Ok(arrive(to, Value::Component(object))),
        Found::Nothing => Ok(arrive(to, Value::Undefined)),
        Found::Body(_, _)
        | Found::Signal(_, _)
        | Found::Method(_, _)
        | Found::Script(_)
        | Found::Global => Ok(threw(Cause::Kind)),
    }
}

/// A member of a value.
pub fn member<V: View>(
    machine: &mut Machine,
    alloc: Global,
    view: &V,
    to: To,
    value: &Value,
    name: &Text,
) -> Result<Next, NoMemory>
    ensures { IfOk result (λ y. MemberOf (record { names = V.names view.now; view = V.seen view.now }) to value.now name.now (standing machine.old) (standing machine.new) y) }
{
    match value {
        Value::Undefined | Value::Null => Ok(threw(Cause::Null)),
        Value::Object(object) => {
            let found = view.member(*object, name);
            found_member(machine, alloc, view, to, found)
        }
        Value::Component(object) => {
            let found = view.member(*object, name);
            found_member(machine, alloc, view, to, found)
        }
        _ => {
            let value = member_of_plain(alloc, value, name)?;
            Ok(arrive(to, value))
        }
    }
}

/// What an index gives that is neither a number nor a text.
fn no_index(value: &Value) -> Next
    ensures { result ≡ no_index value.now }
{
    if is_nothing(value) {
        threw(Cause::Null)
    } else {
        threw(Cause::Kind)
    }
}

/// An element of a value.
pub fn element<V: View>(
    machine: &mut Machine,
    alloc: Global,
    view: &V,
    to: To,
    value: &Value,
    index: &Value,
) -> Result<Next, NoMemory>
    ensures { IfOk result (λ y. ElementOf (record { names = V.names view.now; view = V.seen view.now }) to value.now index.now (standing machine.old) (standing machine.new) y) }
{
    match index {
        Value::Text(name) => member(machine, alloc, view, to, value, name),
        Value::Num(n) => {
            if is_nothing(value) {
                Ok(threw(Cause::Null))
            } else {
                let element = element_at(alloc, value, n.get())?;
                Ok(arrive(to, element))
            }
        }
        _ => Ok(no_index(value)),
    }
}
