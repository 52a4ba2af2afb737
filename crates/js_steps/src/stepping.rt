//! Steps: members, elements and what is called.

ghost use Rattle.std.specs.Prelude.{◌≡◌, false, [], ◌∷◌, IfOk, if◌then◌else◌, codes};
ghost use Rattle.js_meaning.specs.Operate.{same_units};
ghost use Rattle.qml_syntax.specs.Opened.{node_of, parts_of};
ghost use Rattle.js_meaning.specs.Calling.{is_enumerated, is_qt_binding, is_one_of, script_home};
ghost use Rattle.js_locals.specs.Laid.{is_step_node, laid, name_of};
ghost use Rattle.js_frames.specs.Awaiting.{awaits_spot};
ghost use Rattle.js_frames.specs.Standing.{standing};
ghost use Rattle.js_frames.specs.Moves.{arrive, ValueBefore, NamedMember, MemberOfName, MemberNext, ElementNext, method_called, NamedCallee, MemberCallee, ValueCallee, script_callee, global_callee, CalleeNext, StepNext, ElementSpot, SpotNext, ends_steps, is_spot, StepBy, Steps};

use evaluation::{Evaluated, View};
use js_frames::{Before, Callee, Deed, Frame, Machine, Next, To};
use js_locals::{first_part, name_of, next_part, node_at};
use js_looking::{
    arrive, found_member, found_value, local_value, member, name_value, pushed, read_cell, threw,
};
use js_methods::named;
use qml_base::{Cause, CellNo, Found, Home, ObjNo, UnitNo};
use qml_syntax::{Node, Tree};
use qml_text::{NoMemory, Text};
use qml_value::Value;
use std::alloc::Global;

/// Whether the name behind `Loader.` is one of its texts.
fn is_of_loader(name: &Text) -> bool
    ensures { result ≡ is_one_of name.now (codes "Null" ∷ codes "Ready" ∷ codes "Error" ∷ []) }
{
    named(name, b"Null") || named(name, b"Ready") || named(name, b"Error")
}

/// Whether the name behind `Binding.` is one of its texts.
fn is_of_binding(name: &Text) -> bool
    ensures { result ≡ is_one_of name.now (codes "RestoreNone" ∷ codes "RestoreBinding" ∷ codes "RestoreValue" ∷ codes "RestoreBindingOrValue" ∷ []) }
{
    named(name, b"RestoreNone")
        || named(name, b"RestoreBinding")
        || named(name, b"RestoreValue")
        || named(name, b"RestoreBindingOrValue")
}

/// Whether two names with a dot between them are one of the texts of an enumeration.
fn is_enumerated(global: &Text, name: &Text) -> bool
    ensures { result ≡ is_enumerated global.now name.now }
{
    if named(global, b"Loader") {
        is_of_loader(name)
    } else if named(global, b"Binding") {
        is_of_binding(name)
    } else {
        false
    }
}

/// What a member of a global gives.
fn enumerated(
    alloc: Global,
    tree: &Tree,
    to: To,
    global: usize,
    name: usize,
) -> Result<Next, NoMemory>
    ensures { IfOk result (λ y. y ≡ (if is_enumerated (name_of (laid tree.now) global) (name_of (laid tree.now) name) then arrive to (Value.Text (name_of (laid tree.now) name)) else Next.Ended (Evaluated.Threw Cause.Kind))) }
{
    let text = name_of(tree, name)?;
    if is_enumerated(name_of(tree, global)?, text) {
        let copy = text.copy(alloc)?;
        Ok(arrive(to, Value::Text(copy)))
    } else {
        Ok(threw(Cause::Kind))
    }
}

/// The value of what stands before a step.
fn value_before<V: View>(
    machine: &mut Machine,
    alloc: Global,
    tree: &Tree,
    view: &V,
    home: Home,
    before: Before,
    to: To,
) -> Result<Next, NoMemory>
    ensures { IfOk result (λ y. ValueBefore (record { names = V.names view.now; view = V.seen view.now }) (laid tree.now) home before to (standing machine.old) (standing machine.new) y) }
{
    match before {
        Before::Value(value) => Ok(arrive(to, value)),
        Before::Name(place) => {
            let name = name_of(tree, place)?;
            name_value(machine, alloc, tree, view, home, to, name)
        }
        Before::OfValue(value, place) => {
            let name = name_of(tree, place)?;
            member(machine, alloc, view, to, &value, name)
        }
        Before::OfNamed(_, object, _, place) => {
            let name = name_of(tree, place)?;
            let found = view.member(object, name);
            found_member(machine, alloc, view, to, found)
        }
        Before::OfScript(_, _) => Ok(threw(Cause::Kind)),
        Before::OfGlobal(global, name) => enumerated(alloc, tree, to, global, name),
        Before::Binding => Ok(threw(Cause::Kind)),
    }
}

/// The member of a global.
fn global_member(tree: &Tree, name: usize, at: usize) -> Result<Next, NoMemory>
    ensures { IfOk result (λ y. y ≡ (if same_units (name_of (laid tree.now) name) (codes "undefined") then Next.Step (Before.OfValue Value.Undefined at) at else Next.Step (Before.OfGlobal name at) at)) }
{
    let text = name_of(tree, name)?;
    if named(text, b"undefined") {
        Ok(Next::Step(Before::OfValue(Value::Undefined, at), at))
    } else {
        Ok(Next::Step(Before::OfGlobal(name, at), at))
    }
}

/// The member at a place, of what a name finds.
fn named_member<V: View>(
    machine: &mut Machine,
    alloc: Global,
    tree: &Tree,
    view: &V,
    name: usize,
    at: usize,
    found: Found,
) -> Result<Next, NoMemory>
    ensures { IfOk result (λ y. NamedMember (record { names = V.names view.now; view = V.seen view.now }) (laid tree.now) name at found (standing machine.old) (standing machine.new) y) }
{
    match found {
        Found::Object(object) => Ok(Next::Step(
            Before::OfNamed(Value::Object(object), object, name, at),
            at,
        )),
        Found::Component(object) => Ok(Next::Step(
            Before::OfNamed(Value::Component(object), object, name, at),
            at,
        )),
        Found::Script(unit) => Ok(Next::Step(Before::OfScript(unit, at), at)),
        Found::Global => global_member(tree, name, at),
        Found::Cell(_)
        | Found::Body(_, _)
        | Found::Signal(_, _)
        | Found::Method(_, _)
        | Found::Nothing => {
            let text = name_of(tree, name)?;
            found_value(machine, alloc, view, To::Member(at), text, found)
        }
    }
}

/// Whether two names with a dot between them are `Qt.binding`.
fn is_qt_binding(global: &Text, name: &Text) -> bool
    ensures { result ≡ is_qt_binding global.now name.now }
{
    named(global, b"Qt") && named(name, b"binding")
}

/// The member at a place, of a name.
fn member_of_name<V: View>(
    machine: &mut Machine,
    alloc: Global,
    tree: &Tree,
    view: &V,
    home: Home,
    name: usize,
    at: usize,
) -> Result<Next, NoMemory>
    ensures { IfOk result (λ y. MemberOfName (record { names = V.names view.now; view = V.seen view.now }) (laid tree.now) home name at (is_qt_binding (name_of (laid tree.now) name) (name_of (laid tree.now) at)) (standing machine.old) (standing machine.new) y) }
{
    let text = name_of(tree, name)?;
    let member = name_of(tree, at)?;
    if is_qt_binding(text, member) {
        return Ok(Next::Step(Before::Binding, at));
    }
    match local_value(&machine.locals, alloc, tree, To::Member(at), text)? {
        Some(next) => Ok(next),
        None => {
            let found = view.resolve(home, text);
            named_member(machine, alloc, tree, view, name, at, found)
        }
    }
}

/// The member at a place, of what stands behind another.
fn member_next<V: View>(
    machine: &mut Machine,
    alloc: Global,
    tree: &Tree,
    view: &V,
    home: Home,
    before: Before,
    part: usize,
    at: usize,
) -> Result<Next, NoMemory>
    ensures { IfOk result (λ y. MemberNext (record { names = V.names view.now; view = V.seen view.now }) (laid tree.now) home before part at (standing machine.old) (standing machine.new) y) }
{
    match before {
        Before::Value(value) => Ok(Next::Step(Before::OfValue(value, at), at)),
        Before::Name(name) => member_of_name(machine, alloc, tree, view, home, name, at),
        Before::OfValue(_, _)
        | Before::OfNamed(_, _, _, _)
        | Before::OfScript(_, _)
        | Before::OfGlobal(_, _)
        | Before::Binding => {
            value_before(machine, alloc, tree, view, home, before, To::Step(part))
        }
    }
}

/// The element at a place, of what stands behind another.
fn element_next<V: View>(
    machine: &mut Machine,
    alloc: Global,
    tree: &Tree,
    view: &V,
    home: Home,
    before: Before,
    part: usize,
    at: usize,
) -> Result<Next, NoMemory>
    ensures { IfOk result (λ y. ElementNext (record { names = V.names view.now; view = V.seen view.now }) (laid tree.now) home before part at (standing machine.old) (standing machine.new) y) }
{
    match before {
        Before::Value(value) => match first_part(tree, at) {
            Some(index) => pushed(machine, Frame::Index(value, at), index),
            None => Err(NoMemory),
        },
        Before::Name(_)
        | Before::OfValue(_, _)
        | Before::OfNamed(_, _, _, _)
        | Before::OfScript(_, _)
        | Before::OfGlobal(_, _)
        | Before::Binding => {
            value_before(machine, alloc, tree, view, home, before, To::Step(part))
        }
    }
}

/// A method that is called.
fn method_next(object: ObjNo, cell: Option<CellNo>, name: usize, at: usize) -> Next
    ensures { result ≡ method_called object cell name at }
{
    match cell {
        None => Next::Args(Callee::Doing(object, name), at),
        Some(hidden) => Next::Args(Callee::Reading(object, hidden, name), at),
    }
}

/// A global that is called.
fn global_called(name: &Text, at: usize) -> Next
    ensures { result ≡ Next.Args (if same_units name.now (codes "String") then Callee.Text else Callee.Nothing) at }
{
    if named(name, b"String") {
        Next::Args(Callee::Text, at)
    } else {
        Next::Args(Callee::Nothing, at)
    }
}

/// A name that is called.
fn named_callee<V: View>(
    machine: &mut Machine,
    alloc: Global,
    tree: &Tree,
    view: &V,
    name: usize,
    at: usize,
    found: Found,
) -> Result<Next, NoMemory>
    ensures { IfOk result (λ y. NamedCallee (record { names = V.names view.now; view = V.seen view.now }) (laid tree.now) name at found (standing machine.old) (standing machine.new) y) }
{
    match found {
        Found::Body(body, object) => Ok(Next::Args(Callee::Body(body, object), at)),
        Found::Signal(object, signal) => Ok(Next::Args(Callee::Signal(object, signal), at)),
        Found::Method(object, cell) => Ok(method_next(object, cell, name, at)),
        Found::Cell(cell) => read_cell(machine, alloc, view, To::Nothing(at), cell),
        Found::Nothing => Ok(threw(Cause::Name)),
        Found::Global => {
            let text = name_of(tree, name)?;
            Ok(global_called(text, at))
        }
        Found::Object(_) | Found::Component(_) | Found::Script(_) => {
            Ok(Next::Args(Callee::Nothing, at))
        }
    }
}

/// A member that is called.
fn member_callee<V: View>(
    machine: &mut Machine,
    alloc: Global,
    view: &V,
    may: bool,
    name: usize,
    at: usize,
    found: Found,
) -> Result<Next, NoMemory>
    ensures { IfOk result (λ y. MemberCallee (record { names = V.names view.now; view = V.seen view.now }) may name at found (standing machine.old) (standing machine.new) y) }
{
    match found {
        Found::Body(body, object) => Ok(Next::Deed(Deed::Reach(body, object, may, at))),
        Found::Signal(object, signal) => Ok(Next::Args(Callee::Signal(object, signal), at)),
        Found::Method(object, cell) => Ok(method_next(object, cell, name, at)),
        Found::Cell(cell) => read_cell(machine, alloc, view, To::Nothing(at), cell),
        Found::Object(_)
        | Found::Component(_)
        | Found::Script(_)
        | Found::Global
        | Found::Nothing => Ok(Next::Args(Callee::Nothing, at)),
    }
}

/// A member of a value that is called.
fn value_callee<V: View>(
    machine: &mut Machine,
    alloc: Global,
    tree: &Tree,
    view: &V,
    value: Value,
    name: usize,
    at: usize,
) -> Result<Next, NoMemory>
    ensures { IfOk result (λ y. ValueCallee (record { names = V.names view.now; view = V.seen view.now }) (laid tree.now) value name at (standing machine.old) (standing machine.new) y) }
{
    match &value {
        Value::Undefined | Value::Null => Ok(threw(Cause::Null)),
        Value::Object(object) => {
            let found = view.member(*object, name_of(tree, name)?);
            member_callee(machine, alloc, view, false, name, at, found)
        }
        Value::Component(object) => {
            let found = view.member(*object, name_of(tree, name)?);
            member_callee(machine, alloc, view, false, name, at, found)
        }
        _ => Ok(Next::Args(Callee::Method(value, name), at)),
    }
}

/// What a script's qualifier offers under a name.
fn script_callee(found: Found) -> Callee
    ensures { result ≡ script_callee found }
{
    match found {
        Found::Body(body, object) => Callee::Body(body, object),
        _ => Callee::Nothing,
    }
}

/// What two names with a dot between them call.
fn global_callee(global: &Text, name: &Text, place: usize) -> Callee
    ensures { result ≡ global_callee global.now name.now place }
{
    if named(global, b"Math") {
        Callee::Math(place)
    } else if named(global, b"console") && named(name, b"log") {
        Callee::Log
    } else {
        Callee::Nothing
    }
}

/// Where the names of a script are looked for.
fn script_home(unit: UnitNo) -> Home
    ensures { result ≡ script_home unit }
{
    Home {
        unit,
        scope: ObjNo(0),
        author: ObjNo(0),
    }
}

/// What a name calls that the call at a place calls, a local first.
fn name_called<V: View>(
    machine: &mut Machine,
    alloc: Global,
    tree: &Tree,
    view: &V,
    home: Home,
    name: usize,
    at: usize,
) -> Result<Next, NoMemory>
    ensures { IfOk result (λ y. CalleeNext (record { names = V.names view.now; view = V.seen view.now }) (laid tree.now) home (Before.Name name) at (standing machine.old) (standing machine.new) y) }
{
    let text = name_of(tree, name)?;
    match local_value(&machine.locals, alloc, tree, To::Nothing(at), text)? {
        Some(next) => Ok(next),
        None => {
            let found = view.resolve(home, text);
            named_callee(machine, alloc, tree, view, name, at, found)
        }
    }
}

/// What the call at a place calls.
fn callee_next<V: View>(
    machine: &mut Machine,
    alloc: Global,
    tree: &Tree,
    view: &V,
    home: Home,
    before: Before,
    at: usize,
) -> Result<Next, NoMemory>
    ensures { IfOk result (λ y. CalleeNext (record { names = V.names view.now; view = V.seen view.now }) (laid tree.now) home before at (standing machine.old) (standing machine.new) y) }
{
    match before {
        Before::Value(_) => Ok(Next::Args(Callee::Nothing, at)),
        Before::Name(name) => name_called(machine, alloc, tree, view, home, name, at),
        Before::OfValue(value, name) => {
            value_callee(machine, alloc, tree, view, value, name, at)
        }
        Before::OfNamed(_, object, global, name) => {
            let may = view.is_id(home, name_of(tree, global)?);
            let found = view.member(object, name_of(tree, name)?);
            member_callee(machine, alloc, view, may, name, at, found)
        }
        Before::OfScript(unit, name) => {
            let found = view.resolve(script_home(unit), name_of(tree, name)?);
            Ok(Next::Args(script_callee(found), at))
        }
        Before::OfGlobal(global, name) => {
            let callee = global_callee(name_of(tree, global)?, name_of(tree, name)?, name);
            Ok(Next::Args(callee, at))
        }
        Before::Binding => Ok(Next::Args(Callee::Binding, at)),
    }
}

/// The step at a place, behind another.
fn step_next<V: View>(
    machine: &mut Machine,
    alloc: Global,
    tree: &Tree,
    view: &V,
    home: Home,
    before: Before,
    part: usize,
    at: usize,
    node: &Node,
) -> Result<Next, NoMemory>
    ensures { IfOk result (λ y. StepNext (record { names = V.names view.now; view = V.seen view.now }) (laid tree.now) home before part at node.now (standing machine.old) (standing machine.new) y) }
{
    match node {
        Node::Member(_, _) => member_next(machine, alloc, tree, view, home, before, part, at),
        Node::Element(_) => element_next(machine, alloc, tree, view, home, before, part, at),
        Node::Call(_) => callee_next(machine, alloc, tree, view, home, before, at),
        Node::Binding(_) => Ok(threw(Cause::Call)),
        _ => Err(NoMemory),
    }
}

/// The element at a place, of what stands before, as what is assigned to.
fn element_spot<V: View>(
    machine: &mut Machine,
    alloc: Global,
    tree: &Tree,
    view: &V,
    home: Home,
    before: Before,
    part: usize,
    at: usize,
) -> Result<Next, NoMemory>
    ensures { IfOk result (λ y. ElementSpot (record { names = V.names view.now; view = V.seen view.now }) (laid tree.now) home before part at (standing machine.old) (standing machine.new) y) }
{
    match before {
        Before::Value(value) => match first_part(tree, at) {
            Some(index) => pushed(machine, Frame::At(value), index),
            None => Err(NoMemory),
        },
        Before::Name(_)
        | Before::OfValue(_, _)
        | Before::OfNamed(_, _, _, _)
        | Before::OfScript(_, _)
        | Before::OfGlobal(_, _)
        | Before::Binding => {
            value_before(machine, alloc, tree, view, home, before, To::Step(part))
        }
    }
}

/// Goes on with the last step, which is assigned to.
fn spot_next<V: View>(
    machine: &mut Machine,
    alloc: Global,
    tree: &Tree,
    view: &V,
    home: Home,
    before: Before,
    part: usize,
    at: usize,
    node: &Node,
) -> Result<Next, NoMemory>
    ensures { IfOk result (λ y. SpotNext (record { names = V.names view.now; view = V.seen view.now }) (laid tree.now) home before part at node.now (standing machine.old) (standing machine.new) y) }
{
    match node {
        Node::Member(_, _) => {
            value_before(machine, alloc, tree, view, home, before, To::Spot(at))
        }
        Node::Element(_) => element_spot(machine, alloc, tree, view, home, before, part, at),
        Node::Call(_) => Ok(threw(Cause::Kind)),
        Node::Binding(_) => Ok(threw(Cause::Kind)),
        _ => Err(NoMemory),
    }
}

/// Whether a node is that of a step.
fn is_step(node: &Node) -> bool
    ensures { result ≡ is_step_node node.now }
{
    match node {
        Node::Member(_, _) | Node::Element(_) | Node::Call(_) | Node::Binding(_) => true,
        _ => false,
    }
}

/// Whether the step at a place is the last.
#[tactic(auto, using(js_frames::proofs::BoundLemmas::ends_here, js_frames::proofs::BoundLemmas::goes_further))]
fn ends_steps(tree: &Tree, at: usize) -> Result<bool, NoMemory>
    ensures { IfOk result (λ b. b ≡ ends_steps ((laid tree.now).rest at)) }
{
    let Some(next) = next_part(tree, at) else {
        return Ok(true);
    };
    let Some(node) = node_at(tree, next) else {
        return Err(NoMemory);
    };
    if is_step(node) {
        Ok(false)
    } else {
        Err(NoMemory)
    }
}

/// Whether the step at a place is assigned to.
fn is_spot(machine: &Machine, tree: &Tree, at: usize) -> Result<bool, NoMemory>
    ensures { IfOk result (λ b. b ≡ is_spot (laid tree.now) at (standing machine.now)) }
{
    if machine.frames.awaits_spot() {
        ends_steps(tree, at)
    } else {
        Ok(false)
    }
}

/// Goes on with the step at a place.
fn step_by<V: View>(
    machine: &mut Machine,
    alloc: Global,
    tree: &Tree,
    view: &V,
    home: Home,
    before: Before,
    part: usize,
    at: usize,
    spot: bool,
) -> Result<Next, NoMemory>
    ensures { IfOk result (λ y. StepBy (record { names = V.names view.now; view = V.seen view.now }) (laid tree.now) home before part at spot (standing machine.old) (standing machine.new) y) }
{
    let Some(node) = node_at(tree, at) else {
        return Err(NoMemory);
    };
    if spot {
        spot_next(machine, alloc, tree, view, home, before, part, at, node)
    } else {
        step_next(machine, alloc, tree, view, home, before, part, at, node)
    }
}

/// Goes on behind the last step, with its value.
fn steps_ended<V: View>(
    machine: &mut Machine,
    alloc: Global,
    tree: &Tree,
    view: &V,
    home: Home,
    before: Before,
) -> Result<Next, NoMemory>
    ensures { IfOk result (λ y. (awaits_spot machine.old.frames ≡ false) × ValueBefore (record { names = V.names view.now; view = V.seen view.now }) (laid tree.now) home before To.Back (standing machine.old) (standing machine.new) y) }
{
    if machine.frames.awaits_spot() {
        Err(NoMemory)
    } else {
        value_before(machine, alloc, tree, view, home, before, To::Back)
    }
}

/// Goes on with the steps behind a place.
pub fn stepped<V: View>(
    machine: &mut Machine,
    alloc: Global,
    tree: &Tree,
    view: &V,
    home: Home,
    before: Before,
    part: usize,
) -> Result<Next, NoMemory>
    ensures { IfOk result (λ y. Steps (record { names = V.names view.now; view = V.seen view.now }) (laid tree.now) home before part (standing machine.old) (standing machine.new) y) }
{
    match next_part(tree, part) {
        None => steps_ended(machine, alloc, tree, view, home, before),
        Some(at) => {
            let spot = is_spot(machine, tree, at)?;
            step_by(machine, alloc, tree, view, home, before, part, at, spot)
        }
    }
}
