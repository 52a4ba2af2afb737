//! What is done at a node itself.

ghost use Rattle.std.specs.Prelude.{◌≡◌, ◌++◌, IfOk, OnOk, reverse};
ghost use Rattle.std.specs.Str.{bytes_eq};
ghost use Rattle.std.specs.Prelude.{codes};
ghost use Rattle.js_locals.specs.Laid.{laid, is_name};
ghost use Rattle.code_deeds.specs.Forms.{node_at};
ghost use Rattle.code_deeds.specs.Own as s;

use crate::around::{Entry, Start, inside, is_around, is_local, is_pure};
use crate::doing::Doing;
use crate::form::{Form, StepForm};
use crate::tasks::Callee;
use js_locals::name_of;
use qml_base::{NoMemory, Place};
use qml_syntax::{Node, Tree};
use qml_text::Text;

/// `Qt`.
const QT: [u16; 2] = [81, 116];

/// `binding`.
const BINDING: [u16; 7] = [98, 105, 110, 100, 105, 110, 103];

fn is_qt(name: &Text) -> bool
    ensures { result ≡ bytes_eq name.now (codes "Qt") }
{
    name.units() == QT.as_slice()
}

fn is_binding(name: &Text) -> bool
    ensures { result ≡ bytes_eq name.now (codes "binding") }
{
    name.units() == BINDING.as_slice()
}

/// The place of the name `Qt`, where that stands at a node.
fn qt_at(tree: &Tree, at: usize) -> Option<Place>
    ensures { result ≡ s.qt_in (node_at tree.now at) }
{
    match tree.node(at) {
        Some(Node::Name(name, place)) => { if is_qt(name) { Some(*place) } else { None } }
        _ => None,
    }
}

/// Whether the node at a place is a step to `binding`.
fn binding_at(tree: &Tree, at: usize) -> bool
    ensures { result ≡ s.binding_in (node_at tree.now at) }
{
    match tree.node(at) {
        Some(Node::Member(name, _)) => is_binding(name),
        _ => false,
    }
}

fn bound_by(tree: &Tree, value: usize, step: usize) -> Option<Place>
    ensures { result ≡ s.bound_by tree.now value step }
{
    if binding_at(tree, step) {
        qt_at(tree, value)
    } else {
        None
    }
}

/// The place of `Qt`, where a value with steps behind it begins with `Qt.binding`.
pub fn bound(tree: &Tree, parts: &[usize]) -> Option<Place>
    ensures { result ≡ s.bound tree.now parts.now }
{
    let Some((value, steps)) = parts.split_first() else {
        return None;
    };
    match steps.split_first() {
        Some((step, _)) => bound_by(tree, *value, *step),
        None => None,
    }
}

fn is_call(tree: &Tree, at: usize) -> bool
    ensures { result ≡ s.is_call (node_at tree.now at) }
{
    match tree.node(at) {
        Some(Node::Call(_)) => true,
        Some(Node::Binding(_)) => true,
        _ => false,
    }
}

/// Whether these steps are none, or one call.
fn ends_call(tree: &Tree, steps: &[usize]) -> bool
    ensures { result ≡ s.ends_call tree.now steps.now }
{
    let Some((step, rest)) = steps.split_first() else {
        return true;
    };
    rest.is_empty() && is_call(tree, *step)
}

/// Whether behind a value and its first step no more stands than one call.
fn is_short(tree: &Tree, parts: &[usize]) -> bool
    ensures { result ≡ s.is_short tree.now parts.now }
{
    let Some((_, steps)) = parts.split_first() else {
        return true;
    };
    match steps.split_first() {
        Some((_, rest)) => ends_call(tree, rest),
        None => true,
    }
}

fn is_name(tree: &Tree, at: usize) -> bool
    ensures { result ≡ is_name (node_at tree.now at) }
{
    match tree.node(at) {
        Some(Node::Name(_, _)) => true,
        _ => false,
    }
}

/// Whether the expression at a place is the name of a local.
pub fn is_local_at(
    tree: &Tree,
    start: &Start,
    entries: &[Entry],
    at: usize,
) -> Result<bool, NoMemory>
    ensures { IfOk result (λ b. b ≡ s.is_local_at tree.now start.now (reverse entries.now) at) }
{
    if !is_name(tree, at) {
        return Ok(false);
    }
    match name_of(tree, at) {
        Ok(name) => is_local(tree, start, entries, name),
        Err(_) => Err(NoMemory),
    }
}

/// Whether a name at a place is misplaced in the function of a `Qt.binding`.
fn is_misplaced(tree: &Tree, start: &Start, entries: &[Entry], at: usize) -> Result<bool, NoMemory>
    ensures { IfOk result (λ b. b ≡ s.is_misplaced tree.now start.now (reverse entries.now) at) }
{
    let Ok(name) = name_of(tree, at) else {
        return Err(NoMemory);
    };
    if is_local(tree, start, entries, name)? {
        return Ok(false);
    }
    is_around(tree, start, entries, name)
}

/// Adds what is done by a name.
fn name_doings(
    tree: &Tree,
    start: &Start,
    entries: &[Entry],
    at: usize,
    found: &mut Vec<Doing>,
) -> Result<(), NoMemory>
    ensures { OnOk result (found.new.items ≡ found.old.items ++ s.name_doings tree.now start.now
        (reverse entries.now) at) }
{
    match inside(entries) {
        Some(place) => {
            if is_misplaced(tree, start, entries, at)? {
                found.push(Doing::Misbinds(place))?;
            }
            Ok(())
        }
        None => Ok(()),
    }
}

/// Adds what is done where a target is changed.
fn write_doings(
    tree: &Tree,
    start: &Start,
    entries: &[Entry],
    target: usize,
    place: Place,
    found: &mut Vec<Doing>,
) -> Result<(), NoMemory>
    ensures { OnOk result (found.new.items ≡ found.old.items ++ s.write_doings tree.now start.now
        (reverse entries.now) target place) }
{
    if !is_pure(start, entries) {
        return Ok(());
    }
    if is_local_at(tree, start, entries, target)? {
        return Ok(());
    }
    found.push(Doing::Effect(place))?;
    Ok(())
}

/// Adds what is done where the first of some parts is changed.
fn first_doings(
    tree: &Tree,
    start: &Start,
    entries: &[Entry],
    parts: &[usize],
    place: Place,
    found: &mut Vec<Doing>,
) -> Result<(), NoMemory>
    ensures { OnOk result (found.new.items ≡ found.old.items ++ s.first_doings tree.now start.now
        (reverse entries.now) parts.now place) }
{
    match parts.split_first() {
        Some((first, _)) => write_doings(tree, start, entries, *first, place, found),
        None => Ok(()),
    }
}

/// Adds what is done where the last of some parts is changed.
fn last_doings(
    tree: &Tree,
    start: &Start,
    entries: &[Entry],
    parts: &[usize],
    place: Place,
    found: &mut Vec<Doing>,
) -> Result<(), NoMemory>
    ensures { OnOk result (found.new.items ≡ found.old.items ++ s.first_doings tree.now start.now
        (reverse entries.now) (reverse parts.now) place) }
{
    match parts.split_last() {
        Some((last, _)) => write_doings(tree, start, entries, *last, place, found),
        None => Ok(()),
    }
}

/// Adds a `Qt.binding` that can't stand where a value with steps behind it does.
fn steps_doings(
    tree: &Tree,
    start: &Start,
    right: bool,
    parts: &[usize],
    found: &mut Vec<Doing>,
) -> Result<(), NoMemory>
    ensures { OnOk result (found.new.items ≡ found.old.items ++ s.steps_doings tree.now start.now right parts.now) }
{
    if right && is_short(tree, parts) && !start.in_script {
        return Ok(());
    }
    match bound(tree, parts) {
        Some(place) => {
            found.push(Doing::Misbinds(place))?;
            Ok(())
        }
        None => Ok(()),
    }
}

/// Adds what is done at a node itself, where these are its parts; `right` says that it is assigned to a property.
pub fn own_doings(
    tree: &Tree,
    start: &Start,
    entries: &[Entry],
    right: bool,
    at: usize,
    form: Form,
    parts: &[usize],
    found: &mut Vec<Doing>,
) -> Result<(), NoMemory>
    ensures { OnOk result (found.new.items ≡
        found.old.items ++ s.own_doings tree.now start.now (reverse entries.now) right at form parts.now) }
{
    match form {
        Form::Name => name_doings(tree, start, entries, at, found),
        Form::ChangesFirst(place) => first_doings(tree, start, entries, parts, place, found),
        Form::ChangesLast(place) => last_doings(tree, start, entries, parts, place, found),
        Form::Steps => steps_doings(tree, start, right, parts, found),
        Form::Assign | Form::Block | Form::For | Form::Parts | Form::Other => Ok(()),
    }
}

/// What is done by the call of a name.
fn name_call(
    tree: &Tree,
    start: &Start,
    entries: &[Entry],
    name: usize,
    place: Place,
) -> Result<Doing, NoMemory>
    ensures { IfOk result (λ d. d ≡ s.name_call tree.now start.now (reverse entries.now) name place) }
{
    let Ok(text) = name_of(tree, name) else {
        return Err(NoMemory);
    };
    if is_local(tree, start, entries, text)? {
        return Ok(Doing::Effect(place));
    }
    Ok(Doing::CallsName(name))
}

/// What is done by the call of a member of a name.
fn member_call(
    tree: &Tree,
    start: &Start,
    entries: &[Entry],
    name: usize,
    member: usize,
) -> Result<Doing, NoMemory>
    ensures { IfOk result (λ d. d ≡ s.member_call tree.now start.now (reverse entries.now) name member) }
{
    let Ok(text) = name_of(tree, name) else {
        return Err(NoMemory);
    };
    if is_local(tree, start, entries, text)? {
        return Ok(Doing::CallsMember(member));
    }
    Ok(Doing::CallsOf { name, member })
}

fn place_of_name(tree: &Tree, at: usize) -> Place
    ensures { result ≡ s.place_of_name (node_at tree.now at) }
{
    match tree.node(at) {
        Some(Node::Name(_, place)) => *place,
        Some(Node::Member(_, place)) => *place,
        _ => Place { line: 0, column: 0 },
    }
}

/// What is done by a call whose `(` stands at a place.
fn call_doing(
    tree: &Tree,
    start: &Start,
    entries: &[Entry],
    callee: Callee,
    bracket: Place,
) -> Result<Doing, NoMemory>
    ensures { IfOk result (λ d. d ≡ s.call_doing tree.now start.now (reverse entries.now) callee bracket) }
{
    match callee {
        Callee::Name(name) => {
            let place = place_of_name(tree, name);
            name_call(tree, start, entries, name, place)
        }
        Callee::OfName { name, member } => member_call(tree, start, entries, name, member),
        Callee::Member(member) => Ok(Doing::CallsMember(member)),
        Callee::Value => Ok(Doing::Effect(bracket)),
    }
}

/// Adds what is done by a call, where no effect may be.
fn pure_call(
    tree: &Tree,
    start: &Start,
    entries: &[Entry],
    callee: Callee,
    bracket: Place,
    found: &mut Vec<Doing>,
) -> Result<(), NoMemory>
    ensures { OnOk result (found.new.items ≡ found.old.items ++ s.pure_call tree.now start.now
        (reverse entries.now) callee bracket) }
{
    if !is_pure(start, entries) {
        return Ok(());
    }
    let doing = call_doing(tree, start, entries, callee, bracket)?;
    found.push(doing)?;
    Ok(())
}

/// Adds what is done by a step itself.
pub fn step_doings(
    tree: &Tree,
    start: &Start,
    entries: &[Entry],
    callee: Callee,
    form: StepForm,
    found: &mut Vec<Doing>,
) -> Result<(), NoMemory>
    ensures { OnOk result (found.new.items ≡ found.old.items ++ s.step_doings tree.now start.now
        (reverse entries.now) callee form) }
{
    match form {
        StepForm::Call(place) => pure_call(tree, start, entries, callee, place, found),
        StepForm::Binding(place) => pure_call(tree, start, entries, callee, place, found),
        StepForm::Element | StepForm::Other => Ok(()),
    }
}
