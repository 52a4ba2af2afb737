//! Signals by the names of their handlers, row after row.

ghost use Rattle.std.specs.Prelude.{◌≡◌, ◌||◌, IfOk, OnOk};
ghost use Rattle.program_tables.specs.Building.{is_group};
ghost use Rattle.declared_signals.specs.Declaring as s;

use crate::naming::{changes_of, handler_name};
use document_members::Member;
use name_groups::NameGroups;
use program_tables::{UnitRow, is_group, is_inside};
use qml_base::NoMemory;
use qml_text::Text;
use std::alloc::Global;

/// A signal that an object declares.
#[derive(Clone, Copy, Debug)]
pub enum DeclaredSignal {
    /// That of the changes of a property, by the number of this among those that the object declares.
    Change(usize),
    /// Another one, by its number among these, and its row.
    Own(usize, usize),
}

/// The signals that an object declares.
#[derive(Drop)]
pub struct ObjectSignals {
    /// Those under the name of a handler, in the order of writing.
    pub under: NameGroups<DeclaredSignal>,
    /// How many properties it declares.
    pub cells: usize,
    /// How many other signals it declares.
    pub signals: usize,
}

/// The signals that the objects of a document declare, by their numbers.
#[derive(Drop)]
pub struct UnitSignals {
    pub objects: Vec<ObjectSignals>,
}

/// The signals that so many objects of a document declare in these rows: one for the changes of each property, and those that
/// are declared as signals (Qt 5.15, "Signal and Handler Event System"). What stands in a group declares nothing. It takes time by
/// the number of rows and objects.
#[tactic(auto, using(crate::proofs::LoopLemmas::rows_begin))]
pub fn unit_signals(alloc: Global, count: usize, rows: &[UnitRow]) -> Result<UnitSignals, NoMemory>
    ensures { IfOk result (λ unit. s.AreDeclared count rows.now unit.objects.items) }
{
    let mut objects = no_signals(alloc, count)?;
    let mut grouping = Vec::new(alloc);
    'rows: for (number, row) in rows.iter().enumerate() {
        let inside = is_inside(grouping.as_slice(), row.row.group);
        grouping.push(is_grouping(inside, &row.member))?;
        add_row(alloc, inside, number, row, &mut objects)?;
    }
    Ok(UnitSignals { objects })
}

/// Whether what is in a member stands in a group.
fn is_grouping(inside: bool, member: &Member) -> bool
    ensures { result ≡ (inside || is_group member.now) }
{
    inside || is_group(member)
}

/// So many objects that declare nothing.
#[tactic(auto, using(crate::proofs::LoopLemmas::one_more_object))]
fn no_signals(alloc: Global, count: usize) -> Result<Vec<ObjectSignals>, NoMemory>
    ensures { IfOk result (λ objects. s.AreNothing count objects.items) }
{
    let mut objects = Vec::new(alloc);
    'objects: for done in 0..count {
        objects.push(ObjectSignals {
            under: NameGroups::new(alloc),
            cells: 0,
            signals: 0,
        })?;
    }
    Ok(objects)
}

/// Adds the signal that the row of a number declares, where it isn't in a group.
fn add_row(
    alloc: Global,
    inside: bool,
    number: usize,
    row: &UnitRow,
    objects: &mut Vec<ObjectSignals>,
) -> Result<(), NoMemory>
    ensures { OnOk result (s.RowAdded inside number row.now objects.old.items objects.new.items) }
{
    if inside {
        return Ok(());
    }
    add_at(alloc, row.row.object, number, &row.member, objects)
}

/// Adds the signal that the member of a row declares to those of the object at a place, if there is one.
#[tactic(auto, using(crate::proofs::LoopLemmas::added_here, crate::proofs::LoopLemmas::added_nowhere))]
fn add_at(
    alloc: Global,
    at: usize,
    number: usize,
    member: &Member,
    objects: &mut Vec<ObjectSignals>,
) -> Result<(), NoMemory>
    ensures { OnOk result (s.AddedAt at number member.now objects.old.items objects.new.items) }
{
    if at < objects.len() {
        add_member(alloc, number, member, &mut objects[at])?;
        Ok(())
    } else {
        Ok(())
    }
}

/// Adds the signal that the member of a row declares.

fn add_member(
    alloc: Global,
    number: usize,
    member: &Member,
    object: &mut ObjectSignals,
) -> Result<(), NoMemory>
    ensures { OnOk result (s.Declares number member.now object.old object.new) }
{
    match member {
        Member::Property {
            at: _,
            adjective: _,
            kind: _,
            name,
            name_at: _,
            value: _,
        } => add_change(alloc, name, object),
        Member::Signal {
            at: _,
            name,
            name_at: _,
            parameters: _,
        } => add_signal(alloc, number, name, object),
        _ => Ok(()),
    }
}

/// Adds the signal of a property's changes.
#[tactic(auto, using(crate::proofs::MemberLemmas::change_added))]
fn add_change(alloc: Global, name: &Text, object: &mut ObjectSignals) -> Result<(), NoMemory>
    ensures { OnOk result (s.AddsChange name.now object.old object.new) }
{
    let Some(cells) = object.cells.checked_add(1) else {
        return Err(NoMemory);
    };
    let changes = changes_of(alloc, name.units())?;
    let handler = handler_name(alloc, &changes)?;
    object
        .under
        .put(alloc, &handler, DeclaredSignal::Change(object.cells))?;
    object.cells = cells;
    Ok(())
}

/// Adds a signal of the row of a number.
#[tactic(auto, using(crate::proofs::MemberLemmas::signal_added))]
fn add_signal(
    alloc: Global,
    number: usize,
    name: &Text,
    object: &mut ObjectSignals,
) -> Result<(), NoMemory>
    ensures { OnOk result (s.AddsSignal number name.now object.old object.new) }
{
    let Some(signals) = object.signals.checked_add(1) else {
        return Err(NoMemory);
    };
    let handler = handler_name(alloc, name.units())?;
    let signal = DeclaredSignal::Own(object.signals, number);
    object.under.put(alloc, &handler, signal)?;
    object.signals = signals;
    Ok(())
}
