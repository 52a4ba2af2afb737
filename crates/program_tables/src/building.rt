//! What the objects of a document declare, from its rows.

ghost use Rattle.std.specs.Prelude.{◌≡◌, [], ◌||◌, IfOk, OnOk, map};
ghost use Rattle.program_names.specs.Names.{changed};
ghost use Rattle.program_names.specs.Layers.{access_of as access_by};
ghost use Rattle.program_tables.specs.Building as s;

use crate::names::{Declared, ObjectNames, UnitNames};
use document_members::Member;
use document_rows::MemberRow;
use name_table::NameTable;
use qml_base::NoMemory;
use qml_syntax::Adjective;
use qml_text::Text;
use qml_types::{Access, PropKind, TypeRef};
use std::alloc::Global;

/// A row of a document: what is read of its member, and the kind that it declares, if it is a property's.
#[derive(Drop)]
pub struct UnitRow {
    pub row: MemberRow,
    pub member: Member,
    pub kind: PropKind,
}

/// What the objects of a document declare, where these are their types and these its rows. What stands in a group declares
/// nothing.
#[tactic(auto, using(crate::proofs::RowLemmas::rows_go_on))]
pub fn unit_names(alloc: Global, bases: &[TypeRef], rows: &[UnitRow]) -> Result<UnitNames, NoMemory>
    ensures { IfOk result (λ unit. unit.objects.items ≡ s.rows_added 0 [] rows.now (map s.nothing_declared bases.now)) }
{
    let mut objects = nothing(alloc, bases)?;
    let mut grouping = Vec::new(alloc);
    'rows: for (number, row) in rows.iter().enumerate() {
        let inside = is_inside(&grouping, row.row.group);
        grouping.push(inside || is_group(&row.member))?;
        add_row(alloc, inside, number, row, &mut objects)?;
    }
    Ok(UnitNames { objects })
}

/// Objects of these types that declare nothing yet.
fn nothing(alloc: Global, bases: &[TypeRef]) -> Result<Vec<ObjectNames>, NoMemory>
    ensures { IfOk result (λ objects. objects.items ≡ map s.nothing_declared bases.now) }
{
    let mut objects = Vec::new(alloc);
    'bases: for base in bases {
        objects.push(ObjectNames {
            base: *base,
            names: NameTable::new(alloc),
            cells: 0,
            default: None,
        })?;
    }
    Ok(objects)
}

/// Whether a row stands in a group, where `grouping` says of each row before it whether what is in it does.
pub fn is_inside(grouping: &[bool], group: Option<usize>) -> bool
    ensures { result ≡ s.is_inside grouping.now group }
{
    match group {
        Some(row) => match grouping.get(row) {
            Some(inside) => *inside,
            None => false,
        },
        None => false,
    }
}

/// Whether a member is a group: what is in it stands in one.
pub fn is_group(member: &Member) -> bool
    ensures { result ≡ s.is_group member.now }
{
    match member {
        Member::Group { path: _ } => true,
        _ => false,
    }
}

/// Adds what a row declares to its object, where it isn't in a group.
fn add_row(
    alloc: Global,
    inside: bool,
    number: usize,
    row: &UnitRow,
    objects: &mut Vec<ObjectNames>,
) -> Result<(), NoMemory>
    ensures { OnOk result (objects.new.items ≡ s.row_added inside number row.now objects.old.items) }
{
    if inside {
        return Ok(());
    }
    declare_at(alloc, number, row, objects)
}

/// Adds what a row declares to its object.
#[tactic(auto, using(crate::proofs::RowLemmas::changed_here, crate::proofs::RowLemmas::changed_nowhere))]
fn declare_at(
    alloc: Global,
    number: usize,
    row: &UnitRow,
    objects: &mut Vec<ObjectNames>,
) -> Result<(), NoMemory>
    ensures { OnOk result (objects.new.items ≡
        s.changed_at objects.old.items row.now.row.object (s.declared number row.now.kind row.now.member)) }
{
    let at = row.row.object;
    if at < objects.len() {
        declare(alloc, number, row, &mut objects[at])?;
        Ok(())
    } else {
        Ok(())
    }
}

/// Adds what a row declares.
fn declare(
    alloc: Global,
    number: usize,
    row: &UnitRow,
    entry: &mut ObjectNames,
) -> Result<(), NoMemory>
    ensures { OnOk result (entry.new ≡ s.declared number row.now.kind row.now.member entry.old) }
{
    match &row.member {
        Member::Property {
            at: _,
            adjective,
            kind: _,
            name,
            name_at: _,
            value: _,
        } => declare_property(alloc, number, *adjective, row.kind, name, entry),
        Member::Alias {
            at: _,
            default,
            name,
            name_at: _,
            target: _,
        } => declare_alias(alloc, number, *default, name, entry),
        Member::Signal {
            at: _,
            name,
            name_at: _,
            parameters: _,
        } => declare_name(alloc, name, Declared::Signal { row: number }, entry),
        Member::Method {
            at: _,
            function: _,
            name,
            name_at: _,
        } => declare_name(alloc, name, Declared::Function { row: number }, entry),
        _ => Ok(()),
    }
}

fn declare_name(
    alloc: Global,
    name: &Text,
    meaning: Declared,
    entry: &mut ObjectNames,
) -> Result<(), NoMemory>
    ensures { OnOk result (entry.new ≡ s.with_name name.now meaning entry.old) }
{
    entry.names.put(alloc, name, meaning)
}

fn declare_alias(
    alloc: Global,
    number: usize,
    default: bool,
    name: &Text,
    entry: &mut ObjectNames,
) -> Result<(), NoMemory>
    ensures { OnOk result (entry.new ≡ s.with_alias number default name.now entry.old) }
{
    declare_name(alloc, name, Declared::Alias { row: number }, entry)?;
    if default {
        entry.default = Some(number);
    }
    Ok(())
}

/// A property has a cell, and a signal of its changes.
fn declare_property(
    alloc: Global,
    number: usize,
    adjective: Adjective,
    kind: PropKind,
    name: &Text,
    entry: &mut ObjectNames,
) -> Result<(), NoMemory>
    ensures { OnOk result (entry.new ≡ s.with_property number adjective kind name.now entry.old) }
{
    let Some(cells) = entry.cells.checked_add(1) else {
        return Err(NoMemory);
    };
    let changes = changes_of(alloc, name)?;
    let cell = Declared::Cell {
        place: entry.cells,
        kind,
        access: access_of(adjective),
    };
    declare_name(alloc, name, cell, entry)?;
    declare_name(alloc, &changes, Declared::Changed, entry)?;
    entry.cells = cells;
    if adjective == Adjective::Default {
        entry.default = Some(number);
    }
    Ok(())
}

fn access_of(adjective: Adjective) -> Access
    ensures { result ≡ access_by adjective }
{
    match adjective {
        Adjective::ReadOnly => Access::ReadOnly,
        _ => Access::Writable,
    }
}

/// The name of the signal of a property's changes.
fn changes_of(alloc: Global, name: &Text) -> Result<Text, NoMemory>
    ensures { IfOk result (λ text. text ≡ changed name.now) }
{
    let mut units = Vec::from_slice(alloc, name.units())?;
    units.extend_from_slice(&[67, 104, 97, 110, 103, 101, 100])?;
    match Text::from_units(alloc, units) {
        Ok(text) => Ok(text),
        Err(_) => Err(NoMemory),
    }
}
