//! The cells of a planned object.

ghost use Rattle.std.specs.Prelude.{◌≡◌, ◌++◌, ◌∷◌, [], ℕ, List as AList, IfOk, OnOk, map, length, slice_get};
ghost use Rattle.qml_types.specs.Table.{cell_of, cells_of};
ghost use Rattle.qml_types.specs.declared.kind.TypeNo.TheVariants as no;
ghost use Rattle.qml_value.specs.declared.value.Value.{Value as AValue};
ghost use Rattle.std.specs.Option.{unwrap_or};
ghost use Rattle.program_names.specs.Layers.{same_type};
ghost use Rattle.js_meaning.specs.Rows.{list_value};
ghost use Rattle.tree_model.specs.declared.cells.Content.TheVariants.{Plain as plain};
ghost use Rattle.instance_plans.specs.Numbers as n;
ghost use Rattle.instance_plans.specs.Cells as made;
ghost use Rattle.unit_rows.specs.Seen.{all_seen};
ghost use Rattle.instance_plans.specs.Treed.{cell_made};
ghost use Rattle.instance_contents.specs.Tables.{Stands, rows_in, live_in, plan_in};
ghost use Rattle.instance_contents.specs.Sources.{Tells, given_all};
ghost use Rattle.instance_contents.specs.Making as m;

use crate::given::Given;
use crate::ids::live_value;
use crate::lookup::content_at;
use crate::tables::{Tables, planned_at, value_at};
use crate::types::{builtin_planned, documents_from, is_item};
use instance_plans::Planned;
use instancing::{object, type_at};
use qml_base::{NoMemory, ObjNo};
use qml_text::Text;
use qml_types::{Cell, PropKind, TypeNo, cell_at, cell_count, default_of};
use qml_value::{List, Value};
use std::alloc::Global;
use tree_model::{Binding, Content, NewCell, Rule};
use unit_rows::{CellRow, Unit};

/// What an object is written in, as a value; null where there is nothing.
fn value_of_owner(tables: &Tables, owner: Option<u32>) -> Value
    requires { Stands tables.now }
    ensures { result ≡ m.owner_value tables.now owner }
{
    let Some(number) = owner else {
        return Value::Null;
    };
    match planned_at(tables, number) {
        Some(_) => value_at(tables, number),
        None => live_value(tables.shapes, ObjNo(number)),
    }
}

/// Whether a property is a list of objects.
fn is_list(kind: &PropKind) -> bool
    ensures { result ≡ m.is_list_kind kind.now }
{
    match kind {
        PropKind::List(_) => true,
        _ => false,
    }
}

/// What a cell of a built-in type holds until its content first gives a value.
#[tactic(auto, using(crate::proofs::CellLemmas::first_of_list, crate::proofs::CellLemmas::first_of_others))]
fn first_held(
    alloc: Global,
    tables: &Tables,
    owner: Option<u32>,
    cell: &Cell,
) -> Result<Value, NoMemory>
    requires { Stands tables.now }
    ensures { IfOk result (λ v. v ≡ m.held_at_first tables.now owner (cell_of cell.now)) }
{
    if is_list(&cell.kind) {
        return Ok(Value::List(List::new(alloc)));
    }
    let held = cell.first_value(alloc, value_of_owner(tables, owner))?;
    Ok(held)
}

/// What a property of a kind contains where nothing is given.
#[tactic(auto, using(crate::proofs::CellLemmas::empty_is))]
fn empty_of(alloc: Global, kind: &PropKind) -> Value
    ensures { result ≡ m.empty_value kind.now }
{
    default_of(alloc, kind)
}

/// The parent of an object that is written as an Item's child.
fn parent_of(tables: &Tables, x: Planned) -> Value
    requires { Stands tables.now }
    ensures { result ≡ m.parent_value tables.now x }
{
    if !x.is_around && is_child(tables.units, x.unit, x.object) {
        value_of_owner(tables, x.owner)
    } else {
        Value::Null
    }
}

/// Whether an object is written as an Item's child, and an Item.
fn is_child(units: &[Unit], unit: u32, o: u32) -> bool
    ensures { result ≡ (n.row_at (all_seen units.now) unit o).is_child }
{
    match object(units, unit, o) {
        Some(row) => row.is_child,
        None => false,
    }
}

/// The binding of a rule that is built in.
fn ruled(rule: Rule, number: u32) -> Content
    ensures { result ≡ m.ruled rule number }
{
    Content::Bound(Binding {
        rule,
        author: ObjNo(number),
    })
}

/// What a cell of an Item contains where nothing is given, if that isn't what it holds at first.
fn item_content(tables: &Tables, x: Planned, name: &str) -> Option<Content>
    requires { Stands tables.now }
    ensures { result ≡ m.item_rule tables.now x name.now }
{
    if name == "visible" {
        return Some(ruled(Rule::Visible, x.number));
    }
    if name == "enabled" {
        return Some(ruled(Rule::Enabled, x.number));
    }
    if name == "parent" {
        return Some(Content::Plain(parent_of(tables, x)));
    }
    None
}

/// What a cell contains where nothing is given, if that isn't what it holds at first.
fn own_content(tables: &Tables, of_type: TypeNo, x: Planned, name: &str) -> Option<Content>
    requires { Stands tables.now }
    ensures { result ≡ m.own_rule tables.now of_type x name.now }
{
    if name == "count" {
        return Some(ruled(Rule::Count, x.number));
    }
    if is_item(of_type) {
        item_content(tables, x, name)
    } else {
        None
    }
}

/// What a cell of a built-in type contains where nothing is given.
fn otherwise(
    alloc: Global,
    tables: &Tables,
    of_type: TypeNo,
    x: Planned,
    cell: &Cell,
) -> Result<Content, NoMemory>
    requires { Stands tables.now }
    ensures { IfOk result (λ c. c ≡ m.content_otherwise tables.now of_type x (cell_of cell.now)) }
{
    match own_content(tables, of_type, x, cell.name) {
        Some(content) => Ok(content),
        None => {
            let held = first_held(alloc, tables, x.owner, cell)?;
            Ok(Content::Plain(held))
        }
    }
}

/// What is given for a cell of a built-in type, or what it contains where nothing is.
fn given_or(
    alloc: Global,
    tables: &Tables,
    of_type: TypeNo,
    x: Planned,
    cell: &Cell,
    given: Option<Content>,
) -> Result<Content, NoMemory>
    requires { Stands tables.now }
    ensures { IfOk result (λ c. c ≡ unwrap_or given (m.content_otherwise tables.now of_type x (cell_of cell.now))) }
{
    match given {
        Some(content) => Ok(content),
        None => otherwise(alloc, tables, of_type, x, cell),
    }
}

/// A cell of a built-in type.
#[tactic(auto, using(crate::proofs::CellLemmas::typed_is))]
fn typed_cell(
    alloc: Global,
    tables: &Tables,
    given: &Given,
    of_type: TypeNo,
    x: Planned,
    cell: &Cell,
) -> Result<NewCell, NoMemory>
    requires stands { Stands tables.now }
    requires given { Tells tables.now given.now }
    ensures { IfOk result (λ c. c ≡ m.cell_of_type tables.now of_type x (cell_of cell.now)) }
{
    let found = content_at(alloc, tables, given, x.number, cell.place)?;
    let content = given_or(alloc, tables, of_type, x, cell, found)?;
    let held = first_held(alloc, tables, x.owner, cell)?;
    Ok(NewCell {
        kind: cell.kind,
        content,
        held,
    })
}

/// The cells of a built-in type.
fn put_typed(
    alloc: Global,
    tables: &Tables,
    given: &Given,
    of_type: TypeNo,
    x: Planned,
    cells: &mut Vec<NewCell>,
) -> Result<(), NoMemory>
    requires stands { Stands tables.now }
    requires given { Tells tables.now given.now }
    ensures { OnOk result (cells.new.items ≡ cells.old.items ++ map (m.cell_of_type tables.now of_type x) (cells_of of_type)) }
{
    'places: for place in 0..cell_count(of_type) {
        push_typed(alloc, tables, given, of_type, x, place, cells)?;
    }
    Ok(())
}

/// Puts the cell of a place of a built-in type, if there is one.
fn push_typed(
    alloc: Global,
    tables: &Tables,
    given: &Given,
    of_type: TypeNo,
    x: Planned,
    place: u32,
    cells: &mut Vec<NewCell>,
) -> Result<(), NoMemory>
    requires stands { Stands tables.now }
    requires given { Tells tables.now given.now }
    ensures { OnOk result (cells.new.items ≡ cells.old.items ++ m.typed_if tables.now of_type x (slice_get (cells_of of_type) place)) }
{
    let Some(cell) = cell_at(of_type, place) else {
        return Ok(());
    };
    let cell = typed_cell(alloc, tables, given, of_type, x, cell)?;
    cells.push(cell)?;
    Ok(())
}

/// What is given for a declared cell, or what it contains where nothing is.
fn given_or_empty(alloc: Global, kind: &PropKind, given: Option<Content>) -> Content
    ensures { result ≡ unwrap_or given (plain (m.empty_value kind.now)) }
{
    match given {
        Some(content) => content,
        None => Content::Plain(empty_of(alloc, kind)),
    }
}

/// A declared cell.
fn declared_cell(
    alloc: Global,
    tables: &Tables,
    given: &Given,
    number: u32,
    place: u32,
    kind: &PropKind,
) -> Result<NewCell, NoMemory>
    requires stands { Stands tables.now }
    requires given { Tells tables.now given.now }
    ensures { IfOk result (λ c. c ≡ m.declared_cell_of tables.now number place kind.now) }
{
    let found = content_at(alloc, tables, given, number, place)?;
    Ok(NewCell {
        kind: *kind,
        content: given_or_empty(alloc, kind, found),
        held: empty_of(alloc, kind),
    })
}

/// The cells of rows, behind others.
fn put_declared(
    alloc: Global,
    tables: &Tables,
    given: &Given,
    number: u32,
    rows: &[CellRow],
    cells: &mut Vec<NewCell>,
) -> Result<(), NoMemory>
    requires stands { Stands tables.now }
    requires given { Tells tables.now given.now }
    ensures { OnOk result (cells.new.items ≡ cells.old.items ++ m.declared_from tables.now number (length cells.old.items) rows.now) }
{
    'rows: for row in rows {
        push_declared(alloc, tables, given, number, &row.kind, cells)?;
    }
    Ok(())
}

/// Puts a declared cell behind others.
fn push_declared(
    alloc: Global,
    tables: &Tables,
    given: &Given,
    number: u32,
    kind: &PropKind,
    cells: &mut Vec<NewCell>,
) -> Result<(), NoMemory>
    requires stands { Stands tables.now }
    requires given { Tells tables.now given.now }
    ensures { OnOk result (cells.new.items ≡ cells.old.items ++ m.declared_cell_of tables.now number (length cells.old.items) kind.now ∷ []) }
{
    let Ok(place) = u32::try_from(cells.len()) else {
        return Err(NoMemory);
    };
    let cell = declared_cell(alloc, tables, given, number, place, kind)?;
    cells.push(cell)?;
    Ok(())
}

/// The cells that an object as written declares.
fn put_own(
    alloc: Global,
    tables: &Tables,
    given: &Given,
    number: u32,
    at: (u32, u32),
    cells: &mut Vec<NewCell>,
) -> Result<(), NoMemory>
    requires stands { Stands tables.now }
    requires given { Tells tables.now given.now }
    ensures { OnOk result (cells.new.items ≡ cells.old.items ++ m.declared_from tables.now number (length cells.old.items) (n.row_at (rows_in tables.now) at.0 at.1).cells) }
{
    match object(tables.units, at.0, at.1) {
        Some(row) => put_declared(alloc, tables, given, number, row.cells.as_slice(), cells),
        None => Ok(()),
    }
}

/// The cells that the documents of a type declare, which are told from the lowest on.
fn put_documents(
    alloc: Global,
    tables: &Tables,
    given: &Given,
    number: u32,
    documents: &[u32],
    cells: &mut Vec<NewCell>,
) -> Result<(), NoMemory>
    requires stands { Stands tables.now }
    requires given { Tells tables.now given.now }
    ensures { OnOk result (cells.new.items ≡ cells.old.items ++ m.declared_from tables.now number (length cells.old.items) (m.rows_of_documents tables.now documents.now)) }
{
    'documents: for document in documents {
        put_own(alloc, tables, given, number, (*document, 0), cells)?;
    }
    Ok(())
}

/// The cells of delegate names.
fn put_delegates(
    alloc: Global,
    delegates: &[(Text, Value)],
    cells: &mut Vec<NewCell>,
) -> Result<(), NoMemory>
    ensures { OnOk result (cells.new.items ≡ cells.old.items ++ map m.delegate_cell (map (λ (d : AList ℕ × AValue). d.1) delegates.now)) }
{
    'delegates: for delegate in delegates {
        let Ok(value) = delegate.1.copy(alloc) else {
            return Err(NoMemory);
        };
        cells.push(NewCell {
            kind: PropKind::Var,
            content: Content::Plain(value),
            held: Value::Undefined,
        })?;
    }
    Ok(())
}

/// The cell of a Repeater's list of delegates, which is its last.
fn put_list(alloc: Global, of_type: TypeNo, cells: &mut Vec<NewCell>) -> Result<(), NoMemory>
    ensures { OnOk result (cells.new.items ≡ cells.old.items ++ m.cells_of_list of_type) }
{
    if is_repeater(of_type) {
        cells.push(list_cell(alloc))?;
    }
    Ok(())
}

/// Whether it is a Repeater.
fn is_repeater(of_type: TypeNo) -> bool
    ensures { result ≡ same_type no.Repeater of_type }
{
    match of_type {
        TypeNo::Repeater => true,
        _ => false,
    }
}

/// The cell of a list of delegates.
fn list_cell(alloc: Global) -> NewCell
    ensures { result ≡ m.list_cell }
{
    NewCell {
        kind: PropKind::Var,
        content: Content::Plain(empty_list(alloc)),
        held: empty_list(alloc),
    }
}

/// The empty list.
#[tactic(auto, using(crate::proofs::CellLemmas::no_list))]
fn empty_list(alloc: Global) -> Value
    ensures { result ≡ list_value [] }
{
    Value::List(List::new(alloc))
}

/// The cells that are declared for an object: those of the documents of its type, from the lowest on, and its own.
fn put_all_declared(
    alloc: Global,
    tables: &Tables,
    given: &Given,
    x: Planned,
    cells: &mut Vec<NewCell>,
) -> Result<(), NoMemory>
    requires stands { Stands tables.now }
    requires given { Tells tables.now given.now }
    ensures { OnOk result (cells.new.items ≡ cells.old.items ++ m.declared_from tables.now x.number (length cells.old.items) (made.rows_declared (rows_in tables.now) (live_in tables.now) (plan_in tables.now) (given_all tables.now) x)) }
{
    if x.is_around {
        return Ok(());
    }
    let mut documents = documents_from(
        alloc,
        tables.units,
        type_at(tables.units, x.unit, x.object),
    )?;
    documents.reverse();
    put_documents(alloc, tables, given, x.number, documents.as_slice(), cells)?;
    put_own(alloc, tables, given, x.number, (x.unit, x.object), cells)?;
    Ok(())
}

/// The cells of a planned object: those of its built-in type, those that are declared, those of its delegate names, and the list of
/// a Repeater's delegates.
pub fn object_cells(
    alloc: Global,
    tables: &Tables,
    given: &Given,
    x: Planned,
    delegates: &[(Text, Value)],
) -> Result<Vec<NewCell>, NoMemory>
    requires stands { Stands tables.now }
    requires given { Tells tables.now given.now }
    ensures { IfOk result (λ cells. cells.items ≡ m.cells_of_object tables.now x (map (λ (d : AList ℕ × AValue). d.1) delegates.now)) }
{
    let of_type = builtin_planned(tables.units, x);
    let mut cells = Vec::new(alloc);
    put_typed(alloc, tables, given, of_type, x, &mut cells)?;
    put_all_declared(alloc, tables, given, x, &mut cells)?;
    put_delegates(alloc, delegates, &mut cells)?;
    put_list(alloc, of_type, &mut cells)?;
    Ok(cells)
}
