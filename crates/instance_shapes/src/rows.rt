//! Names by their rows.

ghost use Rattle.std.specs.Prelude.{◌≡◌, IfOk, OnOk, codes};
ghost use Rattle.std.specs.Option.{option_map};
ghost use Rattle.std.specs.Str.{bytes_eq};
ghost use Rattle.instance_plans.specs.NamesMade.{hidden_cell as hidden_for, signal_no, found_object as object_found};
ghost use Rattle.instance_names.specs.Names.{each_put};
ghost use Rattle.instance_plans.specs.Numbers.{cell_no};
ghost use Rattle.instance_contents.specs.Tables.{Stands, rows_in, live_in, plan_in, placed};
ghost use Rattle.instance_shapes.specs.Told.{pairs_by, pairs_by_rows, pair_if, end_in, instance_in, own_finds, alias_finds, found_by};

use crate::told::Viewer;
use instance_contents::{Tables, builtin_at, number_at};
use instance_names::{change_signal, own_signal};
use name_table::NameTable;
use qml_base::{CellNo, ExprNo, Found, NoMemory, ObjNo, UnitNo};
use qml_text::Text;
use qml_types::TypeNo;
use std::alloc::Global;
use unit_rows::{NameFinds, NameRow, SignalRef, Way};

/// `itemAt`.
const ITEM_AT: [u16; 6] = [105, 116, 101, 109, 65, 116];

/// `get`.
const GET: [u16; 3] = [103, 101, 116];

/// Whether it is `itemAt`.
fn names_item_at(name: &Text) -> bool
    ensures { result ≡ bytes_eq name.now (codes "itemAt") }
{
    name.units() == ITEM_AT.as_slice()
}

/// Whether it is `get`.
fn names_get(name: &Text) -> bool
    ensures { result ≡ bytes_eq name.now (codes "get") }
{
    name.units() == GET.as_slice()
}

/// The hidden cell that a method reads, if it reads one.
fn hidden_cell(number: u32, cells: u32, name: &Text) -> Option<CellNo>
    ensures { result ≡ hidden_for number cells name.now }
{
    if names_item_at(name) {
        return Some(CellNo {
            object: ObjNo(number),
            place: cells,
        });
    }
    if names_get(name) {
        return Some(CellNo {
            object: ObjNo(number),
            place: 2,
        });
    }
    None
}

/// A signal of the object of a number.
fn signal(number: u32, signal: &SignalRef) -> Result<Found, NoMemory>
    ensures { IfOk result (λ found. found ≡ Found.Signal (record { 0 = number }) (signal_no signal.now)) }
{
    match signal {
        SignalRef::Change(place) => change_signal(number, *place),
        SignalRef::Own(place) => own_signal(number, *place),
        SignalRef::OfTarget(_) | SignalRef::Completed | SignalRef::Destruction => {
            Ok(Found::Signal(ObjNo(number), 0))
        }
    }
}

/// The object of a number.
fn found_object(tables: &Tables, number: u32) -> Found
    requires { Stands tables.now }
    ensures { result ≡ object_found (rows_in tables.now) (live_in tables.now) (plan_in tables.now) number }
{
    match builtin_at(tables, number) {
        TypeNo::Component => Found::Component(ObjNo(number)),
        _ => Found::Object(ObjNo(number)),
    }
}

/// What a row's name finds, if the row isn't that of an alias.
fn own_found(viewer: Viewer, row: &NameRow) -> Result<Option<Found>, NoMemory>
    ensures { IfOk result (λ found. found ≡ own_finds viewer row.now) }
{
    match &row.finds {
        NameFinds::Cell(place, _) => Ok(Some(Found::Cell(CellNo {
            object: ObjNo(viewer.number),
            place: *place,
        }))),
        NameFinds::Signal(of, _) => {
            let found = signal(viewer.number, of)?;
            Ok(Some(found))
        }
        NameFinds::Function(body) => {
            let body = ExprNo {
                unit: UnitNo(viewer.unit),
                at: *body,
            };
            Ok(Some(Found::Body(body, ObjNo(viewer.number))))
        }
        NameFinds::Method => {
            let cell = hidden_cell(viewer.number, viewer.cells, &row.name);
            Ok(Some(Found::Method(ObjNo(viewer.number), cell)))
        }
        NameFinds::Object(_) => Ok(None),
        NameFinds::CellOf(_, _, _) => Ok(None),
    }
}

/// The number of the object at the end of a way from the instance at a place, if there is one.
fn end_of(tables: &Tables, place: Option<u32>, way: &Way) -> Option<u32>
    requires { Stands tables.now }
    ensures { result ≡ end_in tables.now (option_map (placed tables.now) place) way.now }
{
    match place {
        Some(place) => number_at(tables, place, way),
        None => None,
    }
}

/// The object that an alias finds.
fn object_end(tables: &Tables, place: Option<u32>, way: &Way) -> Option<Found>
    requires { Stands tables.now }
    ensures { result ≡ option_map (object_found (rows_in tables.now) (live_in tables.now) (plan_in tables.now)) (end_in tables.now (option_map (placed tables.now) place) way.now) }
{
    match end_of(tables, place, way) {
        Some(number) => Some(found_object(tables, number)),
        None => None,
    }
}

/// The cell that an alias finds.
fn cell_end(tables: &Tables, place: Option<u32>, way: &Way, of: u32) -> Option<Found>
    requires { Stands tables.now }
    ensures { result ≡ option_map (λ m. Found.Cell (cell_no m of)) (end_in tables.now (option_map (placed tables.now) place) way.now) }
{
    match end_of(tables, place, way) {
        Some(number) => Some(Found::Cell(CellNo {
            object: ObjNo(number),
            place: of,
        })),
        None => None,
    }
}

/// What a row's name finds, if the row is that of an alias.
fn alias_found(tables: &Tables, viewer: Viewer, row: &NameRow) -> Option<Found>
    requires { Stands tables.now }
    ensures { result ≡ alias_finds tables.now (instance_in tables.now viewer) row.now }
{
    match &row.finds {
        NameFinds::Cell(_, _) => None,
        NameFinds::Signal(_, _) => None,
        NameFinds::Function(_) => None,
        NameFinds::Method => None,
        NameFinds::Object(way) => object_end(tables, viewer.place, way),
        NameFinds::CellOf(way, place, _) => cell_end(tables, viewer.place, way, *place),
    }
}

/// What a row's name finds: of an alias, or of another one.
fn found(
    tables: &Tables,
    viewer: Viewer,
    row: &NameRow,
    aliases: bool,
) -> Result<Option<Found>, NoMemory>
    requires { Stands tables.now }
    ensures { IfOk result (λ found. found ≡ found_by tables.now (instance_in tables.now viewer) viewer aliases row.now) }
{
    if aliases {
        Ok(alias_found(tables, viewer, row))
    } else {
        own_found(viewer, row)
    }
}

/// Puts a name with what it finds, if it finds something.
fn put_found(
    alloc: Global,
    names: &mut NameTable<Found>,
    name: &Text,
    found: Option<Found>,
) -> Result<(), NoMemory>
    ensures { OnOk result (names.new ≡ each_put names.old (pair_if name.now found)) }
{
    match found {
        Some(found) => names.put(alloc, name, found),
        None => Ok(()),
    }
}

/// Puts the name of a row, if it is that of an alias, or if it is none.
fn put_row(
    alloc: Global,
    tables: &Tables,
    names: &mut NameTable<Found>,
    viewer: Viewer,
    row: &NameRow,
    aliases: bool,
) -> Result<(), NoMemory>
    requires { Stands tables.now }
    ensures { OnOk result (names.new ≡ each_put names.old (pairs_by tables.now (instance_in tables.now viewer) viewer aliases row.now)) }
{
    let found = found(tables, viewer, row, aliases)?;
    put_found(alloc, names, &row.name, found)
}

/// Puts the names of rows, those of aliases or the others.
#[tactic(auto, using(instance_names::proofs::TypeLemmas::each_append))]
pub fn put_rows(
    alloc: Global,
    tables: &Tables,
    names: &mut NameTable<Found>,
    viewer: Viewer,
    rows: &[NameRow],
    aliases: bool,
) -> Result<(), NoMemory>
    requires { Stands tables.now }
    ensures { OnOk result (names.new ≡ each_put names.old (pairs_by_rows tables.now (instance_in tables.now viewer) viewer aliases rows.now)) }
{
    'rows: for row in rows {
        put_row(alloc, tables, names, viewer, row, aliases)?;
    }
    Ok(())
}
