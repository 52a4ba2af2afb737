//! The names that objects have from their built-in types.

ghost use Rattle.std.specs.Prelude.{◌≡◌, ◌+◌, ◌*◌, ◌∷◌, [], true, IfOk, OnOk, map};
ghost use Rattle.std.specs.List.{flat_map};
ghost use Rattle.qml_types.specs.Table.{cell_of, is_shown};
ghost use Rattle.qml_types.specs.Members.{signal_of};
ghost use Rattle.program_names.specs.Names.{changed as changed_name};
ghost use Rattle.instance_plans.specs.NamesMade.{hidden_cell as hidden_for};
ghost use Rattle.instance_names.specs.Names as s;

use name_table::NameTable;
use qml_base::{CellNo, Found, NoMemory, ObjNo};
use qml_text::{NoMemory as TextMemory, Text, TextBuilder};
use qml_types::{Cell, Method, Signal, TypeNo, own_cells, own_methods, own_signals};
use std::alloc::Global;

/// The text of a name.
pub fn text_of(alloc: Global, name: &str) -> Result<Text, NoMemory>
    ensures { IfOk result (λ text. text ≡ name.now) }
{
    match Text::from_latin1(alloc, name.as_bytes()) {
        Ok(text) => Ok(text),
        Err(_) => Err(NoMemory),
    }
}

/// The name of a property with `Changed` behind it.
fn changed_text(alloc: Global, name: &str) -> Result<Text, TextMemory>
    ensures { IfOk result (λ text. text ≡ changed_name name.now) }
{
    let mut built = TextBuilder::new(alloc);
    let front = Text::from_latin1(alloc, name.as_bytes())?;
    built.append(&front)?;
    let behind = Text::from_latin1(alloc, b"Changed")?;
    built.append(&behind)?;
    let text = built.finish(alloc)?;
    Ok(text)
}

/// The name of the signal of a property's changes.
pub fn changed(alloc: Global, name: &str) -> Result<Text, NoMemory>
    ensures { IfOk result (λ text. text ≡ changed_name name.now) }
{
    match changed_text(alloc, name) {
        Ok(text) => Ok(text),
        Err(_) => Err(NoMemory),
    }
}

/// The signal of the change of the cell of a place.
pub fn change_signal(number: u32, place: u32) -> Result<Found, NoMemory>
    ensures { IfOk result (λ found. found ≡ Found.Signal (record { 0 = number }) (2 * place)) }
{
    match place.checked_mul(2) {
        Some(signal) => Ok(Found::Signal(ObjNo(number), signal)),
        None => Err(NoMemory),
    }
}

/// The own signal of a number.
pub fn own_signal(number: u32, place: u32) -> Result<Found, NoMemory>
    ensures { IfOk result (λ found. found ≡ Found.Signal (record { 0 = number }) (2 * place + 1)) }
{
    if place >= u32::MAX / 2 {
        return Err(NoMemory);
    }
    Ok(Found::Signal(ObjNo(number), 2 * place + 1))
}

/// Puts a property and the signal of its changes.
fn put_shown(
    alloc: Global,
    names: &mut NameTable<Found>,
    number: u32,
    cell: &Cell,
) -> Result<(), NoMemory>
    requires { is_shown cell.now.access ≡ true }
    ensures { OnOk result (names.new ≡ s.each_put names.old (s.pairs_of_cell number (cell_of cell.now))) }
{
    let found = Found::Cell(CellNo {
        object: ObjNo(number),
        place: cell.place,
    });
    let name = text_of(alloc, cell.name)?;
    names.put(alloc, &name, found)?;
    let signal = change_signal(number, cell.place)?;
    let name = changed(alloc, cell.name)?;
    names.put(alloc, &name, signal)?;
    Ok(())
}

/// Puts the names of a cell; a hidden one has none.
fn put_cell(
    alloc: Global,
    names: &mut NameTable<Found>,
    number: u32,
    cell: &Cell,
) -> Result<(), NoMemory>
    ensures { OnOk result (names.new ≡ s.each_put names.old (s.pairs_of_cell number (cell_of cell.now))) }
{
    if cell.access.is_shown() {
        put_shown(alloc, names, number, cell)
    } else {
        Ok(())
    }
}

/// Puts the names of cells.
#[tactic(auto, using(crate::proofs::TypeLemmas::each_append))]
fn put_cells(
    alloc: Global,
    names: &mut NameTable<Found>,
    number: u32,
    shown: &[Cell],
) -> Result<(), NoMemory>
    ensures { OnOk result (names.new ≡ s.each_put names.old (flat_map (s.pairs_of_cell number) (map cell_of shown.now))) }
{
    'cells: for cell in shown {
        put_cell(alloc, names, number, cell)?;
    }
    Ok(())
}

/// The hidden cell that a method reads.
pub fn hidden_cell(number: u32, cells: u32, name: &str) -> Option<CellNo>
    ensures { result ≡ hidden_for number cells name.now }
{
    if name == "itemAt" {
        return Some(CellNo {
            object: ObjNo(number),
            place: cells,
        });
    }
    if name == "get" {
        return Some(CellNo {
            object: ObjNo(number),
            place: 2,
        });
    }
    None
}

/// Puts a method.
fn put_method(
    alloc: Global,
    names: &mut NameTable<Found>,
    number: u32,
    cells: u32,
    method: Method,
) -> Result<(), NoMemory>
    ensures { OnOk result (names.new ≡ s.each_put names.old (s.pair_of_method number cells method ∷ [])) }
{
    let name = text_of(alloc, method.name())?;
    let found = Found::Method(ObjNo(number), hidden_cell(number, cells, method.name()));
    names.put(alloc, &name, found)
}

/// Puts methods.
fn put_methods(
    alloc: Global,
    names: &mut NameTable<Found>,
    number: u32,
    cells: u32,
    methods: &[Method],
) -> Result<(), NoMemory>
    ensures { OnOk result (names.new ≡ s.each_put names.old (map (s.pair_of_method number cells) methods.now)) }
{
    'methods: for method in methods {
        put_method(alloc, names, number, cells, *method)?;
    }
    Ok(())
}

/// Puts a signal.
fn put_signal(
    alloc: Global,
    names: &mut NameTable<Found>,
    number: u32,
    signal: &Signal,
) -> Result<(), NoMemory>
    ensures { OnOk result (names.new ≡ s.each_put names.old (s.pair_of_signal number (signal_of signal.now) ∷ [])) }
{
    let name = text_of(alloc, signal.name)?;
    let found = own_signal(number, signal.place)?;
    names.put(alloc, &name, found)
}

/// Puts signals.
fn put_signals(
    alloc: Global,
    names: &mut NameTable<Found>,
    number: u32,
    signals: &[Signal],
) -> Result<(), NoMemory>
    ensures { OnOk result (names.new ≡ s.each_put names.old (map (s.pair_of_signal number) (map signal_of signals.now))) }
{
    'signals: for signal in signals {
        put_signal(alloc, names, number, signal)?;
    }
    Ok(())
}

/// Puts the names that a type has beside those of its bases.
#[tactic(auto, using(crate::proofs::TypeLemmas::each_append))]
fn put_base(
    alloc: Global,
    names: &mut NameTable<Found>,
    number: u32,
    cells: u32,
    base: TypeNo,
) -> Result<(), NoMemory>
    ensures { OnOk result (names.new ≡ s.each_put names.old (s.pairs_of_base number cells base)) }
{
    put_cells(alloc, names, number, own_cells(base))?;
    put_methods(alloc, names, number, cells, own_methods(base))?;
    put_signals(alloc, names, number, own_signals(base))?;
    Ok(())
}

/// Puts the names of a built-in type, of the object of a number with so many cells.
#[tactic(auto, using(crate::proofs::TypeLemmas::each_append))]
pub fn put_builtin(
    alloc: Global,
    names: &mut NameTable<Found>,
    number: u32,
    cells: u32,
    of_type: TypeNo,
) -> Result<(), NoMemory>
    ensures { OnOk result (names.new ≡ s.each_put names.old (s.pairs_of_type number cells of_type)) }
{
    let bases = of_type.lineage();
    'bases: for base in bases {
        put_base(alloc, names, number, cells, *base)?;
    }
    Ok(())
}
