//! The rows of one type.

ghost use Rattle.std.specs.Prelude.{◌≡◌, ◌++◌, ◌∷◌, [], true, IfOk, OnOk, map};
ghost use Rattle.std.specs.List.{flat_map};
ghost use Rattle.qml_types.specs.Table.{cell_of, is_shown};
ghost use Rattle.qml_types.specs.Members.{signal_of};
ghost use Rattle.type_rows.specs.Rows as s;
ghost use Rattle.type_rows.specs.Rows.{type_rows};

use instance_names::{changed, text_of};
use qml_base::NoMemory;
use qml_text::Text;
use qml_types::{Cell, Method, Signal, TypeNo, own_cells, own_methods, own_signals};
use std::alloc::Global;
use unit_rows::{NameFinds, NameRow, Rows, SignalRef};

/// Puts a name with what it finds.
fn put(rows: &mut Rows<NameRow>, name: Text, finds: NameFinds) -> Result<(), NoMemory>
    ensures { OnOk result (rows.new ≡ rows.old ++ record { name = name; finds = finds } ∷ []) }
{
    rows.push(NameRow { name, finds })
}

/// Puts a property and the signal of its changes.
fn put_shown(alloc: Global, rows: &mut Rows<NameRow>, cell: &Cell) -> Result<(), NoMemory>
    requires { is_shown cell.now.access ≡ true }
    ensures { OnOk result (rows.new ≡ rows.old ++ s.rows_of_cell (cell_of cell.now)) }
{
    let name = text_of(alloc, cell.name)?;
    put(rows, name, NameFinds::Cell(cell.place, cell.access))?;
    let name = changed(alloc, cell.name)?;
    let signal = SignalRef::Change(cell.place);
    put(rows, name, NameFinds::Signal(signal, Rows::new(alloc)))
}

/// Puts the names of a cell; a hidden one has none.
fn put_cell(alloc: Global, rows: &mut Rows<NameRow>, cell: &Cell) -> Result<(), NoMemory>
    ensures { OnOk result (rows.new ≡ rows.old ++ s.rows_of_cell (cell_of cell.now)) }
{
    if cell.access.is_shown() {
        put_shown(alloc, rows, cell)
    } else {
        Ok(())
    }
}

/// Puts the names of cells.
fn put_cells(alloc: Global, rows: &mut Rows<NameRow>, shown: &[Cell]) -> Result<(), NoMemory>
    ensures { OnOk result (rows.new ≡ rows.old ++ flat_map s.rows_of_cell (map cell_of shown.now)) }
{
    'cells: for cell in shown {
        put_cell(alloc, rows, cell)?;
    }
    Ok(())
}

/// Puts methods.
fn put_methods(alloc: Global, rows: &mut Rows<NameRow>, methods: &[Method]) -> Result<(), NoMemory>
    ensures { OnOk result (rows.new ≡ rows.old ++ map s.row_of_method methods.now) }
{
    'methods: for method in methods {
        let name = text_of(alloc, method.name())?;
        put(rows, name, NameFinds::Method)?;
    }
    Ok(())
}

/// The names of a signal's parameters.
fn parameters(alloc: Global, names: &[&str]) -> Result<Rows<Text>, NoMemory>
    ensures { IfOk result (λ texts. texts ≡ map (λ name. name.now) names.now) }
{
    let mut texts = Rows::new(alloc);
    'names: for name in names {
        let text = text_of(alloc, name)?;
        texts.push(text)?;
    }
    Ok(texts)
}

/// Puts a signal.
fn put_signal(alloc: Global, rows: &mut Rows<NameRow>, signal: &Signal) -> Result<(), NoMemory>
    ensures { OnOk result (rows.new ≡ rows.old ++ s.row_of_signal (signal_of signal.now) ∷ []) }
{
    let name = text_of(alloc, signal.name)?;
    let parameters = parameters(alloc, signal.parameters)?;
    let own = SignalRef::Own(signal.place);
    put(rows, name, NameFinds::Signal(own, parameters))
}

/// Puts signals.
fn put_signals(alloc: Global, rows: &mut Rows<NameRow>, signals: &[Signal]) -> Result<(), NoMemory>
    ensures { OnOk result (rows.new ≡ rows.old ++ map s.row_of_signal (map signal_of signals.now)) }
{
    'signals: for signal in signals {
        put_signal(alloc, rows, signal)?;
    }
    Ok(())
}

/// Puts the names that a type has beside those of its bases.
fn put_base(alloc: Global, rows: &mut Rows<NameRow>, base: TypeNo) -> Result<(), NoMemory>
    ensures { OnOk result (rows.new ≡ rows.old ++ s.rows_of_base base) }
{
    put_cells(alloc, rows, own_cells(base))?;
    put_methods(alloc, rows, own_methods(base))?;
    put_signals(alloc, rows, own_signals(base))?;
    Ok(())
}

/// Puts the names of types.
fn put_bases(alloc: Global, rows: &mut Rows<NameRow>, bases: &[TypeNo]) -> Result<(), NoMemory>
    ensures { OnOk result (rows.new ≡ rows.old ++ flat_map s.rows_of_base bases.now) }
{
    'bases: for base in bases {
        put_base(alloc, rows, *base)?;
    }
    Ok(())
}

/// The names of a built-in type with what each finds: those of the types that it stands on first.
#[tactic(auto, using(crate::proofs::RowLemmas::are_rows))]
pub fn rows_of(alloc: Global, of_type: TypeNo) -> Result<Rows<NameRow>, NoMemory>
    ensures { IfOk result (λ rows. rows ≡ type_rows of_type) }
{
    let mut rows = Rows::new(alloc);
    put_bases(alloc, &mut rows, of_type.lineage())?;
    Ok(rows)
}
