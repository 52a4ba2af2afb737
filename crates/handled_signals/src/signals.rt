//! The signals for which a handler's name stands.

ghost use Rattle.std.specs.Prelude.{◌≡◌, ◌+◌, ◌++◌, length, map, option_copied, IfOk, OnOk};
ghost use Rattle.std.specs.List.{flat_map};
ghost use Rattle.qml_types.specs.Members as members;
ghost use Rattle.program_tables.specs.Walk.{object_in};
ghost use Rattle.declared_signals.specs.Told as told;
ghost use Rattle.handled_signals.specs.Handled as s;

use crate::comparing::handles;
use crate::layers::object_layers;
use declared_signals::{DeclaredSignal, ObjectSignals, UnitSignals};
use document_members::Member;
use document_tables::DocumentTable;
use program_tables::{Names, UnitNames, UnitRow};
use qml_base::NoMemory;
use qml_text::Text;
use qml_types::{TypeNo, cell_count};
use std::alloc::Global;
use type_rows::TypeRows;
use unit_rows::{NameFinds, NameRow, Rows, SignalRef};

/// What signals are looked up by: the names of a program, the tables of its documents, the signals that their objects declare, and the
/// names of built-in types.
pub struct SignalTables<'a> {
    pub names: &'a Names,
    pub documents: &'a [DocumentTable],
    pub signals: &'a [UnitSignals],
    pub types: &'a TypeRows,
}

/// The signals of the lower layers under a handler, and how many cells and other signals these have.
#[derive(Drop)]
pub struct Found {
    pub cells: usize,
    pub signals: usize,
    pub list: Vec<(SignalRef, Rows<Text>)>,
}

/// How many signals a built-in type has beside those of changes.
fn signal_count(type_no: TypeNo) -> usize
    ensures { result ≡ length (members.signals_of type_no) }
{
    match type_no {
        TypeNo::Timer | TypeNo::Loader => 1,
        TypeNo::Repeater => 2,
        _ => 0,
    }
}

fn copied(alloc: Global, text: &Text) -> Result<Text, NoMemory>
    ensures { IfOk result (λ t. t ≡ text.now) }
{
    match text.copy(alloc) {
        Ok(copy) => Ok(copy),
        Err(_) => Err(NoMemory),
    }
}

fn copied_names(alloc: Global, names: &[Text]) -> Result<Rows<Text>, NoMemory>
    ensures { IfOk result (λ copies. copies ≡ names.now) }
{
    let mut copies = Rows::new(alloc);
    'names: for name in names {
        let copy = copied(alloc, name)?;
        copies.push(copy)?;
    }
    Ok(copies)
}

/// A place as it is kept, behind so many.
fn behind(before: usize, number: usize) -> Result<u32, NoMemory>
    ensures { IfOk result (λ n. n ≡ before + number) }
{
    let Some(place) = before.checked_add(number) else {
        return Err(NoMemory);
    };
    match u32::try_from(place) {
        Ok(place) => Ok(place),
        Err(_) => Err(NoMemory),
    }
}

// ---- built-in types

fn copied_signal(alloc: Global, signal: &SignalRef) -> Result<SignalRef, NoMemory>
    ensures { IfOk result (λ copy. copy ≡ signal.now) }
{
    match signal {
        SignalRef::Change(place) => Ok(SignalRef::Change(*place)),
        SignalRef::Own(number) => Ok(SignalRef::Own(*number)),
        SignalRef::OfTarget(name) => Ok(SignalRef::OfTarget(copied(alloc, name)?)),
        SignalRef::Completed => Ok(SignalRef::Completed),
        SignalRef::Destruction => Ok(SignalRef::Destruction),
    }
}

/// Puts a signal, if the handler is for its name.
fn put_named(
    alloc: Global,
    name: &Text,
    signal: &SignalRef,
    parameters: &[Text],
    handler: &Text,
    list: &mut Vec<(SignalRef, Rows<Text>)>,
) -> Result<(), NoMemory>
    ensures { OnOk result (list.new.items ≡
        list.old.items ++ told.if_handled name.now handler.now (signal.now, parameters.now)) }
{
    if !handles(handler.units(), name.units()) {
        return Ok(());
    }
    let signal = copied_signal(alloc, signal)?;
    let parameters = copied_names(alloc, parameters)?;
    list.push((signal, parameters))?;
    Ok(())
}

/// Puts what a name of a type finds, if it is a signal that the handler is for.
fn put_row(
    alloc: Global,
    row: &NameRow,
    handler: &Text,
    list: &mut Vec<(SignalRef, Rows<Text>)>,
) -> Result<(), NoMemory>
    ensures { OnOk result (list.new.items ≡ list.old.items ++ s.signal_with handler.now row.now) }
{
    match &row.finds {
        NameFinds::Signal(signal, parameters) => put_named(
            alloc,
            &row.name,
            signal,
            parameters.as_slice(),
            handler,
            list,
        ),
        _ => Ok(()),
    }
}

/// The signals under a handler among the names of a built-in type.
#[tactic(auto, using(crate::proofs::FoundLemmas::row_put))]
fn put_rows(
    alloc: Global,
    rows: &[NameRow],
    handler: &Text,
) -> Result<Vec<(SignalRef, Rows<Text>)>, NoMemory>
    ensures { IfOk result (λ list. list.items ≡ flat_map (s.signal_with handler.now) rows.now) }
{
    let mut list = Vec::new(alloc);
    'rows: for row in rows {
        put_row(alloc, row, handler, &mut list)?;
    }
    Ok(list)
}

/// What the built-in type has, if there is one.
fn found_in_type(
    alloc: Global,
    types: &TypeRows,
    base: Option<TypeNo>,
    handler: &Text,
) -> Result<Found, NoMemory>
    ensures { IfOk result (λ found. s.seen found ≡ s.found_in_type base handler.now) }
{
    let Some(type_no) = base else {
        return Ok(Found {
            cells: 0,
            signals: 0,
            list: Vec::new(alloc),
        });
    };
    let list = put_rows(alloc, types.of(type_no), handler)?;
    Ok(Found {
        cells: cell_count(type_no) as usize,
        signals: signal_count(type_no),
        list,
    })
}

// ---- documents

/// The names of the parameters of the signal that a row declares.
fn parameters_at(alloc: Global, rows: &[UnitRow], number: usize) -> Result<Rows<Text>, NoMemory>
    ensures { IfOk result (λ names. names ≡ told.parameters_at rows.now number) }
{
    let Some(row) = rows.get(number) else {
        return Ok(Rows::new(alloc));
    };
    let names = parameters_of(alloc, &row.member)?;
    Ok(names)
}

fn parameters_of(alloc: Global, member: &Member) -> Result<Rows<Text>, NoMemory>
    ensures { IfOk result (λ names. names ≡ told.parameters_of member.now) }
{
    match member {
        Member::Signal {
            at: _,
            name: _,
            name_at: _,
            parameters,
        } => copied_names(alloc, parameters.as_slice()),
        _ => Ok(Rows::new(alloc)),
    }
}

/// A declared signal, where so many cells and other signals stand before those of its object.
fn signal_at(
    alloc: Global,
    rows: &[UnitRow],
    cells: usize,
    signals: usize,
    signal: DeclaredSignal,
) -> Result<(SignalRef, Rows<Text>), NoMemory>
    ensures { IfOk result (λ x. x ≡ told.signal_at rows.now cells signals signal) }
{
    match signal {
        DeclaredSignal::Change(number) => {
            let place = behind(cells, number)?;
            Ok((SignalRef::Change(place), Rows::new(alloc)))
        }
        DeclaredSignal::Own(number, row) => {
            let place = behind(signals, number)?;
            let parameters = parameters_at(alloc, rows, row)?;
            Ok((SignalRef::Own(place), parameters))
        }
    }
}

/// Puts declared signals.
#[tactic(auto, using(crate::proofs::FoundLemmas::signal_put))]
fn put_declared(
    alloc: Global,
    rows: &[UnitRow],
    cells: usize,
    signals: usize,
    declared: &[DeclaredSignal],
    list: &mut Vec<(SignalRef, Rows<Text>)>,
) -> Result<(), NoMemory>
    ensures { OnOk result (list.new.items ≡
        list.old.items ++ map (told.signal_at rows.now cells signals) declared.now) }
{
    'declared: for signal in declared {
        let one = signal_at(alloc, rows, cells, signals, *signal)?;
        list.push(one)?;
    }
    Ok(())
}

/// The rows of a document.
fn rows_in(documents: &[DocumentTable], document: usize) -> &[UnitRow]
    ensures { result.now ≡ s.rows_in documents.now document }
{
    match documents.get(document) {
        Some(table) => table.rows.as_slice(),
        None => &[],
    }
}

/// The signals that an object declares.
fn signals_in(units: &[UnitSignals], document: usize, object: usize) -> Option<&ObjectSignals>
    ensures { option_copied result ≡ s.signals_in units.now document object }
{
    match units.get(document) {
        Some(unit) => unit.objects.as_slice().get(object),
        None => None,
    }
}

/// Those under a handler.
fn under<'a>(object: Option<&'a ObjectSignals>, handler: &Text) -> &'a [DeclaredSignal]
    ensures { result.now ≡ s.under_by (option_copied object.entry) handler.now }
{
    match object {
        Some(object) => object.under.all(handler),
        None => &[],
    }
}

/// How many signals an object declares beside those of changes.
fn count_of(object: Option<&ObjectSignals>) -> usize
    ensures { result ≡ s.count_by (option_copied object.entry) }
{
    match object {
        Some(object) => object.signals,
        None => 0,
    }
}

/// How many cells an object declares.
fn cells_in(units: &[UnitNames], document: usize, object: usize) -> usize
    ensures { result ≡ s.cells_by (object_in units.now document object) }
{
    match units.get(document) {
        Some(unit) => match unit.objects.as_slice().get(object) {
            Some(entry) => entry.cells,
            None => 0,
        },
        None => 0,
    }
}

/// Adds the signals of a layer to those of the lower ones.
fn add_layer(
    alloc: Global,
    tables: &SignalTables,
    document: usize,
    object: usize,
    handler: &Text,
    found: Found,
) -> Result<Found, NoMemory>
    ensures { IfOk result (λ all. s.seen all ≡
        s.with_layer tables.now.names.now.units.items tables.now.documents.now tables.now.signals.now handler.now (document, object) (s.seen found)) }
{
    let own = signals_in(tables.signals, document, object);
    let Some(cells) = found
        .cells
        .checked_add(cells_in(&tables.names.units, document, object))
    else {
        return Err(NoMemory);
    };
    let Some(signals) = found.signals.checked_add(count_of(own)) else {
        return Err(NoMemory);
    };
    let mut list = found.list;
    put_declared(
        alloc,
        rows_in(tables.documents, document),
        found.cells,
        found.signals,
        under(own, handler),
        &mut list,
    )?;
    Ok(Found {
        cells,
        signals,
        list,
    })
}

/// The signals of the object of a number in the document of a number for which a handler's name stands, each with the names of its
/// parameters: those of the built-in type first, then those of each document, up to its own (Qt 5.15, "Signal and Handler Event
/// System"). It takes time by the layers of the object and by what stands under the name.
#[tactic(auto, using(crate::proofs::FoundLemmas::layers_begin, crate::proofs::FoundLemmas::layer_added, crate::proofs::FoundLemmas::layers_end))]
pub fn signals_handled(
    alloc: Global,
    tables: &SignalTables,
    document: usize,
    object: usize,
    handler: &Text,
) -> Result<Vec<(SignalRef, Rows<Text>)>, NoMemory>
    ensures { IfOk result (λ list. list.items ≡
        s.signals_handled tables.now.names.now.units.items tables.now.documents.now tables.now.signals.now document object handler.now) }
{
    let layers = object_layers(alloc, tables.names, document, object)?;
    let mut found = found_in_type(alloc, tables.types, layers.base, handler)?;
    let mut left = layers.objects;
    'layers: while let Some(at) = left.pop() {
        found = add_layer(alloc, tables, at.0, at.1, handler, found)?;
    }
    Ok(found.list)
}
