//! The names of built-in types.

ghost use Rattle.std.specs.Prelude.{◌≡◌, [], ◌++◌, ℕ, map, IfOk, OnOk};
ghost use Rattle.std.specs.List.{flat_map};
ghost use Rattle.name_table.specs.Named.{under};
ghost use Rattle.program_names.specs.Names.{changed};
ghost use Rattle.qml_types.specs.Table.{cell_of};
ghost use Rattle.qml_types.specs.Members.{signal_of};
ghost use Rattle.program_tables.specs.declared.built_in.TheConstants.{ALL_TYPES};
ghost use Rattle.program_tables.specs.BuiltIn as s;
ghost use Rattle.program_tables.specs.Putting.{put_all};

use name_table::NameTable;
use qml_base::NoMemory;
use qml_text::Text;
use qml_types::{
    Access, Cell, Method, PropKind, Signal, TypeNo, own_cells, own_methods, own_signals,
};
use std::alloc::Global;
use std::marker::Model;

/// What a name of a built-in type means.
#[derive(Clone, Copy, Debug)]
pub enum BuiltInName {
    /// A cell, by its place among all of the type.
    Cell {
        place: u32,
        kind: PropKind,
        access: Access,
    },
    /// The signal of a cell's changes.
    Changed,
    /// Another signal, by its place among those that this type has beside its bases.
    Signal {
        type_no: TypeNo,
        index: usize,
    },
    Method,
    /// The children of an Item.
    Children,
}

/// All built-in types.
const ALL_TYPES: [TypeNo; 13] = [
    TypeNo::QtObject,
    TypeNo::Component,
    TypeNo::Item,
    TypeNo::Timer,
    TypeNo::Connections,
    TypeNo::Binding,
    TypeNo::State,
    TypeNo::PropertyChanges,
    TypeNo::ListModel,
    TypeNo::ListElement,
    TypeNo::Repeater,
    TypeNo::Loader,
    TypeNo::Host,
];

/// The names of all built-in types, each with those that it stands on. A name is found in constant time on average.
#[derive(Drop)]
pub struct BuiltInNames {
    tables: Vec<NameTable<BuiltInName>>,
}

impl Model for BuiltInNames {
    ghost use Rattle.std.specs.Prelude.{◌≡◌, ℕ, List};
    ghost use Rattle.program_tables.specs.declared.built_in.BuiltInName as b;
    ghost use Rattle.program_tables.specs.BuiltIn as s;

    ghost Value = { List (List (List ℕ × b.BuiltInName)) };

    ghost view = { λ names. names.tables.items };

    ghost invariant = { λ names. names.tables.items ≡ s.all_tables };
}

impl BuiltInNames {
    /// The names of all built-in types.
    pub fn new(alloc: Global) -> Result<BuiltInNames, NoMemory> {
        let tables = tables_of(alloc, &ALL_TYPES)?;
        Ok(BuiltInNames { tables })
    }

    /// What a name of a type means, if it has it.
    pub fn find(&self, type_no: TypeNo, name: &Text) -> Option<BuiltInName>
        ensures { result ≡ s.built_in type_no name.now }
    {
        match self.tables.as_slice().get(index_of(type_no)) {
            Some(table) => table.find(name),
            None => None,
        }
    }
}

/// The place of a type among all.
pub(crate) fn index_of(type_no: TypeNo) -> usize
    ensures { result ≡ s.index_of type_no }
{
    match type_no {
        TypeNo::QtObject => 0,
        TypeNo::Component => 1,
        TypeNo::Item => 2,
        TypeNo::Timer => 3,
        TypeNo::Connections => 4,
        TypeNo::Binding => 5,
        TypeNo::State => 6,
        TypeNo::PropertyChanges => 7,
        TypeNo::ListModel => 8,
        TypeNo::ListElement => 9,
        TypeNo::Repeater => 10,
        TypeNo::Loader => 11,
        TypeNo::Host => 12,
    }
}

/// The names of these types.
fn tables_of(alloc: Global, types: &[TypeNo]) -> Result<Vec<NameTable<BuiltInName>>, NoMemory>
    ensures { IfOk result (λ tables. tables.items ≡ map s.table_of types.now) }
{
    let mut tables = Vec::new(alloc);
    'types: for type_no in types {
        tables.push(type_names(alloc, *type_no)?)?;
    }
    Ok(tables)
}

/// The names of a type, those of its bases first.
#[tactic(auto, using(crate::proofs::PutLemmas::table_told))]
fn type_names(alloc: Global, type_no: TypeNo) -> Result<NameTable<BuiltInName>, NoMemory>
    ensures { IfOk result (λ names. names ≡ s.table_of type_no) }
{
    let mut names = NameTable::new(alloc);
    'bases: for base in type_no.lineage() {
        put_own(alloc, *base, &mut names)?;
    }
    Ok(names)
}

/// Puts the names that a type has beside its bases.
#[tactic(auto, using(crate::proofs::PutLemmas::own_put))]
fn put_own(alloc: Global, base: TypeNo, names: &mut NameTable<BuiltInName>) -> Result<(), NoMemory>
    ensures { OnOk result (names.new ≡ put_all names.old (s.own_entries base)) }
{
    put_cells(alloc, own_cells(base), names)?;
    put_methods(alloc, own_methods(base), names)?;
    put_signals(alloc, base, own_signals(base), names)?;
    put_children(alloc, base, names)?;
    Ok(())
}

fn put_cells(
    alloc: Global,
    cells: &[Cell],
    names: &mut NameTable<BuiltInName>,
) -> Result<(), NoMemory>
    ensures { OnOk result (names.new ≡ put_all names.old (flat_map s.cell_entries (map cell_of cells.now))) }
{
    'cells: for cell in cells {
        put_cell(alloc, cell, names)?;
    }
    Ok(())
}

/// A cell has its name and the signal of its changes, where it isn't hidden.
fn put_cell(alloc: Global, cell: &Cell, names: &mut NameTable<BuiltInName>) -> Result<(), NoMemory>
    ensures { OnOk result (names.new ≡ put_all names.old (s.cell_entries (cell_of cell.now))) }
{
    if !cell.access.is_shown() {
        return Ok(());
    }
    let name = text_of(alloc, cell.name)?;
    let changes = changed_text(alloc, cell.name)?;
    let meaning = BuiltInName::Cell {
        place: cell.place,
        kind: cell.kind,
        access: cell.access,
    };
    names.put(alloc, &name, meaning)?;
    names.put(alloc, &changes, BuiltInName::Changed)?;
    Ok(())
}

fn put_methods(
    alloc: Global,
    methods: &[Method],
    names: &mut NameTable<BuiltInName>,
) -> Result<(), NoMemory>
    ensures { OnOk result (names.new ≡ put_all names.old (map s.method_entry methods.now)) }
{
    'methods: for method in methods {
        let name = text_of(alloc, method.name())?;
        names.put(alloc, &name, BuiltInName::Method)?;
    }
    Ok(())
}

fn put_signals(
    alloc: Global,
    type_no: TypeNo,
    signals: &[Signal],
    names: &mut NameTable<BuiltInName>,
) -> Result<(), NoMemory>
    ensures { OnOk result (names.new ≡ put_all names.old (s.signal_entries type_no 0 (map signal_of signals.now))) }
{
    'signals: for (index, signal) in signals.iter().enumerate() {
        let name = text_of(alloc, signal.name)?;
        names.put(alloc, &name, BuiltInName::Signal { type_no, index })?;
    }
    Ok(())
}

fn put_children(
    alloc: Global,
    base: TypeNo,
    names: &mut NameTable<BuiltInName>,
) -> Result<(), NoMemory>
    ensures { OnOk result (names.new ≡ put_all names.old (s.children_entries base)) }
{
    if base == TypeNo::Item {
        let name = text_of(alloc, "data")?;
        names.put(alloc, &name, BuiltInName::Children)?;
        return Ok(());
    }
    Ok(())
}

fn text_of(alloc: Global, name: &str) -> Result<Text, NoMemory>
    ensures { IfOk result (λ text. text ≡ name.now) }
{
    match Text::from_latin1(alloc, name.as_bytes()) {
        Ok(text) => Ok(text),
        Err(_) => Err(NoMemory),
    }
}

/// The name of the signal of a cell's changes.
fn changed_text(alloc: Global, name: &str) -> Result<Text, NoMemory>
    ensures { IfOk result (λ text. text ≡ changed name.now) }
{
    let mut bytes = Vec::from_slice(alloc, name.as_bytes())?;
    bytes.extend_from_slice(b"Changed")?;
    match Text::from_latin1(alloc, &bytes) {
        Ok(text) => Ok(text),
        Err(_) => Err(NoMemory),
    }
}
