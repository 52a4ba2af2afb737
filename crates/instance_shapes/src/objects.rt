//! The names of objects.

ghost use Rattle.std.specs.Prelude.{◌≡◌, ◌++◌, [], IfOk, OnOk};
ghost use Rattle.qml_types.specs.declared.kind.TypeNo.{TypeNo as AType};
ghost use Rattle.instance_plans.specs.Contents as c;
ghost use Rattle.instance_plans.specs.Numbers.{row_at, documents_of};
ghost use Rattle.instance_names.specs.Names.{each_put, pairs_of_type};
ghost use Rattle.instance_contents.specs.Tables.{Stands, rows_in, live_in, plan_in, placed};
ghost use Rattle.instance_shapes.specs.Told.{pairs_of_document, pairs_of_documents, pairs_of_row, pairs_written, pairs_seen};

use crate::counts::count_of_object;
use crate::rows::put_rows;
use crate::told::Viewer;
use instance_contents::{Tables, builtin_of, documents_from, has_row};
use instance_names::put_builtin;
use instance_plans::PlannedInstance;
use instancing::{object, type_at};
use name_table::NameTable;
use qml_base::{Found, NoMemory};
use qml_types::TypeNo;
use std::alloc::Global;

/// Puts the names that an object as written declares, those of aliases or the others.
fn put_declared(
    alloc: Global,
    tables: &Tables,
    names: &mut NameTable<Found>,
    viewer: Viewer,
    o: u32,
    aliases: bool,
) -> Result<(), NoMemory>
    requires { Stands tables.now }
    ensures { OnOk result (names.new ≡ each_put names.old (pairs_of_row tables.now viewer o aliases)) }
{
    match object(tables.units, viewer.unit, o) {
        Some(row) => put_rows(alloc, tables, names, viewer, row.names.as_slice(), aliases),
        None => Ok(()),
    }
}

/// Puts the names that a document of an object's type declares.
#[tactic(auto, using(crate::proofs::DocumentLemmas::as_document))]
fn put_document(
    alloc: Global,
    tables: &Tables,
    names: &mut NameTable<Found>,
    viewer: Viewer,
    u: u32,
    aliases: bool,
) -> Result<(), NoMemory>
    requires { Stands tables.now }
    ensures { OnOk result (names.new ≡ each_put names.old (pairs_of_document tables.now viewer aliases u)) }
{
    let inner = Viewer {
        place: tables.roots.find((u, viewer.number)),
        unit: u,
        number: viewer.number,
        cells: viewer.cells,
    };
    put_declared(alloc, tables, names, inner, 0, aliases)
}

/// Puts the names that documents of an object's type declare.
fn put_documents(
    alloc: Global,
    tables: &Tables,
    names: &mut NameTable<Found>,
    viewer: Viewer,
    documents: &[u32],
    aliases: bool,
) -> Result<(), NoMemory>
    requires { Stands tables.now }
    ensures { OnOk result (names.new ≡ each_put names.old (pairs_of_documents tables.now viewer aliases documents.now)) }
{
    'documents: for u in documents {
        put_document(alloc, tables, names, viewer, *u, aliases)?;
    }
    Ok(())
}

/// Puts all names of an object where it stands as written.
#[tactic(auto, using(instance_names::proofs::TypeLemmas::each_append))]
fn put_written(
    alloc: Global,
    tables: &Tables,
    names: &mut NameTable<Found>,
    viewer: Viewer,
    o: u32,
) -> Result<(), NoMemory>
    requires { Stands tables.now }
    ensures { OnOk result (names.new ≡ each_put names.old (pairs_written tables.now viewer o)) }
{
    let of_type = type_at(tables.units, viewer.unit, o);
    let mut documents = documents_from(alloc, tables.units, of_type)?;
    documents.reverse();
    let builtin = builtin_of(tables.units, of_type);
    put_builtin(alloc, names, viewer.number, viewer.cells, builtin)?;
    put_documents(alloc, tables, names, viewer, documents.as_slice(), false)?;
    put_declared(alloc, tables, names, viewer, o, false)?;
    put_documents(alloc, tables, names, viewer, documents.as_slice(), true)?;
    put_declared(alloc, tables, names, viewer, o, true)
}

/// Puts all names of an object of the instance at a place, with so many delegate names.
fn put_names(
    alloc: Global,
    tables: &Tables,
    names: &mut NameTable<Found>,
    place: u32,
    instance: &PlannedInstance,
    at: (u32, u32),
    delegates: usize,
) -> Result<(), NoMemory>
    requires { Stands tables.now }
    ensures { OnOk result (names.new ≡ each_put names.old (pairs_seen tables.now place instance.now at delegates)) }
{
    if !has_row(tables, instance, at.0) {
        return put_builtin(alloc, names, at.1, 0, TypeNo::Component);
    }
    let viewer = Viewer {
        place: Some(place),
        unit: instance.unit,
        number: at.1,
        cells: count_of_object(alloc, tables, instance.unit, at.0, delegates)?,
    };
    put_written(alloc, tables, names, viewer, at.0)
}

/// All names of an object of the instance at a place, with so many delegate names.
pub fn names_of(
    alloc: Global,
    tables: &Tables,
    place: u32,
    instance: &PlannedInstance,
    at: (u32, u32),
    delegates: usize,
) -> Result<NameTable<Found>, NoMemory>
    requires { Stands tables.now }
    ensures { IfOk result (λ names. names ≡ each_put [] (pairs_seen tables.now place instance.now at delegates)) }
{
    let mut names = NameTable::new(alloc);
    put_names(alloc, tables, &mut names, place, instance, at, delegates)?;
    Ok(names)
}
