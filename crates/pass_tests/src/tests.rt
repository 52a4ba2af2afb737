//! That the first name that is used twice is told, and the first fault of ids, names and aliases.

use document_faults::first_of_program;
use document_tables::{ProgramTables, tables_of_program};
use name_faults::first_of_names;
use program_meanings::program_meanings;
use program_names::Fault;
use program_passes::{Passed, two_passes};
use program_paths::program_paths;
use program_reading::KnownFiles;
use qml_base::{LoadCause, Place};
use qml_outside::SureFiles;
use std::alloc::Global;
use std::test::Fail;

fn add(
    alloc: Global,
    files: &mut Vec<(String, Vec<u8>)>,
    name: &str,
    text: &[u8],
) -> Result<(), Fail> {
    files.push((
        String::from_str(alloc, name)?,
        Vec::from_slice(alloc, text)?,
    ))?;
    Ok(())
}

/// The tables of the program of `main.qml`.
fn tables(
    alloc: Global,
    known: &mut KnownFiles,
    files: &mut SureFiles,
) -> Result<ProgramTables, Fail> {
    match two_passes(alloc, known, files, b"main.qml") {
        Ok(Passed::All(program)) => match tables_of_program(alloc, known, files, &program) {
            Ok(tables) => Ok(tables),
            Err(_) => Err(Fail::from("no tables")),
        },
        _ => Err(Fail::from("refused")),
    }
}

/// The first name that a program of two files uses twice.
fn first(alloc: Global, main: &[u8], beside: &[u8]) -> Result<Option<(usize, Fault)>, Fail> {
    let mut held = Vec::new(alloc);
    add(alloc, &mut held, "main.qml", main)?;
    add(alloc, &mut held, "A.qml", beside)?;
    let mut files = SureFiles::new(held);
    let mut known = KnownFiles::new(alloc);
    let tables = tables(alloc, &mut known, &mut files)?;
    Ok(first_of_names(alloc, &tables)?)
}

/// The first fault of ids, names and aliases of a program of two files.
fn first_told(alloc: Global, main: &[u8], beside: &[u8]) -> Result<Option<(usize, Fault)>, Fail> {
    let mut held = Vec::new(alloc);
    add(alloc, &mut held, "main.qml", main)?;
    add(alloc, &mut held, "A.qml", beside)?;
    let mut files = SureFiles::new(held);
    let mut known = KnownFiles::new(alloc);
    let tables = tables(alloc, &mut known, &mut files)?;
    match program_paths(alloc, &tables.names, &tables.documents)? {
        Some(paths) => {
            let meanings = program_meanings(alloc, &tables, &paths)?;
            Ok(first_of_program(alloc, &tables, &paths, &meanings)?)
        }
        None => Err(Fail::from("undecided")),
    }
}

fn twice(line: u32, column: u32) -> Fault {
    Fault {
        at: Place { line, column },
        cause: LoadCause::DuplicateName,
    }
}

#[test]
fn a_name_of_the_type_is_told(rt: HostRuntime) -> Result<(), Fail> {
    let alloc = rt.alloc();
    let main = b"import QtQuick\nItem {\n  A { signal size() }\n  Item { id: a; id: b }\n}";
    let beside = b"import QtQuick\nItem { property int size; property var s }";
    let found = first(alloc, main, beside)?;
    assert!(rt; found == Some((0, twice(3, 14))));
    Ok(())
}

#[test]
fn a_later_document_is_told_behind_an_earlier_one(rt: HostRuntime) -> Result<(), Fail> {
    let alloc = rt.alloc();
    let main = b"import QtQuick\nItem { A { ListModel { ListElement { a: 1 } } } }";
    let beside = b"import QtQuick\nItem { ListModel { ListElement { a: 1; b: 2; a: 3 } } }";
    let found = first(alloc, main, beside)?;
    assert!(rt; found == Some((1, twice(2, 46))));
    Ok(())
}

#[test]
fn nothing_is_told_where_names_differ(rt: HostRuntime) -> Result<(), Fail> {
    let alloc = rt.alloc();
    let main = b"import QtQuick\nItem { id: a; A { id: b; property int more } }";
    let beside = b"import QtQuick\nItem { id: a; property int size }";
    let found = first(alloc, main, beside)?;
    assert!(rt; found == None);
    Ok(())
}

#[test]
fn an_id_of_the_same_component_is_told(rt: HostRuntime) -> Result<(), Fail> {
    let alloc = rt.alloc();
    let main = b"import QtQuick\nItem { id: a; Component { Item { id: a } } A { } }";
    let beside = b"import QtQuick\nItem { id: a; Item { id: a } }";
    let found = first_told(alloc, main, beside)?;
    let told = Fault {
        at: Place {
            line: 2,
            column: 26,
        },
        cause: LoadCause::DuplicateId,
    };
    assert!(rt; found == Some((1, told)));
    Ok(())
}

#[test]
fn an_alias_of_nothing_is_told(rt: HostRuntime) -> Result<(), Fail> {
    let alloc = rt.alloc();
    let main =
        b"import QtQuick\nItem { id: a; property alias b: a.width; property alias c: a.none }";
    let beside = b"import QtQuick\nItem { }";
    let found = first_told(alloc, main, beside)?;
    let told = Fault {
        at: Place {
            line: 2,
            column: 60,
        },
        cause: LoadCause::BadAlias,
    };
    assert!(rt; found == Some((0, told)));
    Ok(())
}

#[test]
fn a_value_for_nothing_is_told(rt: HostRuntime) -> Result<(), Fail> {
    let alloc = rt.alloc();
    let main = b"import QtQuick\nItem { id: a; A { size: 1; onSize: { } onGo: { } a.none: 2 } }";
    let beside = b"import QtQuick\nItem { property int size; signal size(); signal go }";
    let found = first_told(alloc, main, beside)?;
    let told = Fault {
        at: Place {
            line: 2,
            column: 50,
        },
        cause: LoadCause::UnknownProperty,
    };
    assert!(rt; found == Some((0, told)));
    Ok(())
}

#[test]
fn a_change_of_a_readonly_property_is_told(rt: HostRuntime) -> Result<(), Fail> {
    let alloc = rt.alloc();
    let main = b"import QtQuick\nItem { id: a; readonly property int s: 1; property int t
State { PropertyChanges { target: a; t: 1 } PropertyChanges { target: a; s: 2 } } }";
    let beside = b"import QtQuick\nItem { }";
    let found = first_told(alloc, main, beside)?;
    let told = Fault {
        at: Place {
            line: 3,
            column: 74,
        },
        cause: LoadCause::ReadOnly,
    };
    assert!(rt; found == Some((0, told)));
    Ok(())
}
