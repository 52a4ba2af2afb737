//! Names of objects in two documents, of which one is the type of the other's root.

use crate::{BuiltInNames, Declared, Meaning, Names, UnitNames, UnitRow, unit_names};
use document_members::Member;
use document_rows::MemberRow;
use qml_base::{Place, UnitNo};
use qml_syntax::Adjective;
use qml_text::Text;
use qml_types::{PropKind, TypeNo, TypeRef, cell_count};
use std::alloc::Global;
use std::test::Fail;

/// The row of a property of the root.
fn property(
    alloc: Global,
    name: &[u8],
    adjective: Adjective,
    group: Option<usize>,
) -> Result<UnitRow, Fail> {
    let at = Place { line: 1, column: 1 };
    let name = Text::from_utf8(alloc, name)?;
    Ok(UnitRow {
        row: MemberRow {
            node: 0,
            object: 0,
            group,
            first: 1,
        },
        member: Member::Property {
            at,
            adjective,
            kind: 0,
            name,
            name_at: at,
            value: None,
        },
        kind: PropKind::Int,
    })
}

/// A document whose root is of this type, with these properties.
fn unit(alloc: Global, base: TypeRef, rows: &[UnitRow]) -> Result<UnitNames, Fail> {
    Ok(unit_names(alloc, &[base], rows)?)
}

/// The place of the cell of a name, if it is one that a document declares.
fn place(
    alloc: Global,
    names: &Names,
    document: usize,
    name: &[u8],
) -> Result<Option<usize>, Fail> {
    let name = Text::from_utf8(alloc, name)?;
    match names.meaning(document, 0, &name)? {
        Some(
            Meaning::Cell {
                place,
                kind: _,
                access: _,
            },
        ) => Ok(Some(place)),
        _ => Ok(None),
    }
}

#[test]
fn places_count_up_from_the_lowest_layer(rt: HostRuntime) -> Result<(), Fail> {
    let alloc = rt.alloc();
    let mut above = Vec::new(alloc);
    above.push(property(alloc, b"b", Adjective::Default, None)?)?;
    let mut below = Vec::new(alloc);
    below.push(property(alloc, b"a", Adjective::ReadOnly, None)?)?;
    below.push(property(alloc, b"c", Adjective::ReadOnly, None)?)?;
    let mut units = Vec::new(alloc);
    units.push(unit(alloc, TypeRef::Document(UnitNo(1)), &above)?)?;
    units.push(unit(alloc, TypeRef::Builtin(TypeNo::Item), &below)?)?;
    let names = Names {
        built_in: BuiltInNames::new(alloc)?,
        units,
    };
    let item = cell_count(TypeNo::Item) as usize;
    let first = place(alloc, &names, 0, b"a")?;
    assert!(rt; first == Some(item));
    let last = place(alloc, &names, 0, b"b")?;
    assert!(rt; last == item.checked_add(2));
    let unknown = place(alloc, &names, 1, b"b")?;
    assert!(rt; unknown == None);
    let x = Text::from_utf8(alloc, b"x")?;
    let built_in = names.meaning(0, 0, &x)?;
    assert!(rt; matches!(built_in, Some(Meaning::BuiltIn(_))));
    let changes = Text::from_utf8(alloc, b"cChanged")?;
    let signal = names.meaning(0, 0, &changes)?;
    assert!(rt; matches!(signal, Some(Meaning::Changed)));
    Ok(())
}
