//! The roots and the ids of a small document.

use crate::{component_ids, component_roots, object_of_id};
use document_members::Member;
use document_rows::MemberRow;
use program_tables::UnitRow;
use qml_base::Place;
use qml_text::Text;
use qml_types::PropKind;
use std::alloc::Global;
use std::test::Fail;

#[test]
fn an_object_stands_in_the_component_around_it(rt: HostRuntime) -> Result<(), Fail> {
    let alloc = rt.alloc();
    let owners = [None, Some(0), Some(1), Some(0), Some(3)];
    let begins = [false, true, false, false, false];
    let roots = component_roots(alloc, &owners, &begins)?;
    assert_eq!(rt; roots.as_slice(), [0, 1, 1, 0, 0].as_slice());
    Ok(())
}

/// The row of the id `a` of an object.
fn id(alloc: Global, object: usize) -> Result<UnitRow, Fail> {
    let at = Place { line: 1, column: 1 };
    Ok(UnitRow {
        row: MemberRow {
            node: 0,
            object,
            group: None,
            first: 1,
        },
        member: Member::Id {
            word: at,
            name: Text::from_utf8(alloc, b"a")?,
            at,
        },
        kind: PropKind::Int,
    })
}

#[test]
fn of_two_objects_with_an_id_the_first_is_found(rt: HostRuntime) -> Result<(), Fail> {
    let alloc = rt.alloc();
    let mut rows = Vec::new(alloc);
    rows.push(id(alloc, 2)?)?;
    rows.push(id(alloc, 3)?)?;
    rows.push(id(alloc, 4)?)?;
    let ids = component_ids(alloc, &rows, &[0, 1, 1, 0, 0])?;
    let name = Text::from_utf8(alloc, b"a")?;
    assert!(rt; object_of_id(&ids, 1, &name) == Some(2));
    assert!(rt; object_of_id(&ids, 0, &name) == Some(3));
    assert!(rt; object_of_id(&ids, 2, &name) == None);
    Ok(())
}
