//! That names and values are told.

use crate::{Best, NameRow, ValueRow, tell_repeated, tell_values};
use program_names::Fault;
use qml_base::{LoadCause, Place};
use qml_text::Text;
use qml_types::Access;
use std::alloc::Global;
use std::test::Fail;

fn at(line: u32, column: u32) -> Place {
    Place { line, column }
}

fn id(alloc: Global, name: &[u8], owner: usize, place: Place) -> Result<NameRow, Fail> {
    let name = Text::from_utf8(alloc, name)?;
    Ok(NameRow {
        name,
        owner,
        at: place,
        taken: false,
    })
}

#[test]
fn tells_the_second_of_two_names(rt: HostRuntime) -> Result<(), Fail> {
    let alloc = rt.alloc();
    let mut rows = Vec::new(alloc);
    rows.push(id(alloc, b"a", 0, at(2, 5))?)?;
    rows.push(id(alloc, b"a", 4, at(3, 5))?)?;
    rows.push(id(alloc, b"a", 0, at(4, 9))?)?;
    let mut best = Best::new();
    tell_repeated(alloc, &rows, LoadCause::DuplicateId, &mut best)?;
    let told = Fault {
        at: at(4, 9),
        cause: LoadCause::DuplicateId,
    };
    assert_eq!(rt; best.fault, Some(told));
    Ok(())
}

#[test]
fn tells_the_value_that_stands_first(rt: HostRuntime) -> Result<(), Fail> {
    let literal = ValueRow {
        at: at(5, 1),
        value_at: at(5, 7),
        access: Access::Literal,
        own: true,
        is_literal: false,
    };
    let parent = ValueRow {
        at: at(5, 3),
        value_at: at(5, 11),
        access: Access::ReadOnly,
        own: true,
        is_literal: true,
    };
    let mut best = Best::new();
    tell_values(&[literal, parent], &mut best);
    let told = Fault {
        at: at(5, 3),
        cause: LoadCause::ReadOnly,
    };
    assert_eq!(rt; best.fault, Some(told));
    Ok(())
}
