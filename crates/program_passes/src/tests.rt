//! That the passes come to their ends.

use crate::{Passed, two_passes};
use program_reading::KnownFiles;
use qml_outside::SureFiles;
use std::alloc::Global;
use std::test::Fail;

fn add(
    alloc: Global,
    files: &mut Vec<(String, Vec<u8>)>,
    name: &str,
    text: &[u8],
) -> Result<(), Fail> {
    files.push((
        String::from_str(alloc, name)?,
        Vec::from_slice(alloc, text)?,
    ))?;
    Ok(())
}

#[test]
fn a_document_that_uses_itself_is_told(rt: HostRuntime) -> Result<(), Fail> {
    let alloc = rt.alloc();
    let mut held = Vec::new(alloc);
    add(
        alloc,
        &mut held,
        "main.qml",
        b"import QtQuick\nItem { A { } }",
    )?;
    add(
        alloc,
        &mut held,
        "A.qml",
        b"import QtQuick\nItem { C { } B { } }",
    )?;
    add(alloc, &mut held, "B.qml", b"import QtQuick\nItem { A { } }")?;
    add(alloc, &mut held, "C.qml", b"import QtQuick\nItem { }")?;
    let mut files = SureFiles::new(held);
    let mut known = KnownFiles::new(alloc);
    match two_passes(alloc, &mut known, &mut files, b"main.qml") {
        Ok(Passed::Cycle(path, fault)) => {
            assert_eq!(rt; path.as_slice(), b"A.qml".as_slice());
            assert_eq!(rt; fault.at.column, 14);
        }
        _ => return Err(Fail::from("no cycle")),
    }
    match two_passes(alloc, &mut known, &mut files, b"C.qml") {
        Ok(Passed::All(program)) => assert_eq!(rt; program.len(), 1),
        _ => return Err(Fail::from("refused")),
    }
    Ok(())
}
