//! That programs are read.

use crate::{KnownFiles, read_program};
use qml_outside::SureFiles;
use read_order::Ended;
use std::alloc::Global;
use std::test::Fail;

fn add(
    alloc: Global,
    files: &mut Vec<(String, Vec<u8>)>,
    name: &str,
    text: &[u8],
) -> Result<(), Fail> {
    files.push((
        String::from_str(alloc, name)?,
        Vec::from_slice(alloc, text)?,
    ))?;
    Ok(())
}

#[test]
fn a_program_is_read(rt: HostRuntime) -> Result<(), Fail> {
    let alloc = rt.alloc();
    let mut held = Vec::new(alloc);
    add(
        alloc,
        &mut held,
        "main.qml",
        b"import QtQuick\nimport \"lib\"\nimport \"f.js\" as F\nItem { A { } B { } A { } }",
    )?;
    add(
        alloc,
        &mut held,
        "lib/A.qml",
        b"import QtQuick\nItem { C { } }",
    )?;
    add(alloc, &mut held, "B.qml", b"import QtQuick\nItem { }")?;
    add(alloc, &mut held, "lib/C.qml", b"import QtQuick\nItem { }")?;
    add(alloc, &mut held, "f.js", b"function f() { return 1 }")?;
    let mut files = SureFiles::new(held);
    let mut known = KnownFiles::new(alloc);
    match read_program(alloc, &mut known, &mut files, b"main.qml") {
        Ok(Ended::All(order)) => assert_eq!(rt; order.len(), 5),
        _ => return Err(Fail::from("refused")),
    }
    match read_program(alloc, &mut known, &mut files, b"lib/B.qml") {
        Ok(Ended::Refused(_, fault)) => assert_eq!(rt; fault.at.line, 1),
        _ => return Err(Fail::from("read")),
    }
    Ok(())
}
