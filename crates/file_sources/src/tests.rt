//! That files are read as documents and as scripts.

use crate::{Content, read_content};
use qml_outside::SureFiles;
use std::test::Fail;

#[test]
fn files_are_read(rt: HostRuntime) -> Result<(), Fail> {
    let alloc = rt.alloc();
    let mut held = Vec::new(alloc);
    let name = String::from_str(alloc, "A.qml")?;
    held.push((name, Vec::from_slice(alloc, b"import QtQml\nQtObject { }")?))?;
    let mut files = SureFiles::new(held);
    match read_content(alloc, &mut files, false, b"A.qml") {
        Ok(Content::Document(_)) => {}
        _ => return Err(Fail::from("no document")),
    }
    match read_content(alloc, &mut files, true, b"A.qml") {
        Ok(Content::Unread { at, cause: _ }) => assert_eq!(rt; at.line, 1),
        _ => return Err(Fail::from("no fault")),
    }
    match read_content(alloc, &mut files, false, b"B.qml") {
        Ok(Content::Missing) => {}
        _ => return Err(Fail::from("found")),
    }
    Ok(())
}
