//! Texts that are read and texts that are refused, with what comes of them told beforehand.
use crate::{LARGEST, Program, read_document, read_script};
use qml_model::{Content, Deed};
use std::alloc::{AllocError, Global};
use std::test::Fail;

/// A document of one property with this value.
fn valued(alloc: Global, value: &[u8]) -> Result<Vec<u8>, AllocError> {
    let mut bytes = Vec::from_slice(alloc, b"import QtQml 2.15\nQtObject { property int a: ")?;
    bytes.extend_from_slice(value)?;
    bytes.extend_from_slice(b" }")?;
    Ok(bytes)
}

/// A document of so many bytes.
fn sized(alloc: Global, size: usize) -> Result<Vec<u8>, AllocError> {
    let mut bytes = Vec::from_slice(alloc, b"import QtQml 2.15\nQtObject {}")?;
    for _ in bytes.len()..size {
        bytes.push(b' ')?;
    }
    Ok(bytes)
}

/// So many ones with `+` between them.
fn ones(alloc: Global, count: usize) -> Result<Vec<u8>, AllocError> {
    let mut value = Vec::from_slice(alloc, b"1")?;
    for _ in 1..count {
        value.extend_from_slice(b"+1")?;
    }
    Ok(value)
}

fn reads(alloc: Global, bytes: &[u8]) -> Result<bool, AllocError> {
    Ok(read_document(alloc, bytes)?.is_some())
}

fn program(rt: &HostRuntime, bytes: &[u8]) -> Result<Program, Fail> {
    Ok(read_document(rt.alloc(), bytes)?.ok_or("no document")?)
}

#[test]
fn a_document_gives_its_members_in_order(rt: HostRuntime) -> Result<(), Fail> {
    let text =
        b"import QtQml 2.15\r\n\r\nQtObject\n{\n  property int a: -1\n\n  property int b : a+1;property int c: a * b - 2 }\n";
    let members = program(&rt, text)?.into_members(rt.alloc())?;
    assert_eq!(rt; members.len(), 3);
    assert_eq!(rt; members[2].name.as_slice(), b"c".as_slice());
    assert!(rt; matches!(members[0].content, Content::Plain(-1)));
    match &members[2].content {
        Content::Sum(products) => assert_eq!(rt; products.len(), 2),
        Content::Plain(_) => assert!(rt; false, "a sum is expected"),
    }
    Ok(())
}

#[test]
fn texts_outside_the_form_are_refused(rt: HostRuntime) -> Result<(), Fail> {
    let refused = [
        b"import QtQml 2.15\nQtObject {\0}".as_slice(),
        b"import QtQml 2.15\rQtObject {}".as_slice(),
        b"import QtQml 2.15\nQtObject {\r}".as_slice(),
        b"import QtQml 2.15\nQtObject { \x80 }".as_slice(),
        b"import QtQml 2.15 QtObject {}".as_slice(),
        b"import QtQml 2.15\nQtObject {\t}".as_slice(),
        b"import QtQml 2.15\nQtObject { ; }".as_slice(),
        b"import QtQml 2.15\nQtObject { property int a: 1 property int b: 2 }".as_slice(),
        b"import QtQml 2.15\nQtObject { property int a: b; property int b: 2 }".as_slice(),
        b"import QtQml 2.15\nQtObject { property int a: 1; property int a: 2 }".as_slice(),
        b"import QtQml 2.15\nQtObject { property int aChanged: 1 }".as_slice(),
        b"import QtQml 2.15\nQtObject { property int list: 1 }".as_slice(),
        b"import QtQml 2.15\nQtObject { property int a: 01 }".as_slice(),
        b"import QtQml 2.15\nQtObject { property int a: 9007199254740993 }".as_slice(),
        b"import QtQml 2.15\nQtObject {} }".as_slice(),
    ];
    for text in refused {
        assert!(rt; !reads(rt.alloc(), text)?);
    }
    Ok(())
}

#[test]
fn the_longest_document_is_read(rt: HostRuntime) -> Result<(), Fail> {
    assert!(rt; reads(rt.alloc(), sized(rt.alloc(), LARGEST)?.as_slice())?);
    assert!(rt; !reads(rt.alloc(), sized(rt.alloc(), LARGEST + 1)?.as_slice())?);
    Ok(())
}

#[test]
fn a_value_has_at_most_a_thousand_operands(rt: HostRuntime) -> Result<(), Fail> {
    let most = valued(rt.alloc(), ones(rt.alloc(), 1000)?.as_slice())?;
    let more = valued(rt.alloc(), ones(rt.alloc(), 1001)?.as_slice())?;
    assert!(rt; reads(rt.alloc(), most.as_slice())?);
    assert!(rt; !reads(rt.alloc(), more.as_slice())?);
    Ok(())
}

#[test]
fn a_script_gives_its_lines(rt: HostRuntime) -> Result<(), Fail> {
    let program = program(&rt, b"import QtQml 2.15\nQtObject { property int a: 1 }")?;
    let text = b"# none\r\n \t\ndo a = -5\r\nprint a";
    let lines = read_script(rt.alloc(), &program, text)?
        .ok()
        .ok_or("no script")?;
    assert_eq!(rt; lines.len(), 2);
    assert_eq!(rt; lines[0].deed, Deed::Do { cell: 0, value: -5 });
    assert_eq!(rt; lines[1].deed, Deed::Print { cell: 0 });
    assert_eq!(rt; lines[0].shown.as_slice(), b"do a = -5".as_slice());
    let bad = read_script(rt.alloc(), &program, b"print a\n\nprint b\nprint c")?;
    assert_eq!(rt; bad.err(), Some(3));
    let alone = read_script(rt.alloc(), &program, b"print a\r")?;
    assert_eq!(rt; alone.err(), Some(1));
    Ok(())
}
