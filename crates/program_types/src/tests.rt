//! That names find types.

use crate::{ProgramFiles, type_named};
use document_imports::{ImportRow, ImportSource};
use indexmap::IndexSet;
use qml_base::{Place, UnitNo};
use qml_text::Text;
use qml_types::TypeRef;
use read_order::File;
use std::test::Fail;

#[test]
fn a_document_beside_is_found(rt: HostRuntime) -> Result<(), Fail> {
    let alloc = rt.alloc();
    let mut files: IndexSet<File> = IndexSet::new(alloc);
    let paths: [&[u8]; 2] = [b"lib/main.qml", b"lib/A.qml"];
    'paths: for path in paths {
        let path = Vec::from_slice(alloc, path)?;
        files.insert(File {
            is_script: false,
            path,
        })?;
    }
    let program = ProgramFiles::new(files);
    let mut rows = Vec::new(alloc);
    rows.push(ImportRow {
        at: Place { line: 1, column: 8 },
        qualifier: None,
        source: ImportSource::Module(Text::from_str(alloc, "QtQuick")?),
    })?;
    let name = Text::from_str(alloc, "A")?;
    let found = type_named(alloc, &program, b"lib", &rows, &None, &name)?;
    assert!(rt; found == Some(TypeRef::Document(UnitNo(1))));
    Ok(())
}
