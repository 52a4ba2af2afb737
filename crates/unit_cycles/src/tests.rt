//! That cycles are found.

use crate::{DocumentUse, first_cycle};
use qml_base::{NoMemory, Place};
use std::alloc::Global;
use std::test::Fail;

fn row(alloc: Global, documents: &[usize]) -> Result<Vec<DocumentUse>, NoMemory> {
    let mut uses = Vec::new(alloc);
    'documents: for document in documents {
        uses.push(DocumentUse {
            at: Place { line: 1, column: 1 },
            document: *document,
        })?;
    }
    Ok(uses)
}

#[test]
fn the_first_document_on_a_cycle_is_told(rt: HostRuntime) -> Result<(), Fail> {
    let alloc = rt.alloc();
    let mut uses = Vec::new(alloc);
    uses.push(row(alloc, &[1])?)?;
    uses.push(row(alloc, &[2, 2])?)?;
    uses.push(row(alloc, &[])?)?;
    assert!(rt; first_cycle(alloc, &uses, &[0, 1, 2])?.is_none());
    uses.push(row(alloc, &[0, 3])?)?;
    match first_cycle(alloc, &uses, &[3, 0, 1, 2])? {
        Some((document, _)) => assert_eq!(rt; document, 3),
        None => return Err(Fail::from("no cycle")),
    }
    Ok(())
}
