//! That names are put where there is memory.

use crate::put_builtin;
use name_table::NameTable;
use qml_base::{Found, ObjNo};
use qml_text::Text;
use qml_types::TypeNo;
use std::test::Fail;

#[test]
fn a_change_has_twice_the_number(rt: HostRuntime) -> Result<(), Fail> {
    let alloc = rt.alloc();
    let mut names: NameTable<Found> = NameTable::new(alloc);
    put_builtin(alloc, &mut names, 4, 13, TypeNo::Item)?;
    let name = Text::from_utf8(alloc, b"widthChanged")?;
    assert_eq!(rt; names.find(&name), Some(Found::Signal(ObjNo(4), 8)));
    Ok(())
}
