//! That names are put and found.

use crate::NameTable;
use qml_text::Text;
use std::test::Fail;

#[test]
fn finds_the_first_of_a_name(rt: HostRuntime) -> Result<(), Fail> {
    let alloc = rt.alloc();
    let width = Text::from_utf8(alloc, b"width")?;
    let height = Text::from_utf8(alloc, b"height")?;
    let mut names: NameTable<u32> = NameTable::new(alloc);
    names.put(alloc, &width, 3)?;
    names.put(alloc, &height, 4)?;
    names.put(alloc, &width, 5)?;
    assert_eq!(rt; names.find(&width), Some(3));
    assert_eq!(rt; names.find(&height), Some(4));
    assert_eq!(rt; names.find(&Text::new()), None);
    assert_eq!(rt; names.len(), 2);
    assert_eq!(rt; names.found_at(1), Some(4));
    assert_eq!(rt; names.name_at(2), None);
    Ok(())
}
