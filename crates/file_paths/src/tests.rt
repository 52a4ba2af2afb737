//! Paths of which directories and imports are found.

use crate::{directory_of, joined_to, path_of_type};
use qml_text::Text;
use std::test::Fail;

#[test]
fn paths_are_joined(rt: HostRuntime) -> Result<(), Fail> {
    let alloc = rt.alloc();
    assert_eq!(rt; directory_of(b"a/b/C.qml"), b"a/b".as_slice());
    assert_eq!(rt; directory_of(b"/C.qml"), b"/".as_slice());
    assert_eq!(rt;
        joined_to(alloc, b"a/b", b"../c/./D.qml")?.as_slice(),
        b"a/c/D.qml".as_slice()
    );
    assert_eq!(rt;
        joined_to(alloc, b"", b"../../D.qml")?.as_slice(),
        b"../../D.qml".as_slice()
    );
    assert_eq!(rt;
        joined_to(alloc, b"a", b"/../b")?.as_slice(),
        b"/b".as_slice()
    );
    assert_eq!(rt;
        joined_to(alloc, b"/", b"b//C")?.as_slice(),
        b"/b//C".as_slice()
    );
    let name = Text::from_utf8(alloc, "Ü".as_bytes())?;
    assert_eq!(rt;
        path_of_type(alloc, b"", &name)?.as_slice(),
        "Ü.qml".as_bytes()
    );
    Ok(())
}
