//! A few functions.

use crate::{Call, functions_with_effect};
use std::test::Fail;

/// The first calls the second, and that the third, which has an effect; the fourth calls itself.
#[test]
fn callers_come_to_an_effect(rt: HostRuntime) -> Result<(), Fail> {
    let alloc = rt.alloc();
    let acts = [false, false, true, false];
    let calls = [
        Call {
            caller: 0,
            callee: 1,
        },
        Call {
            caller: 1,
            callee: 2,
        },
        Call {
            caller: 3,
            callee: 3,
        },
    ];
    let marks = functions_with_effect(alloc, &acts, &calls)?;
    assert_eq!(rt; marks.as_slice(), [true, true, true, false].as_slice());
    Ok(())
}
