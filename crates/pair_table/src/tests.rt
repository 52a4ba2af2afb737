//! That pairs are put and found.

use crate::PairTable;
use std::test::Fail;

#[test]
fn finds_the_first_of_a_pair(rt: HostRuntime) -> Result<(), Fail> {
    let mut pairs: PairTable<u32> = PairTable::new(rt.alloc());
    pairs.put((1, 2), 3)?;
    pairs.put((2, 1), 4)?;
    pairs.put((1, 2), 5)?;
    assert_eq!(rt; pairs.find((1, 2)), Some(3));
    assert_eq!(rt; pairs.find((2, 1)), Some(4));
    assert_eq!(rt; pairs.find((2, 2)), None);
    assert_eq!(rt; pairs.at(1), Some(((2, 1), 4)));
    assert_eq!(rt; pairs.len(), 2);
    Ok(())
}
