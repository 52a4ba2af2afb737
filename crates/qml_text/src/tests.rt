//! Each call once where it succeeds, by examples of ECMA-262 and of the Unicode Standard.

use crate::{Text, TextBuilder, TextFault};
use std::alloc::Global;
use std::mem::size_of;
use std::test::Fail;

fn text(alloc: Global, bytes: &[u8]) -> Result<Text, TextFault> {
    Text::from_utf8(alloc, bytes)
}

#[test]
fn reads_and_writes_utf8(rt: HostRuntime) -> Result<(), Fail> {
    let alloc = rt.alloc();
    let clef = text(alloc, b"a\xf0\x9d\x84\x9e")?;
    assert_eq!(rt; clef.units(), [0x61, 0xd834, 0xdd1e].as_slice());
    assert_eq!(rt;
        clef.to_utf8(alloc)?.as_slice(),
        b"a\xf0\x9d\x84\x9e".as_slice()
    );
    let lone = clef.sub(alloc, 1, 2)?;
    assert_eq!(rt; lone.to_utf8(alloc)?.as_slice(), b"\xef\xbf\xbd".as_slice());
    assert_eq!(rt; lone.copy(alloc)?.len(), 1);
    Ok(())
}

#[test]
fn cuts_and_joins(rt: HostRuntime) -> Result<(), Fail> {
    let alloc = rt.alloc();
    let by = text(alloc, b"aa")?;
    let whole = text(alloc, b"aaabaa")?;
    assert_eq!(rt; whole.find(&by, 1), Some(1));
    let parts = whole.split(alloc, &by)?;
    assert_eq!(rt; parts.len(), 3);
    assert!(rt; Text::join(alloc, &parts, &by)?.same(&whole));
    assert_eq!(rt; whole.split(alloc, &Text::new())?.len(), 6);
    Ok(())
}

#[test]
fn grows(rt: HostRuntime) -> Result<(), Fail> {
    let alloc = rt.alloc();
    let number = Text::of_number(alloc, i64::MIN)?;
    assert!(rt; number.same(&text(alloc, b"-9223372036854775808")?));
    let mut longer = TextBuilder::new(alloc);
    longer.append(&number)?;
    longer.push_unit(0x30)?;
    longer.push_char('1')?;
    longer.append(&text(alloc, b"2")?)?;
    assert_eq!(rt; longer.len(), 23);
    longer.append(&number)?;
    longer.push_unit(0x33)?;
    let longer = longer.finish(alloc)?;
    assert!(rt; longer.same(&text(alloc, b"-9223372036854775808012-92233720368547758083")?));
    Ok(())
}

#[test]
fn keeps_few_and_many_units(rt: HostRuntime) -> Result<(), Fail> {
    let alloc = rt.alloc();
    let parts: [&[u8]; 5] = [
        b"",
        b"seven u",
        b"eight un",
        b"twelve units",
        b"thirteen unit",
    ];
    for bytes in &parts {
        let whole = Text::from_latin1(alloc, bytes)?;
        assert_eq!(rt; whole.len(), bytes.len());
        assert!(rt; whole.same(&text(alloc, bytes)?));
        let mut units = Vec::new(alloc);
        units.extend_from_slice(whole.units())?;
        assert!(rt; Text::from_units(alloc, units)?.same(&whole));
    }
    Ok(())
}

#[test]
fn takes_sixteen_bytes(rt: HostRuntime) {
    assert_eq!(rt; size_of::<Text>(), 16);
}
