//! Each call once where it succeeds, the text of each kind, and the limits at their numbers.

use crate::{
    Field, FieldsBuilder, GoneObjects, Kind, List, Num, PastLimit, PutFault, Row, TextOfFault,
    TooDeep, Value,
};
use qml_base::ObjNo;
use qml_text::{Text, TextFault};
use std::alloc::Global;
use std::process::Abort;
use std::test::Fail;

fn text(alloc: Global, bytes: &[u8]) -> Result<Text, TextFault> {
    Text::from_utf8(alloc, bytes)
}

/// `[undefined, null, true, 1]`.
fn mixed(alloc: Global) -> Result<List, Fail> {
    let mut values = Vec::new(alloc);
    values.push(Value::Undefined)?;
    values.push(Value::Null)?;
    values.push(Value::Bool(true))?;
    values.push(Value::Num(Num::small(1)))?;
    Ok(Row::from_vec(values)?)
}

/// The value's text is `wanted`.
fn says(rt: &impl Abort, alloc: Global, value: &Value, wanted: &[u8]) -> Result<(), Fail> {
    let said = value.text_of(alloc)?;
    assert_eq!(rt; said.to_utf8(alloc)?.as_slice(), wanted);
    Ok(())
}

/// A text of that many letters.
fn long(alloc: Global, units: usize) -> Result<Value, Fail> {
    let mut letters = Vec::with_capacity(alloc, units)?;
    for _ in 0..units {
        letters.push(0x61)?;
    }
    Ok(Value::Text(Text::from_units(alloc, letters)?))
}

#[test]
fn keeps_numbers_up_to_the_limit(rt: HostRuntime) -> Result<(), Fail> {
    assert_eq!(rt;
        Num::new(9_007_199_254_740_992)?.get(),
        9_007_199_254_740_992
    );
    assert_eq!(rt;
        Num::new(-9_007_199_254_740_992)?.get(),
        -9_007_199_254_740_992
    );
    assert_eq!(rt; Num::new(9_007_199_254_740_993), Err(PastLimit));
    assert_eq!(rt; Num::new(-9_007_199_254_740_993), Err(PastLimit));
    Ok(())
}

#[test]
fn gives_each_kind_its_text(rt: HostRuntime) -> Result<(), Fail> {
    let alloc = rt.alloc();
    says(&rt, alloc, &Value::Undefined, b"undefined")?;
    says(&rt, alloc, &Value::Null, b"null")?;
    says(&rt, alloc, &Value::Bool(true), b"true")?;
    says(&rt, alloc, &Value::Bool(false), b"false")?;
    says(&rt, alloc, &Value::Num(Num::new(-12)?), b"-12")?;
    says(&rt, alloc, &Value::Text(text(alloc, b"a b")?), b"a b")?;
    says(&rt, alloc, &Value::Object(ObjNo(7)), b"#7")?;
    says(&rt, alloc, &Value::Component(ObjNo(8)), b"component #8")?;
    says(
        &rt,
        alloc,
        &Value::Fields(Row::<Field>::new(alloc)),
        b"[object Object]",
    )?;
    Ok(())
}

#[test]
fn joins_the_texts_of_a_list(rt: HostRuntime) -> Result<(), Fail> {
    let alloc = rt.alloc();
    let mut values = Vec::new(alloc);
    values.push(Value::List(mixed(alloc)?))?;
    values.push(Value::Null)?;
    let list = Value::List(Row::from_vec(values)?);
    says(&rt, alloc, &list, b",,true,1,")?;
    assert_eq!(rt; list.weight(), 7);
    assert_eq!(rt; list.nesting(), 2);
    assert_eq!(rt; list.kind(), Kind::List);
    assert!(rt; list.counts_as_true());
    assert!(rt; list.copy(alloc)?.same(&list));
    assert!(rt; !list.is_too_heavy());
    Ok(())
}

#[test]
fn keeps_the_later_value_at_the_first_place(rt: HostRuntime) -> Result<(), Fail> {
    let alloc = rt.alloc();
    let mut fields = Row::<Field>::new(alloc);
    fields.put(text(alloc, b"a")?, Value::Null)?;
    fields.put(text(alloc, b"b")?, Value::Undefined)?;
    fields.put(text(alloc, b"a")?, Value::Bool(true))?;
    let parts = fields.parts();
    assert_eq!(rt; parts.len(), 2);
    assert!(rt; parts[0].name.same(&text(alloc, b"a")?));
    assert!(rt; parts[0].value.same(&Value::Bool(true)));
    assert!(rt; fields.get(&text(alloc, b"b")?).is_some());
    assert!(rt; fields.get(&text(alloc, b"c")?).is_none());
    Ok(())
}

#[test]
fn tells_heavy_texts(rt: HostRuntime) -> Result<(), Fail> {
    let alloc = rt.alloc();
    let heaviest = long(alloc, 1_048_575)?;
    assert_eq!(rt; heaviest.weight(), 1_048_576);
    assert!(rt; !heaviest.is_too_heavy());
    assert_eq!(rt; heaviest.text_of(alloc)?.len(), 1_048_575);
    let heavier = long(alloc, 1_048_576)?;
    assert!(rt; heavier.is_too_heavy());
    assert!(rt; matches!(heavier.text_of(alloc), Err(TextOfFault::Heavy)));
    Ok(())
}

#[test]
fn refuses_to_nest_past_the_bound(rt: HostRuntime) -> Result<(), Fail> {
    let alloc = rt.alloc();
    let mut value = Value::Null;
    for _ in 0..100 {
        let mut values = Vec::new(alloc);
        values.push(value)?;
        value = Value::List(Row::from_vec(values)?);
    }
    assert_eq!(rt; value.nesting(), 100);
    assert!(rt; !value.is_too_heavy());
    let mut fields = Row::<Field>::new(alloc);
    assert_eq!(rt;
        fields.put(text(alloc, b"a")?, value.copy(alloc)?),
        Err(PutFault::TooDeep)
    );
    let mut values = Vec::new(alloc);
    values.push(value)?;
    assert!(rt; matches!(List::from_vec(values), Err(TooDeep)));
    Ok(())
}

/// `[#3, {a: component #9}, #4]`.
fn references(alloc: Global) -> Result<Value, Fail> {
    let mut builder = FieldsBuilder::new(alloc);
    builder.put(alloc, &text(alloc, b"a")?, Value::Null)?;
    builder.put(alloc, &text(alloc, b"a")?, Value::Component(ObjNo(9)))?;
    let mut values = Vec::new(alloc);
    values.push(Value::Object(ObjNo(3)))?;
    values.push(Value::Fields(builder.finish(alloc)?))?;
    values.push(Value::Object(ObjNo(4)))?;
    Ok(Value::List(Row::from_vec(values)?))
}

#[test]
fn scrubs_what_is_gone(rt: HostRuntime) -> Result<(), Fail> {
    let alloc = rt.alloc();
    let mut value = references(alloc)?;
    assert!(rt; !value.scrub(&[ObjNo(1), ObjNo(5), ObjNo(8)]));
    assert!(rt; value.same(&references(alloc)?));
    assert!(rt; value.scrub(&[ObjNo(2), ObjNo(3), ObjNo(7)]));
    says(&rt, alloc, &value, b",[object Object],#4")?;
    let in_any_order = [ObjNo(9), ObjNo(4)];
    let gone = GoneObjects::new(&in_any_order);
    assert!(rt; value.names(&gone));
    assert!(rt; value.scrub_by(&gone));
    assert!(rt; !value.names(&gone));
    says(&rt, alloc, &value, b",[object Object],")?;
    assert!(rt; !gone.has(ObjNo(5)));
    Ok(())
}

#[test]
fn says_what_is_wrong(rt: HostRuntime) -> Result<(), Fail> {
    let alloc = rt.alloc();
    assert_eq!(rt;
        format!(in alloc; "{TooDeep}")?.as_str(),
        "the list or the fields would be nested more than 100 deep"
    );
    assert_eq!(rt;
        format!(in alloc; "{PastLimit}")?.as_str(),
        "the number passes 9007199254740992 in magnitude"
    );
    assert_eq!(rt;
        format!(in alloc; "{}", TextOfFault::Heavy)?.as_str(),
        "the text would weigh more than 1048576"
    );
    Ok(())
}
