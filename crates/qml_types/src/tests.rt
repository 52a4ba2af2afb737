//! The conversions of each kind of value to each kind of property as one table, and look-ups by the documentation.

use crate::{
    Access, ConvertFault, DefaultMember, Method, PropKind, TypeNo, TypeRef, basic_kind, cell_at,
    cell_count, convert, default_member, default_of, enumeration_texts, find_method, find_signal,
    is_module, lookup, property,
};
use qml_base::{ObjNo, UnitNo};
use qml_text::{Text, TextFault};
use qml_value::{Field, List, Num, Row, Value};
use std::alloc::Global;
use std::process::Abort;
use std::test::Fail;

const ITEM: TypeRef = TypeRef::Builtin(TypeNo::Item);

/// The types of the objects that the tests name: a document's, and those that it stands on.
const TYPES: [TypeRef; 3] = [
    TypeRef::Document(UnitNo(4)),
    ITEM,
    TypeRef::Builtin(TypeNo::QtObject),
];

fn text(alloc: Global, bytes: &[u8]) -> Result<Value, TextFault> {
    Ok(Value::Text(Text::from_utf8(alloc, bytes)?))
}

/// What a value becomes in a property of the kind: the text of it, or `-` where it isn't taken.
fn becomes(alloc: Global, kind: &PropKind, value: &Value) -> Result<Text, Fail> {
    let copy = value.copy(alloc)?;
    match convert(alloc, kind, &TYPES, copy) {
        Ok(taken) => Ok(taken.text_of(alloc)?),
        Err(ConvertFault::BadKind { .. }) => Ok(Text::from_utf8(alloc, b"-")?),
        Err(ConvertFault::NoMemory) => Err(Fail::from("memory")),
    }
}

/// The values of all kinds, each converted, with a blank between two.
fn row(rt: &impl Abort, alloc: Global, kind: PropKind, wanted: &[u8]) -> Result<(), Fail> {
    let mut said = Vec::new(alloc);
    said.push(becomes(alloc, &kind, &Value::Undefined)?)?;
    said.push(becomes(alloc, &kind, &Value::Null)?)?;
    said.push(becomes(alloc, &kind, &Value::Bool(true))?)?;
    said.push(becomes(alloc, &kind, &Value::Num(Num::small(0)))?)?;
    said.push(becomes(alloc, &kind, &text(alloc, b"t")?)?)?;
    said.push(becomes(alloc, &kind, &Value::List(List::new(alloc)))?)?;
    said.push(becomes(alloc, &kind, &Value::Fields(Row::<Field>::new(alloc)))?)?;
    said.push(becomes(alloc, &kind, &Value::Object(ObjNo(1)))?)?;
    said.push(becomes(alloc, &kind, &Value::Component(ObjNo(2)))?)?;
    let whole = Text::join(alloc, &said, &Text::from_utf8(alloc, b" ")?)?;
    assert_eq!(rt; whole.to_utf8(alloc)?.as_slice(), wanted);
    Ok(())
}

#[test]
fn converts_as_the_table_says(rt: HostRuntime) -> Result<(), Fail> {
    let alloc = rt.alloc();
    row(&rt, alloc, PropKind::Int, b"- - - 0 - - - - -")?;
    row(&rt, alloc, PropKind::Real, b"- - - 0 - - - - -")?;
    row(&rt, alloc, PropKind::Double, b"- - - 0 - - - - -")?;
    row(&rt, alloc, PropKind::String, b"- - true 0 t - - - -")?;
    row(&rt, alloc, PropKind::Url, b"- - true 0 t - - - -")?;
    row(&rt, alloc, PropKind::Color, b"- - true 0 t - - - -")?;
    row(
        &rt,
        alloc,
        PropKind::Bool,
        b"- false true false true true true true true",
    )?;
    let all = b"undefined null true 0 t  [object Object] #1 component #2";
    row(&rt, alloc, PropKind::Var, all)?;
    row(&rt, alloc, PropKind::Variant, all)?;
    row(
        &rt,
        alloc,
        PropKind::Object(ITEM),
        b"- null - - - - - #1 component #2",
    )?;
    let timer = TypeRef::Builtin(TypeNo::Timer);
    row(&rt, alloc, PropKind::Object(timer), b"- null - - - - - - -")?;
    row(
        &rt,
        alloc,
        PropKind::Component,
        b"- null - - - - - - component #2",
    )?;
    row(&rt, alloc, PropKind::List(ITEM), b"- - - - - - - - -")?;
    Ok(())
}

#[test]
fn finds_types_in_their_modules(rt: HostRuntime) -> Result<(), Fail> {
    assert_eq!(rt; lookup("QtQuick", "Repeater"), Some(TypeNo::Repeater));
    assert_eq!(rt; lookup("QtQml", "Repeater"), None);
    assert_eq!(rt;
        lookup("QtQml.Models", "ListModel"),
        Some(TypeNo::ListModel)
    );
    assert_eq!(rt; lookup("QtQuick", "Host"), None);
    assert_eq!(rt; lookup("QmlRun", "Host"), Some(TypeNo::Host));
    assert!(rt; is_module("QtQml.Models"));
    assert!(rt; !is_module("QtQuick.Controls"));
    Ok(())
}

#[test]
fn finds_properties_at_their_places(rt: HostRuntime) -> Result<(), Fail> {
    let count = property(TypeNo::Repeater, "count").ok_or("count")?;
    assert_eq!(rt;
        (count.place, count.kind, count.access),
        (15, PropKind::Int, Access::ReadOnly)
    );
    let width = property(TypeNo::Loader, "width").ok_or("width")?;
    assert_eq!(rt;
        (width.place, width.kind, width.access),
        (4, PropKind::Int, Access::Writable)
    );
    let key = property(TypeNo::Host, "key").ok_or("key")?;
    assert_eq!(rt; key.access, Access::Literal);
    let target = property(TypeNo::PropertyChanges, "target").ok_or("target")?;
    assert_eq!(rt; target.access, Access::Id);
    assert!(rt; property(TypeNo::Item, "visibleSet").is_none());
    assert!(rt; property(TypeNo::Item, "count").is_none());
    let shown = property(TypeNo::Repeater, "visible").ok_or("visible")?;
    let hidden = cell_at(TypeNo::Repeater, shown.goes_to).ok_or("its cell")?;
    assert_eq!(rt;
        (hidden.name, hidden.access, hidden.shown_as),
        ("visibleSet", Access::Hidden, "visible")
    );
    assert!(rt; cell_at(TypeNo::Item, 13).is_none());
    assert_eq!(rt; cell_count(TypeNo::Item), 13);
    Ok(())
}

/// What a cell of the type holds at first has this text.
fn starts(
    rt: &impl Abort,
    alloc: Global,
    type_no: TypeNo,
    name: &str,
    wanted: &[u8],
) -> Result<(), Fail> {
    let cell = property(type_no, name).ok_or("cell")?;
    let value = cell.first_value(alloc, Value::Object(ObjNo(7)))?;
    assert_eq!(rt; value.text_of(alloc)?.to_utf8(alloc)?.as_slice(), wanted);
    Ok(())
}

#[test]
fn holds_at_first_what_the_table_says(rt: HostRuntime) -> Result<(), Fail> {
    let alloc = rt.alloc();
    starts(&rt, alloc, TypeNo::Item, "visible", b"false")?;
    starts(&rt, alloc, TypeNo::Timer, "interval", b"1000")?;
    starts(
        &rt,
        alloc,
        TypeNo::Binding,
        "restoreMode",
        b"RestoreBinding",
    )?;
    starts(&rt, alloc, TypeNo::Binding, "when", b"true")?;
    starts(&rt, alloc, TypeNo::Loader, "status", b"Null")?;
    starts(&rt, alloc, TypeNo::Connections, "target", b"#7")?;
    starts(&rt, alloc, TypeNo::Repeater, "delegate", b"null")?;
    assert!(rt; default_of(alloc, &PropKind::Url).same(&text(alloc, b"")?));
    Ok(())
}

#[test]
fn finds_signals_methods_and_the_rest(rt: HostRuntime) -> Result<(), Fail> {
    let removed = find_signal(TypeNo::Repeater, "itemRemoved").ok_or("itemRemoved")?;
    assert_eq!(rt;
        (removed.place, removed.parameters),
        (1, ["index", "item"].as_slice())
    );
    assert!(rt; find_signal(TypeNo::Item, "loaded").is_none());
    assert_eq!(rt;
        find_method(TypeNo::Timer, "restart"),
        Some(Method::Restart)
    );
    assert_eq!(rt;
        find_method(TypeNo::Loader, "destroy"),
        Some(Method::Destroy)
    );
    assert_eq!(rt; find_method(TypeNo::Item, "restart"), None);
    assert_eq!(rt;
        default_member(TypeNo::Loader),
        Some(DefaultMember::Children)
    );
    assert_eq!(rt; default_member(TypeNo::Timer), None);
    assert_eq!(rt;
        enumeration_texts("Loader"),
        Some(["Null", "Ready", "Error"].as_slice())
    );
    assert_eq!(rt; enumeration_texts("Timer"), None);
    assert_eq!(rt; basic_kind("color"), Some(PropKind::Color));
    assert_eq!(rt; basic_kind("Item"), None);
    let component = TypeRef::Builtin(TypeNo::Component);
    assert_eq!(rt;
        (component.kind(), ITEM.kind()),
        (PropKind::Component, PropKind::Object(ITEM))
    );
    Ok(())
}
