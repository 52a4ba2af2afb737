//! That a plan is made where there is memory: its object with a cell, and its names.

ghost use Rattle.std.specs.Prelude.{IfOk};
ghost use Rattle.instancing.specs.Numbered.{AreNumbered};
ghost use Rattle.instance_contents.specs.Tables.{Stands};

use crate::bodies::empty_body;
use instance_contents::{MadeObject, Tables, gather, made_objects, tables_of};
use instance_shapes::plan_shapes;
use instancing::{Numbers, plan_numbers};
use qml_base::{CellNo, Found, ObjNo};
use qml_scope::{Shape, Shapes};
use qml_text::Text;
use qml_types::{Access, PropKind, TypeNo, TypeRef};
use qml_value::{Num, Value};
use std::alloc::Global;
use std::process::Abort;
use std::test::Fail;
use tree_model::Content;
use unit_rows::{
    CellRow, ComponentRow, GivenValue, NameFinds, NameRow, ObjectRow, Rows, Unit, UnitBodies,
    ValueRow, Way,
};

/// `property bool a: true`, as the cell behind that of `objectName`.
fn cells(alloc: Global) -> Result<Rows<CellRow>, Fail> {
    let mut cells = Rows::new(alloc);
    cells.push(CellRow {
        name: Text::from_latin1(alloc, b"a")?,
        kind: PropKind::Bool,
        access: Access::Writable,
    })?;
    Ok(cells)
}

fn values(alloc: Global) -> Result<Rows<ValueRow>, Fail> {
    let mut values = Rows::new(alloc);
    values.push(ValueRow {
        to: Way::new(0, Vec::new(alloc)),
        place: 1,
        value: GivenValue::Literal(Value::Bool(true)),
    })?;
    Ok(values)
}

/// The names `a`, and `b` as an alias of it.
fn names(alloc: Global) -> Result<Rows<NameRow>, Fail> {
    let mut names = Rows::new(alloc);
    names.push(NameRow {
        name: Text::from_latin1(alloc, b"b")?,
        finds: NameFinds::CellOf(Way::new(0, Vec::new(alloc)), 1, Access::Writable),
    })?;
    names.push(NameRow {
        name: Text::from_latin1(alloc, b"a")?,
        finds: NameFinds::Cell(1, Access::Writable),
    })?;
    Ok(names)
}

fn root(alloc: Global) -> Result<ObjectRow, Fail> {
    Ok(ObjectRow {
        shown: Text::from_latin1(alloc, b"QtObject")?,
        of_type: TypeRef::Builtin(TypeNo::QtObject),
        owner: None,
        is_child: false,
        is_held: false,
        holds: None,
        cells: cells(alloc)?,
        values: values(alloc)?,
        changes: Rows::new(alloc),
        handlers: Rows::new(alloc),
        names: names(alloc)?,
        elements: Rows::new(alloc),
    })
}

/// The component of the root, whose id is `o`.
fn component(alloc: Global) -> Result<ComponentRow, Fail> {
    let mut standing = Rows::new(alloc);
    standing.push(0)?;
    let mut ids = Rows::new(alloc);
    ids.push((Text::from_latin1(alloc, b"o")?, 0))?;
    Ok(ComponentRow {
        root: 0,
        enclosing: None,
        standing,
        ids,
    })
}

fn document(alloc: Global) -> Result<Unit, Fail> {
    let mut objects = Rows::new(alloc);
    objects.push(root(alloc)?)?;
    let mut components = Rows::new(alloc);
    components.push(component(alloc)?)?;
    Ok(Unit {
        objects,
        components,
        bodies: UnitBodies::new(alloc, empty_body(alloc)?, Vec::new(alloc), Vec::new(alloc))?,
        scripts: Rows::new(alloc),
        functions: Rows::new(alloc),
    })
}

fn planned(alloc: Global, units: &[Unit]) -> Result<Numbers, Fail>
    ensures { IfOk result (λ n. AreNumbered 1 n.objects.items) }
{
    let numbers = plan_numbers(alloc, units, 0, 0, None, None, 1, 100)?;
    Ok(numbers)
}

fn tables<'a>(alloc: Global, units: &'a [Unit], live: &'a Shapes) -> Result<Tables<'a>, Fail>
    ensures { IfOk result (λ t. Stands t) }
{
    let numbers = planned(alloc, units)?;
    let tables = tables_of(alloc, units, live, 1, numbers)?;
    Ok(tables)
}

fn shapes(alloc: Global, units: &[Unit]) -> Result<Vec<Shape>, Fail> {
    let live = Shapes::new(alloc);
    let tables = tables(alloc, units, &live)?;
    let shapes = plan_shapes(alloc, &tables, 0, 0, &[])?;
    Ok(shapes)
}

fn objects(alloc: Global, units: &[Unit]) -> Result<Vec<MadeObject>, Fail> {
    let live = Shapes::new(alloc);
    let tables = tables(alloc, units, &live)?;
    let given = gather(alloc, &tables)?;
    let objects = made_objects(alloc, &tables, &given, &[])?;
    Ok(objects)
}

fn units(alloc: Global) -> Result<Vec<Unit>, Fail> {
    let mut units = Vec::new(alloc);
    units.push(document(alloc)?)?;
    Ok(units)
}

/// What the root has under a name.
fn found(alloc: Global, shapes: &[Shape], name: &[u8]) -> Result<Option<Found>, Fail> {
    let name = Text::from_latin1(alloc, name)?;
    let Some(shape) = shapes.first() else {
        return Ok(None);
    };
    let Some(entry) = shape.members.entries().first() else {
        return Ok(None);
    };
    Ok(entry.names.find(&name))
}

fn names_are_found(rt: &impl Abort, alloc: Global) -> Result<(), Fail> {
    let units = units(alloc)?;
    let shapes = shapes(alloc, units.as_slice())?;
    let cell = Found::Cell(CellNo {
        object: ObjNo(1),
        place: 1,
    });
    assert_eq!(rt; found(alloc, shapes.as_slice(), b"a")?, Some(cell));
    assert_eq!(rt; found(alloc, shapes.as_slice(), b"b")?, Some(cell));
    Ok(())
}

fn object_is_made(rt: &impl Abort, alloc: Global) -> Result<(), Fail> {
    let units = units(alloc)?;
    let objects = objects(alloc, units.as_slice())?;
    assert_eq!(rt; objects.len(), 1);
    assert_eq!(rt; objects[0].cells.len(), 2);
    assert_eq!(rt;
        matches!(
            objects[0].cells[1].content,
            Content::Plain(Value::Bool(true))
        ),
        true
    );
    Ok(())
}

#[test]
fn a_plan_has_its_names(rt: HostRuntime) -> Result<(), Fail> {
    names_are_found(&rt, rt.alloc())
}

#[test]
fn a_plan_has_its_object(rt: HostRuntime) -> Result<(), Fail> {
    object_is_made(&rt, rt.alloc())
}
