//! That a plan is made where there is memory.

use crate::bodies::empty_body;
use instancing::{NumbersFault, plan_numbers};
use qml_base::UnitNo;
use qml_text::Text;
use qml_types::{TypeNo, TypeRef};
use std::alloc::Global;
use std::process::Abort;
use std::test::Fail;
use unit_rows::{ComponentRow, ObjectRow, Rows, Unit, UnitBodies};

fn object(alloc: Global, of_type: TypeRef, owner: Option<u32>) -> ObjectRow {
    ObjectRow {
        shown: Text::new(),
        of_type,
        owner,
        is_child: false,
        is_held: false,
        holds: None,
        cells: Rows::new(alloc),
        values: Rows::new(alloc),
        changes: Rows::new(alloc),
        handlers: Rows::new(alloc),
        names: Rows::new(alloc),
        elements: Rows::new(alloc),
    }
}

/// A document whose root is of a type, and owns one more object.
fn document(alloc: Global, of_type: TypeRef) -> Result<Unit, Fail> {
    let mut objects = Rows::new(alloc);
    objects.push(object(alloc, of_type, None))?;
    objects.push(object(alloc, TypeRef::Builtin(TypeNo::QtObject), Some(0)))?;
    let mut standing = Rows::new(alloc);
    standing.push(0)?;
    standing.push(1)?;
    let mut components = Rows::new(alloc);
    components.push(ComponentRow {
        root: 0,
        enclosing: None,
        standing,
        ids: Rows::new(alloc),
    })?;
    Ok(Unit {
        objects,
        components,
        bodies: UnitBodies::new(alloc, empty_body(alloc)?, Vec::new(alloc), Vec::new(alloc))?,
        scripts: Rows::new(alloc),
        functions: Rows::new(alloc),
    })
}

fn plans(rt: &impl Abort, alloc: Global) -> Result<(), Fail> {
    let mut units = Vec::new(alloc);
    units.push(document(alloc, TypeRef::Document(UnitNo(1)))?)?;
    units.push(document(alloc, TypeRef::Builtin(TypeNo::QtObject))?)?;
    let full = plan_numbers(alloc, units.as_slice(), 0, 0, None, None, 5, 2).err();
    assert_eq!(rt; full, Some(NumbersFault::Full));
    let made = plan_numbers(alloc, units.as_slice(), 0, 0, None, None, 5, 3)?;
    assert_eq!(rt; made.objects.len(), 3);
    assert_eq!(rt; made.objects[1].unit, 1);
    assert_eq!(rt; made.objects[2].owner, Some(5));
    assert_eq!(rt; made.instances.len(), 2);
    Ok(())
}

#[test]
fn documents_of_types_come_first(rt: HostRuntime) -> Result<(), Fail> {
    plans(&rt, rt.alloc())
}
