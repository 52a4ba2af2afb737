//! What the tables of units say of an object as written.

ghost use Rattle.std.specs.Prelude.{◌≡◌, nat_eq, slice_get, option_copied};
ghost use Rattle.std.specs.List.{find};
ghost use Rattle.unit_rows.specs.declared.unit.ComponentRow.{ComponentRow as ARow};
ghost use Rattle.instance_plans.specs.Numbers.{row_at, rows_at, component_at};
ghost use Rattle.unit_rows.specs.Seen.{all_seen};

use qml_types::{TypeNo, TypeRef};
use unit_rows::{ComponentRow, ObjectRow, Unit};

/// The row of an object.
pub fn object(units: &[Unit], u: u32, o: u32) -> Option<&ObjectRow>
    ensures { option_copied result ≡ slice_get (rows_at (all_seen units.now) u).objects o }
{
    match units.get(u as usize) {
        Some(unit) => unit.objects.as_slice().get(o as usize),
        None => None,
    }
}

/// Its type.
pub fn type_at(units: &[Unit], u: u32, o: u32) -> TypeRef
    ensures { result ≡ (row_at (all_seen units.now) u o).of_type }
{
    match object(units, u, o) {
        Some(row) => row.of_type,
        None => TypeRef::Builtin(TypeNo::QtObject),
    }
}

/// Whether a Component is made around it.
pub fn is_held(units: &[Unit], u: u32, o: u32) -> bool
    ensures { result ≡ (row_at (all_seen units.now) u o).is_held }
{
    match object(units, u, o) {
        Some(row) => row.is_held,
        None => false,
    }
}

/// The object that owns it.
pub fn owner_at(units: &[Unit], u: u32, o: u32) -> Option<u32>
    ensures { result ≡ (row_at (all_seen units.now) u o).owner }
{
    match object(units, u, o) {
        Some(row) => row.owner,
        None => None,
    }
}

/// The component of this root among these.
fn with_root(components: &[ComponentRow], root: u32) -> Option<&ComponentRow>
    ensures { option_copied result ≡ find (λ (c : ARow). nat_eq c.root root) components.now }
{
    'components: for component in components {
        if component.root == root {
            return Some(component);
        }
    }
    None
}

/// The component of a document that has this root.
pub fn component(units: &[Unit], u: u32, root: u32) -> Option<&ComponentRow>
    ensures { option_copied result ≡ find (λ (c : ARow). nat_eq c.root root) (rows_at (all_seen units.now) u).components }
{
    match units.get(u as usize) {
        Some(unit) => with_root(unit.components.as_slice(), root),
        None => None,
    }
}

/// The objects of the component of a document that has this root, with those around which a Component is made in it.
pub fn standing(units: &[Unit], u: u32, root: u32) -> &[u32]
    ensures { result.now ≡ (component_at (all_seen units.now) u root).standing }
{
    match component(units, u, root) {
        Some(row) => row.standing.as_slice(),
        None => &[],
    }
}
