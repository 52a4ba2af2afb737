//! Why handed fields are refused.

ghost use Rattle.std.specs.Prelude.{◌≡◌, IfOk, Some as some};
ghost use Rattle.std.specs.List.{find};
ghost use Rattle.std.specs.Option.{option_map};
ghost use Rattle.instance_plans.specs.Numbers.{row_at};
ghost use Rattle.instance_plans.specs.Plans.{fault_of_name, fault_of_fields, names_of_row, is_named, unless_writable as unless_it};
ghost use Rattle.unit_rows.specs.Seen.{all_seen};
ghost use Rattle.handed_fields.specs.Handed.{fault_seen};

use qml_base::NoMemory;
use qml_text::Text;
use qml_types::Access;
use qml_value::Value;
use std::alloc::Global;
use type_rows::TypeRows;
use unit_rows::{NameFinds, NameRow, Unit};
use written_names::find_name;

/// Why a handed field is refused.
#[derive(Clone, Copy, Debug, PartialEq, Eq)]
pub enum FieldFault {
    /// The object has no property of this name.
    NoSuchName,
    /// It is no writable one.
    Readonly,
}

/// The fault of a property by its access.
fn unless_writable(access: Access) -> Option<FieldFault>
    ensures { option_map fault_seen result ≡ unless_it access }
{
    match access {
        Access::Writable => None,
        _ => Some(FieldFault::Readonly),
    }
}

/// The fault of a name that is there.
fn fault_of_row(row: &NameRow) -> Option<FieldFault>
    ensures { option_map fault_seen result ≡ fault_of_name (some row.now) }
{
    match &row.finds {
        NameFinds::Cell(_, access) => unless_writable(*access),
        NameFinds::CellOf(_, _, access) => unless_writable(*access),
        NameFinds::Object(_) => Some(FieldFault::Readonly),
        _ => Some(FieldFault::NoSuchName),
    }
}

/// The fault of a name that an object of a document may have.
fn fault_of(
    alloc: Global,
    types: &TypeRows,
    units: &[Unit],
    u: u32,
    o: u32,
    name: &Text,
) -> Result<Option<FieldFault>, NoMemory>
    ensures { IfOk result (λ fault. option_map fault_seen fault ≡ fault_of_name (find (is_named name.now) (names_of_row (all_seen units.now) (row_at (all_seen units.now) u o)))) }
{
    match find_name(alloc, types, units, u, o, name)? {
        Some(row) => Ok(fault_of_row(row)),
        None => Ok(Some(FieldFault::NoSuchName)),
    }
}

/// The fault of the first field that names no property of an object of a document, as its document sees it, or no writable one;
/// none where each may be handed.
pub fn field_fault(
    alloc: Global,
    types: &TypeRows,
    units: &[Unit],
    u: u32,
    o: u32,
    fields: &[(Text, Value)],
) -> Result<Option<FieldFault>, NoMemory>
    ensures { IfOk result (λ fault. option_map fault_seen fault ≡ fault_of_fields (names_of_row (all_seen units.now) (row_at (all_seen units.now) u o)) fields.now) }
{
    'fields: for field in fields {
        let fault = fault_of(alloc, types, units, u, o, &field.0)?;
        if fault.is_some() {
            return Ok(fault);
        }
    }
    Ok(None)
}
