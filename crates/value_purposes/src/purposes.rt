//! What a value is given for.

ghost use Rattle.std.specs.Prelude.{◌≡◌, IfOk};
ghost use Rattle.value_purposes.specs.Purposes as s;
ghost use Rattle.value_purposes.specs.Tables.{names_in, handlers_in, ends_in, targets_in};

use crate::given::{is_alone, is_type, meaning_given};
use crate::tables::PathTables;
use crate::words::{is_attached, is_handler_name};
use path_meanings::PathMeaning;
use program_tables::Names;
use qml_base::NoMemory;
use qml_text::Text;
use qml_types::TypeNo;
use std::alloc::Global;

/// What a value is given for.
#[derive(Clone, Copy, Debug)]
pub enum ValuePurpose {
    /// A role of a row of a ListModel.
    Role,
    /// One of the two attached handlers.
    Attached,
    /// A handler for the target of a Connections.
    Target,
    /// What its path means.
    Path(PathMeaning),
}

/// Whether a value in a Connections is a handler for its target.
fn for_its_target(
    names: &Names,
    document: usize,
    object: usize,
    before: &[Text],
    first: &Text,
    rest: &[Text],
) -> bool
    ensures { result ≡ s.for_its_target names.now.units.items document object before.now first.now rest.now }
{
    is_type(names, document, object, TypeNo::Connections)
        && is_alone(before, rest)
        && is_handler_name(first)
}

/// What a value is given for in an object that is no row of a ListModel.
fn purpose_in_object(
    alloc: Global,
    tables: &PathTables<'_>,
    document: usize,
    object: usize,
    before: &[Text],
    first: &Text,
    rest: &[Text],
) -> Result<ValuePurpose, NoMemory>
    ensures { IfOk result (λ x. x ≡ s.purpose_in_object (names_in tables.now) (handlers_in tables.now) (ends_in tables.now)
        (targets_in tables.now) document object before.now first.now rest.now) }
{
    if is_attached(before, first, rest) {
        return Ok(ValuePurpose::Attached);
    }
    if for_its_target(tables.names, document, object, before, first, rest) {
        return Ok(ValuePurpose::Target);
    }
    let meaning = meaning_given(alloc, tables, document, object, before, first, rest)?;
    Ok(ValuePurpose::Path(meaning))
}

/// What a value is given for under a path in the object of a number in the document of a number (Qt 5.15, "QML Object Attributes").
/// `before` are the names of the groups around the path's own names.
pub fn purpose_of(
    alloc: Global,
    tables: &PathTables<'_>,
    document: usize,
    object: usize,
    before: &[Text],
    first: &Text,
    rest: &[Text],
) -> Result<ValuePurpose, NoMemory>
    ensures { IfOk result (λ x. x ≡ s.purpose_at (names_in tables.now) (handlers_in tables.now) (ends_in tables.now)
        (targets_in tables.now) document object before.now first.now rest.now) }
{
    if is_type(tables.names, document, object, TypeNo::ListElement) {
        return Ok(ValuePurpose::Role);
    }
    let purpose = purpose_in_object(alloc, tables, document, object, before, first, rest)?;
    Ok(purpose)
}
