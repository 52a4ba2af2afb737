//! What the members of rows are given for.

ghost use Rattle.std.specs.Prelude.{◌≡◌, [], IfOk};
ghost use Rattle.value_purposes.specs.Tables.{names_in, handlers_in, ends_in, targets_in};
ghost use Rattle.given_members.specs.Rows as s;

use crate::children::{for_child, for_meaning};
use crate::paths::{names_before, whole_path};
use document_members::{Member, NamePath};
use document_tables::DocumentTable;
use program_tables::UnitRow;
use property_faults::GivenFor;
use qml_base::NoMemory;
use qml_text::Text;
use std::alloc::Global;
use value_purposes::{PathTables, ValuePurpose, meaning_given, purpose_of};

fn for_purpose(purpose: ValuePurpose) -> GivenFor
    ensures { result ≡ s.for_purpose purpose }
{
    match purpose {
        ValuePurpose::Role => GivenFor::Role,
        ValuePurpose::Attached => GivenFor::Attached,
        ValuePurpose::Target => GivenFor::Target,
        ValuePurpose::Path(meaning) => for_meaning(meaning),
    }
}

fn for_value(
    alloc: Global,
    tables: &PathTables<'_>,
    document: usize,
    object: usize,
    before: &[Text],
    path: &NamePath,
) -> Result<GivenFor, NoMemory>
    ensures { IfOk result (λ x. x ≡ s.for_value (names_in tables.now) (handlers_in tables.now) (ends_in tables.now)
        (targets_in tables.now) document object before.now path.now) }
{
    let purpose = purpose_of(
        alloc,
        tables,
        document,
        object,
        before,
        &path.first,
        &path.rest,
    )?;
    Ok(for_purpose(purpose))
}

fn for_group(
    alloc: Global,
    tables: &PathTables<'_>,
    document: usize,
    object: usize,
    before: &[Text],
    path: &NamePath,
) -> Result<GivenFor, NoMemory>
    ensures { IfOk result (λ x. x ≡ s.for_group (names_in tables.now) (handlers_in tables.now) (ends_in tables.now)
        (targets_in tables.now) document object before.now path.now) }
{
    let meaning = meaning_given(
        alloc,
        tables,
        document,
        object,
        before,
        &path.first,
        &path.rest,
    )?;
    Ok(for_meaning(meaning))
}

/// For what a child is given that stands in no group.
fn for_child_in(
    alloc: Global,
    tables: &PathTables<'_>,
    documents: &[DocumentTable],
    document: usize,
    object: usize,
    before: &[Text],
) -> Result<GivenFor, NoMemory>
    ensures { IfOk result (λ x. x ≡ s.for_child_in (names_in tables.now) (handlers_in tables.now) (ends_in tables.now)
        documents.now document object before.now) }
{
    if before.is_empty() {
        let given = for_child(alloc, tables, documents, document, object)?;
        return Ok(given);
    }
    Ok(GivenFor::Nothing)
}

/// What the member of a row is given for, behind the names of the groups around it.
fn for_member(
    alloc: Global,
    tables: &PathTables<'_>,
    documents: &[DocumentTable],
    document: usize,
    before: &[Text],
    row: &UnitRow,
) -> Result<GivenFor, NoMemory>
    ensures { IfOk result (λ x. x ≡ s.for_member (names_in tables.now) (handlers_in tables.now) (ends_in tables.now)
        (targets_in tables.now) documents.now document row.now.row.object before.now row.now.member) }
{
    let object = row.row.object;
    match &row.member {
        Member::Given { path, value: _ } => {
            for_value(alloc, tables, document, object, before, path)
        }
        Member::Group { path } => for_group(alloc, tables, document, object, before, path),
        Member::Child { object: _ } => {
            for_child_in(alloc, tables, documents, document, object, before)
        }
        _ => Ok(GivenFor::Nothing),
    }
}

/// What the members of these rows of a document are given for, row after row.
#[tactic(auto, using(crate::proofs::RowLemmas::goes_on, crate::proofs::RowLemmas::none_left))]
pub(crate) fn for_rows(
    alloc: Global,
    tables: &PathTables<'_>,
    documents: &[DocumentTable],
    document: usize,
    rows: &[UnitRow],
) -> Result<Vec<GivenFor>, NoMemory>
    ensures { IfOk result (λ given. given.items ≡ s.for_rows (names_in tables.now) (handlers_in tables.now) (ends_in tables.now)
        (targets_in tables.now) documents.now document [] rows.now) }
{
    let mut given = Vec::new(alloc);
    let mut paths = Vec::new(alloc);
    'rows: for row in rows {
        let before = names_before(&paths, row.row.group);
        let found = for_member(alloc, tables, documents, document, before, row)?;
        let path = whole_path(alloc, before, &row.member)?;
        given.push(found)?;
        paths.push(path)?;
    }
    Ok(given)
}
