//! A name among those of an object.

ghost use Rattle.std.specs.Prelude.{◌≡◌, IfOk, option_copied};
ghost use Rattle.std.specs.Str.{bytes_eq};
ghost use Rattle.std.specs.List.{find, flat_map};
ghost use Rattle.instance_plans.specs.Numbers.{row_at, documents_of};
ghost use Rattle.instance_plans.specs.Plans.{is_named, names_of_row};
ghost use Rattle.unit_rows.specs.Seen.{all_seen};
ghost use Rattle.written_names.specs.Written.{names_of_root};

use instance_contents::{builtin_of, documents_from};
use instancing::{object, type_at};
use qml_base::NoMemory;
use qml_text::Text;
use qml_types::TypeRef;
use std::alloc::Global;
use type_rows::TypeRows;
use unit_rows::{NameRow, Unit};

/// Whether they are the same text.
#[tactic(auto, using(instance_contents::proofs::PlaceLemmas::same_bytes))]
fn is_same(a: &Text, b: &Text) -> bool
    ensures { result ≡ bytes_eq a.now b.now }
{
    a.same(b)
}

/// The first of these rows that has the name.
fn named<'a>(rows: &'a [NameRow], name: &Text) -> Option<&'a NameRow>
    ensures { option_copied result ≡ find (is_named name.now) rows.now }
{
    'rows: for row in rows {
        if is_same(&row.name, name) {
            return Some(row);
        }
    }
    None
}

/// The rows of the names that an object of a document declares.
pub fn declared(units: &[Unit], u: u32, o: u32) -> &[NameRow]
    ensures { result.now ≡ (row_at (all_seen units.now) u o).names }
{
    match object(units, u, o) {
        Some(row) => row.names.as_slice(),
        None => &[],
    }
}

/// The first name so of the roots of these documents.
fn named_by_documents<'a>(units: &'a [Unit], documents: &[u32], name: &Text) -> Option<&'a NameRow>
    ensures { option_copied result ≡ find (is_named name.now) (flat_map (names_of_root (all_seen units.now)) documents.now) }
{
    'documents: for document in documents {
        let found = named(declared(units, *document, 0), name);
        if found.is_some() {
            return found;
        }
    }
    None
}

/// The documents that a type stands on, the lowest first.
pub fn documents_below(
    alloc: Global,
    units: &[Unit],
    of_type: TypeRef,
) -> Result<Vec<u32>, NoMemory>
    ensures { IfOk result (λ documents. documents.items ≡ documents_of (all_seen units.now) of_type) }
{
    let mut documents = documents_from(alloc, units, of_type)?;
    documents.reverse();
    Ok(documents)
}

/// The row of a name that an object of a document has, as its document sees it.
#[tactic(auto, using(crate::proofs::FindLemmas::find_three))]
pub fn find_name<'a>(
    alloc: Global,
    types: &'a TypeRows,
    units: &'a [Unit],
    u: u32,
    o: u32,
    name: &Text,
) -> Result<Option<&'a NameRow>, NoMemory>
    ensures { IfOk result (λ row. option_copied row ≡ find (is_named name.now) (names_of_row (all_seen units.now) (row_at (all_seen units.now) u o))) }
{
    let of_type = type_at(units, u, o);
    let in_type = named(types.of(builtin_of(units, of_type)), name);
    if in_type.is_some() {
        return Ok(in_type);
    }
    let documents = documents_below(alloc, units, of_type)?;
    let in_documents = named_by_documents(units, documents.as_slice(), name);
    if in_documents.is_some() {
        return Ok(in_documents);
    }
    Ok(named(declared(units, u, o), name))
}
