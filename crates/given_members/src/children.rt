//! For what child objects are given.

ghost use Rattle.std.specs.Prelude.{◌≡◌, option_copied, slice_get, IfOk};
ghost use Rattle.component_roots.specs.Deciding.{name_of_place as name_there};
ghost use Rattle.value_purposes.specs.Tables.{names_in, handlers_in, ends_in};
ghost use Rattle.given_members.specs.Children as s;

use document_members::Member;
use document_tables::{DocumentTable, in_group, table_at};
use path_meanings::{PathMeaning, Reached, meaning_along};
use program_tables::{DefaultPlace, UnitRow};
use property_faults::GivenFor;
use qml_base::NoMemory;
use qml_syntax::Adjective;
use qml_text::Text;
use qml_types::{DefaultMember, TypeNo, cell_at};
use std::alloc::Global;
use type_uses::copied;
use value_purposes::PathTables;

pub(crate) fn for_meaning(meaning: PathMeaning) -> GivenFor
    ensures { result ≡ s.for_meaning meaning }
{
    match meaning {
        PathMeaning::Property { kind, access, own } => GivenFor::Property { kind, access, own },
        PathMeaning::Object => GivenFor::Object,
        PathMeaning::Handler => GivenFor::Handler,
        PathMeaning::Children => GivenFor::Children,
        PathMeaning::Nothing => GivenFor::Nothing,
        PathMeaning::WithoutTarget => GivenFor::WithoutTarget,
    }
}

/// What is given under a name alone.
fn for_name(
    alloc: Global,
    tables: &PathTables<'_>,
    document: usize,
    object: usize,
    name: &Text,
) -> Result<GivenFor, NoMemory>
    ensures { IfOk result (λ x. x ≡
        s.for_name (names_in tables.now) (handlers_in tables.now) (ends_in tables.now) document object name.now) }
{
    let start = Reached::Object { document, object };
    let meaning = meaning_along(
        alloc,
        tables.names,
        tables.handlers,
        tables.ends,
        true,
        start,
        name,
        &[],
    )?;
    Ok(for_meaning(meaning))
}

fn name_of_default(alloc: Global, told: bool, name: &Text) -> Result<Option<Text>, NoMemory>
    ensures { IfOk result (λ x. x ≡ s.name_if told name.now) }
{
    if told {
        let name = copied(alloc, name)?;
        Ok(Some(name))
    } else {
        Ok(None)
    }
}

/// The name of the default property that a member declares, which isn't in a group.
fn default_named(alloc: Global, inside: bool, member: &Member) -> Result<Option<Text>, NoMemory>
    ensures { IfOk result (λ x. x ≡ s.default_named inside member.now) }
{
    if inside {
        return Ok(None);
    }
    match member {
        Member::Property {
            at: _,
            adjective,
            kind: _,
            name,
            name_at: _,
            value: _,
        } => name_of_default(alloc, *adjective == Adjective::Default, name),
        Member::Alias {
            at: _,
            default,
            name,
            name_at: _,
            target: _,
        } => name_of_default(alloc, *default, name),
        _ => Ok(None),
    }
}

fn row_at(rows: &[UnitRow], number: usize) -> Option<&UnitRow>
    ensures { option_copied result ≡ slice_get rows.now number }
{
    rows.get(number)
}

fn default_of_row(
    alloc: Global,
    source: &DocumentTable,
    number: usize,
) -> Result<Option<Text>, NoMemory>
    ensures { IfOk result (λ x. x ≡ s.default_of_row source.now.inside.items number (slice_get source.now.rows.items number)) }
{
    match row_at(&source.rows, number) {
        Some(row) => {
            let inside = in_group(&source.inside, number);
            let name = default_named(alloc, inside, &row.member)?;
            Ok(name)
        }
        None => Ok(None),
    }
}

/// The name of the default property that a row of a document declares.
fn default_in(
    alloc: Global,
    documents: &[DocumentTable],
    document: usize,
    row: usize,
) -> Result<Option<Text>, NoMemory>
    ensures { IfOk result (λ x. x ≡ s.default_in documents.now document row) }
{
    match table_at(documents, document) {
        Some(source) => {
            let name = default_of_row(alloc, source, row)?;
            Ok(name)
        }
        None => Ok(None),
    }
}

fn for_default(
    alloc: Global,
    tables: &PathTables<'_>,
    document: usize,
    object: usize,
    name: Option<Text>,
) -> Result<GivenFor, NoMemory>
    ensures { IfOk result (λ x. x ≡
        s.for_default (names_in tables.now) (handlers_in tables.now) (ends_in tables.now) document object name) }
{
    match name {
        Some(name) => {
            let given = for_name(alloc, tables, document, object, &name)?;
            Ok(given)
        }
        None => Ok(GivenFor::Nothing),
    }
}

#[tactic(auto, using(component_roots::proofs::DecidingLemmas::name_there, component_roots::proofs::DecidingLemmas::name_nowhere))]
fn name_of_place(alloc: Global, type_no: TypeNo, place: u32) -> Result<Text, NoMemory>
    ensures { IfOk result (λ text. text ≡ name_there type_no place) }
{
    match cell_at(type_no, place) {
        Some(cell) => text_of(alloc, cell.name),
        None => Ok(Text::new()),
    }
}

fn text_of(alloc: Global, name: &str) -> Result<Text, NoMemory>
    ensures { IfOk result (λ text. text ≡ name.now) }
{
    match Text::from_latin1(alloc, name.as_bytes()) {
        Ok(text) => Ok(text),
        Err(_) => Err(NoMemory),
    }
}

fn for_built_in(
    alloc: Global,
    tables: &PathTables<'_>,
    document: usize,
    object: usize,
    type_no: TypeNo,
    member: DefaultMember,
) -> Result<GivenFor, NoMemory>
    ensures { IfOk result (λ x. x ≡
        s.for_built_in (names_in tables.now) (handlers_in tables.now) (ends_in tables.now) document object type_no member) }
{
    match member {
        DefaultMember::Property(place) => {
            let name = name_of_place(alloc, type_no, place)?;
            let given = for_name(alloc, tables, document, object, &name)?;
            Ok(given)
        }
        DefaultMember::Children => Ok(GivenFor::Taken),
        DefaultMember::Held => Ok(GivenFor::Taken),
        DefaultMember::Rows => Ok(GivenFor::Taken),
    }
}

/// For what child objects of the object of a number in the document of a number are given (Qt 5.15, "Default Properties").
pub(crate) fn for_child(
    alloc: Global,
    tables: &PathTables<'_>,
    documents: &[DocumentTable],
    document: usize,
    object: usize,
) -> Result<GivenFor, NoMemory>
    ensures { IfOk result (λ x. x ≡
        s.for_child (names_in tables.now) (handlers_in tables.now) (ends_in tables.now) documents.now document object) }
{
    match tables.names.default_property(document, object) {
        Some(
            DefaultPlace::Declared {
                document: declaring,
                row,
            },
        ) => {
            let name = default_in(alloc, documents, declaring, row)?;
            let given = for_default(alloc, tables, document, object, name)?;
            Ok(given)
        }
        Some(DefaultPlace::BuiltIn { type_no, member }) => {
            let given = for_built_in(alloc, tables, document, object, type_no, member)?;
            Ok(given)
        }
        None => Ok(GivenFor::Nothing),
    }
}
