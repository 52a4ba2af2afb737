//! NotLiteral.

ghost use Rattle.std.specs.Prelude.{◌≡◌, slice_get, Some};
ghost use Rattle.std.specs.Option.{unwrap_or};
ghost use Rattle.qml_syntax.specs.Places.{part_at};
ghost use Rattle.program_names.specs.Loaded.{Program, unit_at};
ghost use Rattle.program_names.specs.Components.{Roots};
ghost use Rattle.load_faults.specs.Faults.{first_from};
ghost use Rattle.load_faults.specs.Properties.{is_literal_access as is_literal_only, not_literals};
ghost use Rattle.document_tables.specs.declared.program.DocumentTable as t;
ghost use Rattle.document_tables.specs.Tables.{TellProgram, tree_in};
ghost use Rattle.property_faults.specs.declared.given.GivenFor.TheVariants.{Nothing};
ghost use Rattle.property_faults.specs.Given.{AllGiven};
ghost use Rattle.literal_faults.specs.Literals as s;

use document_members::Member;
use document_rows::ObjectRow;
use document_tables::{ProgramTables, table_at};
use load_passes::Best;
use program_names::Fault;
use program_tables::UnitRow;
use property_faults::GivenFor;
use qml_base::{LoadCause, Place};
use qml_syntax::Tree;
use qml_types::Access;
use value_places::value_place;
use value_reading::literal_kind;
use written_order::members_in_the_order_of_writing;

/// Whether a property of this access takes a literal alone.
fn is_literal_access(access: Access) -> bool
    ensures { result ≡ is_literal_only access }
{
    match access {
        Access::Literal => true,
        Access::Writable | Access::ReadOnly | Access::Hidden | Access::Id => false,
    }
}

/// Whether what is given for this has to be a literal: a role of a row, or a property of the object's own that takes no other value.
fn wants_literal(given: GivenFor) -> bool
    ensures { result ≡ s.wants_literal given }
{
    match given {
        GivenFor::Role => true,
        GivenFor::Property {
            kind: _,
            access,
            own,
        } => own && is_literal_access(access),
        _ => false,
    }
}

/// Where the value at a place is told, if it is.
fn not_literal_value(
    tree: &Tree,
    objects: &[ObjectRow],
    first: usize,
    value: usize,
    given: GivenFor,
) -> Option<Place>
    ensures { result ≡ s.not_literal_value tree.now objects.now first value given }
{
    if !wants_literal(given) {
        return None;
    }
    match literal_kind(tree, value) {
        Some(_) => None,
        None => Some(value_place(tree, objects, first, value)),
    }
}

/// Where the member of a row is told, if it is.
fn not_literal_at(
    tree: &Tree,
    objects: &[ObjectRow],
    first: usize,
    member: &Member,
    given: GivenFor,
) -> Option<Place>
    ensures { result ≡ s.not_literal_at tree.now objects.now first member.now given }
{
    match member {
        Member::Given { path: _, value } => not_literal_value(tree, objects, first, *value, given),
        _ => None,
    }
}

/// Tells a place of NotLiteral.
fn tell_at(at: Option<Place>, best: &mut Best)
    ensures { best.new.fault ≡ first_from best.old.fault (s.not_literal_fault at) }
{
    match at {
        Some(at) => best.tell(Fault {
            at,
            cause: LoadCause::NotLiteral,
        }),
        None => {}
    }
}

/// Tells the member of a row.
fn tell_row(tree: &Tree, objects: &[ObjectRow], row: &UnitRow, given: GivenFor, best: &mut Best)
    ensures { best.new.fault ≡ first_from best.old.fault (s.not_literal_row tree.now objects.now row.now given) }
{
    tell_at(
        not_literal_at(tree, objects, row.row.first, &row.member, given),
        best,
    );
}

/// What the member of a row is given for.
fn given_at(given: &[GivenFor], number: usize) -> GivenFor
    ensures { result ≡ unwrap_or (slice_get given.now number) Nothing }
{
    match given.get(number) {
        Some(given) => *given,
        None => GivenFor::Nothing,
    }
}

/// Tells the members of these rows.
#[tactic(auto, using(crate::proofs::RowLemmas::none_left))]
fn tell_rows(
    tree: &Tree,
    objects: &[ObjectRow],
    rows: &[UnitRow],
    given: &[GivenFor],
    best: &mut Best,
)
    ensures { best.new.fault ≡ first_from best.old.fault
        (s.by_given (s.not_literal_row tree.now objects.now) rows.now given.now) }
{
    'rows: for (number, row) in rows.iter().enumerate() {
        tell_row(tree, objects, row, given_at(given, number), best);
    }
}

/// Tells, of the document of a number, each value that isn't a literal and is given for a role of a row, or for a property that takes
/// a literal alone (Qt 5.15, "ListElement QML Type" and "QML Object Attributes"). The tree is that of the document, and of each row it
/// is told what its member is given for. What is kept is the first of these faults and of what was kept before.
pub fn tell_not_literal(
    tables: &ProgramTables,
    document: usize,
    tree: &Tree,
    given: &[GivenFor],
    best: &mut Best,
)
    ensures { (p : Program) (roots : Roots) (x : t.DocumentTable) → TellProgram p tables.now →
        slice_get tables.now.documents.items document ≡ Some x → tree.now ≡ tree_in x.content.value →
        AllGiven p roots document given.now (unit_at p document).rows →
        best.new.fault ≡ first_from best.old.fault (not_literals p roots document) }
{
    members_in_the_order_of_writing();
    match table_at(&tables.documents, document) {
        Some(table) => tell_rows(tree, &table.objects, &table.rows, given, best),
        None => {}
    }
}
