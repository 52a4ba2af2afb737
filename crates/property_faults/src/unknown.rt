//! UnknownProperty.

ghost use Rattle.std.specs.Prelude.{◌≡◌, slice_get, Some};
ghost use Rattle.std.specs.Option.{unwrap_or};
ghost use Rattle.program_names.specs.Loaded.{Program, unit_at};
ghost use Rattle.program_names.specs.Components.{Roots};
ghost use Rattle.load_faults.specs.Faults.{first_from};
ghost use Rattle.load_faults.specs.Properties.{unknown_properties};
ghost use Rattle.document_tables.specs.declared.program.DocumentTable as t;
ghost use Rattle.document_tables.specs.Tables.{TellProgram, tree_in};
ghost use Rattle.property_faults.specs.Unknown as s;
ghost use Rattle.property_faults.specs.declared.given.GivenFor.TheVariants.{Nothing};
ghost use Rattle.property_faults.specs.Given.{AllGiven};

use crate::given::GivenFor;
use crate::places::{first_place, object_place, place_in_group};
use document_members::Member;
use document_tables::{ProgramTables, in_group, table_at};
use load_passes::Best;
use program_names::Fault;
use program_tables::{Names, UnitRow, types_are_as_in_the_program};
use qml_base::{LoadCause, Place};
use qml_syntax::Tree;
use qml_types::{TypeNo, TypeRef};
use written_order::members_in_the_order_of_writing;

/// Whether a member of a ListElement gives a value under one name.
fn is_role(inside: bool, member: &Member) -> bool
    ensures { result ≡ s.is_role inside member.now }
{
    if inside {
        return false;
    }
    match member {
        Member::Given { path, value: _ } => path.rest.is_empty(),
        _ => false,
    }
}

/// Where a member of a ListElement is told.
fn unknown_in_element(tree: &Tree, inside: bool, member: &Member) -> Option<Place>
    ensures { result ≡ s.unknown_in_element tree.now inside member.now }
{
    if is_role(inside, member) {
        return None;
    }
    if inside {
        Some(place_in_group(tree, member))
    } else {
        Some(first_place(tree, member))
    }
}

fn is_nothing(given: GivenFor) -> bool
    ensures { result ≡ s.is_nothing given }
{
    match given {
        GivenFor::Nothing => true,
        _ => false,
    }
}

/// Whether a group may be given for this.
fn is_group_of(given: GivenFor) -> bool
    ensures { result ≡ s.is_group_of given }
{
    match given {
        GivenFor::Object => true,
        GivenFor::WithoutTarget => true,
        _ => false,
    }
}

/// Whether a child object may be given for this.
fn takes_child(given: GivenFor) -> bool
    ensures { result ≡ s.takes_child given }
{
    match given {
        GivenFor::Property {
            kind: _,
            access: _,
            own: _,
        } => true,
        GivenFor::Object => true,
        GivenFor::WithoutTarget => true,
        GivenFor::Taken => true,
        _ => false,
    }
}

/// A place, where it is told.
pub(crate) fn place_if(told: bool, at: Place) -> Option<Place>
    ensures { result ≡ s.place_if told at }
{
    if told { Some(at) } else { None }
}

/// Where a member of another object is told that stands in no group.
fn unknown_outside(tree: &Tree, member: &Member, given: GivenFor) -> Option<Place>
    ensures { result ≡ s.unknown_outside tree.now member.now given }
{
    match member {
        Member::Given { path, value: _ } => place_if(is_nothing(given), path.at),
        Member::Group { path } => place_if(!is_group_of(given), path.at),
        Member::Child { object } => place_if(!takes_child(given), object_place(tree, *object)),
        _ => None,
    }
}

/// Where a member of another object is told that stands in a group.
fn unknown_in_group(tree: &Tree, member: &Member, given: GivenFor) -> Option<Place>
    ensures { result ≡ s.unknown_in_group tree.now member.now given }
{
    match member {
        Member::Given { path, value: _ } => place_if(is_nothing(given), path.at),
        Member::Group { path } => place_if(!is_group_of(given), path.at),
        _ => Some(place_in_group(tree, member)),
    }
}

/// Where a member is told, if it is.
fn unknown_at(
    tree: &Tree,
    element: bool,
    inside: bool,
    member: &Member,
    given: GivenFor,
) -> Option<Place>
    ensures { result ≡ s.unknown_at tree.now element inside member.now given }
{
    if element {
        return unknown_in_element(tree, inside, member);
    }
    if inside {
        unknown_in_group(tree, member, given)
    } else {
        unknown_outside(tree, member, given)
    }
}

/// Tells a place of UnknownProperty.
fn tell_at(at: Option<Place>, best: &mut Best)
    ensures { best.new.fault ≡ first_from best.old.fault (s.unknown_fault at) }
{
    match at {
        Some(at) => best.tell(Fault {
            at,
            cause: LoadCause::UnknownProperty,
        }),
        None => {}
    }
}

/// Tells the member of a row.
fn tell_row(
    names: &Names,
    document: usize,
    tree: &Tree,
    inside: bool,
    row: &UnitRow,
    given: GivenFor,
    best: &mut Best,
)
    ensures { best.new.fault ≡ first_from best.old.fault
        (s.unknown_row names.now.units.items document tree.now inside row.now given) }
{
    let element = names.is_a(
        document,
        row.row.object,
        TypeRef::Builtin(TypeNo::ListElement),
    );
    tell_at(unknown_at(tree, element, inside, &row.member, given), best);
}

/// What the member of a row is given for.
pub(crate) fn given_at(given: &[GivenFor], number: usize) -> GivenFor
    ensures { result ≡ unwrap_or (slice_get given.now number) Nothing }
{
    match given.get(number) {
        Some(given) => *given,
        None => GivenFor::Nothing,
    }
}

/// Tells the members of these rows.
#[tactic(auto, using(crate::proofs::RowLemmas::go_on, crate::proofs::RowLemmas::none_left))]
fn tell_rows(
    names: &Names,
    document: usize,
    tree: &Tree,
    rows: &[UnitRow],
    inside: &[bool],
    given: &[GivenFor],
    best: &mut Best,
)
    ensures { best.new.fault ≡ first_from best.old.fault
        (s.by_rows (s.unknown_row names.now.units.items document tree.now) rows.now inside.now given.now) }
{
    'rows: for (number, row) in rows.iter().enumerate() {
        tell_row(
            names,
            document,
            tree,
            in_group(inside, number),
            row,
            given_at(given, number),
            best,
        );
    }
}

/// Tells, of the document of a number, each name, handler, group and child object for which the object has nothing, and what may not
/// stand in a group or in a ListElement (Qt 5.15, "QML Object Attributes"). The tree is that of the document, and of each row it is
/// told what its member is given for. What is kept is the first of these faults and of what was kept before.
pub fn tell_unknown(
    tables: &ProgramTables,
    document: usize,
    tree: &Tree,
    given: &[GivenFor],
    best: &mut Best,
)
    ensures { (p : Program) (roots : Roots) (x : t.DocumentTable) → TellProgram p tables.now →
        slice_get tables.now.documents.items document ≡ Some x → tree.now ≡ tree_in x.content.value →
        AllGiven p roots document given.now (unit_at p document).rows →
        best.new.fault ≡ first_from best.old.fault (unknown_properties p roots document) }
{
    let _root = tree.root();
    types_are_as_in_the_program();
    members_in_the_order_of_writing();
    match table_at(&tables.documents, document) {
        Some(table) => tell_rows(
            &tables.names,
            document,
            tree,
            &table.rows,
            &table.inside,
            given,
            best,
        ),
        None => {}
    }
}
