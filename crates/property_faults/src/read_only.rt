//! ReadOnly.

ghost use Rattle.std.specs.Prelude.{◌≡◌, slice_get, Some};
ghost use Rattle.program_names.specs.Loaded.{Program, unit_at};
ghost use Rattle.program_names.specs.Components.{Roots};
ghost use Rattle.load_faults.specs.Faults.{first_from};
ghost use Rattle.load_faults.specs.Properties.{may_be_given as given_by, read_only_values};
ghost use Rattle.document_tables.specs.declared.program.DocumentTable as t;
ghost use Rattle.document_tables.specs.Tables.{TellProgram, tree_in};
ghost use Rattle.property_faults.specs.ReadOnly as s;
ghost use Rattle.property_faults.specs.Unknown.{by_rows};
ghost use Rattle.property_faults.specs.Given.{AllGiven};

use crate::given::GivenFor;
use crate::places::object_place;
use crate::unknown::{given_at, place_if};
use document_members::Member;
use document_tables::{ProgramTables, in_group, table_at};
use load_passes::Best;
use program_names::Fault;
use program_tables::UnitRow;
use qml_base::{LoadCause, Place};
use qml_syntax::Tree;
use qml_types::Access;
use written_order::members_in_the_order_of_writing;

/// Whether an object may give such a property a value.
fn may_be_given(access: Access, own: bool) -> bool
    ensures { result ≡ given_by access own }
{
    match access {
        Access::Writable => true,
        Access::Literal | Access::Id => own,
        Access::ReadOnly | Access::Hidden => false,
    }
}

/// Whether nothing may be given for this.
fn is_read_only(given: GivenFor) -> bool
    ensures { result ≡ s.is_read_only given }
{
    match given {
        GivenFor::Object => true,
        GivenFor::Property {
            kind: _,
            access,
            own,
        } => !may_be_given(access, own),
        _ => false,
    }
}

/// Where a member is told, if it is.
fn read_only_at(tree: &Tree, inside: bool, member: &Member, given: GivenFor) -> Option<Place>
    ensures { result ≡ s.read_only_at tree.now inside member.now given }
{
    match member {
        Member::Given { path, value: _ } => place_if(is_read_only(given), path.at),
        Member::Child { object } => {
            let told = !inside && is_read_only(given);
            place_if(told, object_place(tree, *object))
        }
        _ => None,
    }
}

/// Tells a place of ReadOnly.
fn tell_at(at: Option<Place>, best: &mut Best)
    ensures { best.new.fault ≡ first_from best.old.fault (s.read_only_fault at) }
{
    match at {
        Some(at) => best.tell(Fault {
            at,
            cause: LoadCause::ReadOnly,
        }),
        None => {}
    }
}

/// Tells the member of a row.
fn tell_row(tree: &Tree, inside: bool, row: &UnitRow, given: GivenFor, best: &mut Best)
    ensures { best.new.fault ≡ first_from best.old.fault (s.read_only_row tree.now inside row.now given) }
{
    tell_at(read_only_at(tree, inside, &row.member, given), best);
}

/// Tells the members of these rows.
#[tactic(auto, using(crate::proofs::RowLemmas::none_left))]
fn tell_rows(tree: &Tree, rows: &[UnitRow], inside: &[bool], given: &[GivenFor], best: &mut Best)
    ensures { best.new.fault ≡ first_from best.old.fault (by_rows (s.read_only_row tree.now) rows.now inside.now given.now) }
{
    'rows: for (number, row) in rows.iter().enumerate() {
        tell_row(
            tree,
            in_group(inside, number),
            row,
            given_at(given, number),
            best,
        );
    }
}

/// Tells, of the document of a number, each value and child object for a property that isn't to be given one, or for a whole object
/// (Qt 5.15, "Defining Object Types through QML Documents" and "Property Attributes"). The tree is that of the document, and of each
/// row it is told what its member is given for. What is kept is the first of these faults and of what was kept before.
pub fn tell_read_only(
    tables: &ProgramTables,
    document: usize,
    tree: &Tree,
    given: &[GivenFor],
    best: &mut Best,
)
    ensures { (p : Program) (roots : Roots) (x : t.DocumentTable) → TellProgram p tables.now →
        slice_get tables.now.documents.items document ≡ Some x → tree.now ≡ tree_in x.content.value →
        AllGiven p roots document given.now (unit_at p document).rows →
        best.new.fault ≡ first_from best.old.fault (read_only_values p roots document) }
{
    let _root = tree.root();
    members_in_the_order_of_writing();
    match table_at(&tables.documents, document) {
        Some(table) => tell_rows(tree, &table.rows, &table.inside, given, best),
        None => {}
    }
}
