//! What is made of a document's table.

ghost use Rattle.std.specs.Prelude.{◌≡◌, ℕ, Some, [], length, slice_get, IfOk};
ghost use Rattle.program_names.specs.Loaded.{Program, unit_at};
ghost use Rattle.program_tables.specs.declared.names.UnitNames as n;
ghost use Rattle.program_tables.specs.Stands.{Stands};
ghost use Rattle.document_tables.specs.Tables.{Tells};
ghost use Rattle.handled_signals.specs.Meant.{SignalsTold};
ghost use Rattle.document_bodies.specs.OfDocument.{AreWritten, AreOfDocument};

use binding_bodies::unit_bodies;
use handled_signals::SignalTables;
use numbered_bodies::{NumberedRow, numbered_rows};
use object_members::rows_by_object;
use program_tables::UnitRow;
use qml_base::NoMemory;
use qml_syntax::Tree;
use std::alloc::Global;
use unit_rows::{BodiesFault, BodyRow, UnitBodies};
use written_bodies::written_bodies;

/// The bodies of a document, and of each object its rows with the numbers of their bodies.
#[derive(Drop)]
pub struct DocumentBodies {
    pub bodies: UnitBodies,
    pub objects: Vec<Vec<NumberedRow>>,
}

/// The bodies that are written in a document.
#[derive(Drop)]
pub struct Written {
    pub bodies: Vec<BodyRow>,
    pub objects: Vec<Vec<NumberedRow>>,
}

/// The written bodies, with the rows of each object.
#[tactic(auto, using(crate::proofs::MadeLemmas::written_so))]
fn written_of(
    alloc: Global,
    tables: &SignalTables,
    document: usize,
    tree: &Tree,
    count: usize,
    rows: &[UnitRow],
    inside: &[bool],
) -> Result<Written, NoMemory>
    ensures { IfOk result (λ made. AreWritten tables.now.names.now.units.items tables.now.documents.now tables.now.signals.now document tree.now count rows.now inside.now made) }
{
    let lists = rows_by_object(alloc, count, rows)?;
    let numbered = numbered_rows(alloc, tree, rows, inside, lists.as_slice())?;
    let bodies = written_bodies(
        alloc,
        tables,
        document,
        rows,
        inside,
        numbered.bodies.as_slice(),
    )?;
    Ok(Written {
        bodies,
        objects: numbered.objects,
    })
}

/// The bodies of the document of a number, where this is its tree, and these are how many objects it has, the rows of its members, and
/// of each whether it stands in a group. It takes time by the objects, the rows and the nodes of the bodies, and for each name under
/// which something is given by the layers of its object.
pub fn document_bodies(
    alloc: Global,
    tables: &SignalTables,
    document: usize,
    tree: Tree,
    count: usize,
    rows: &[UnitRow],
    inside: &[bool],
) -> Result<DocumentBodies, BodiesFault>
    ensures { (p : Program) (names : n.UnitNames) → Stands p tables.now.names.now.units.items →
        SignalsTold p tables.now.names.now.units.items tables.now.documents.now tables.now.signals.now →
        slice_get tables.now.names.now.units.items document ≡ Some names → Tells p document tree names rows.now inside.now →
        length (unit_at p document).objects ≡ count → (unit_at p document).functions ≡ [] →
        IfOk result (λ made. AreOfDocument p document made) }
{
    let made = match written_of(alloc, tables, document, &tree, count, rows, inside) {
        Ok(made) => made,
        Err(NoMemory) => return Err(BodiesFault::NoMemory),
    };
    let bodies = unit_bodies(alloc, tree, made.bodies)?;
    Ok(DocumentBodies {
        bodies,
        objects: made.objects,
    })
}
