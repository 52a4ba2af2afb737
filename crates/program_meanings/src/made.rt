//! Both for a program.

ghost use Rattle.std.specs.Prelude.{IfOk};
ghost use Rattle.program_meanings.specs.Made as s;

use crate::handlers::all_handlers;
use crate::targets::all_targets;
use change_targets::UnitTargets;
use document_tables::ProgramTables;
use handler_names::UnitHandlers;
use program_paths::ProgramPaths;
use qml_base::NoMemory;
use std::alloc::Global;

/// The handlers and the targets of the objects of a program, by document.
#[derive(Drop)]
pub struct ProgramMeanings {
    pub handlers: Vec<UnitHandlers>,
    pub targets: Vec<UnitTargets>,
}

/// What the meaning of paths is looked up by beside the tables of a program and what its paths are followed by. It takes time by the number
/// of objects and rows. Want of memory is the one error.
pub fn program_meanings(
    alloc: Global,
    tables: &ProgramTables,
    paths: &ProgramPaths,
) -> Result<ProgramMeanings, NoMemory>
    ensures { IfOk result (λ made.
        s.AreMeanings tables.now.names.units.items tables.now.documents.items paths.now.ids.items made) }
{
    let handlers = all_handlers(alloc, &tables.names.units, &tables.documents)?;
    let targets = all_targets(alloc, &tables.names, &paths.ids, &tables.documents)?;
    Ok(ProgramMeanings { handlers, targets })
}
