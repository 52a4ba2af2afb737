//! What the meaning of paths is looked up in.

use change_targets::UnitTargets;
use handler_names::UnitHandlers;
use path_ends::UnitEnds;
use program_tables::Names;

/// The names of a program's objects, and by the numbers of documents the handlers and the targets of these, and where aliases end.
#[derive(Drop)]
pub struct PathTables<'a> {
    pub names: &'a Names,
    pub handlers: &'a [UnitHandlers],
    pub targets: &'a [UnitTargets],
    pub ends: &'a [UnitEnds],
}
