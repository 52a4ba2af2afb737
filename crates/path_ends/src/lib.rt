//! Where paths of names end, through aliases. The ends of all aliases of a program are found once, each after those that it
//! leads through, so a path takes time by its names. It promises that these ends are those of
//! `program_names/specs/PathMeanings.antt`.
#![tactic(auto)]

mod aliases;
mod ends;
mod finding;
mod laws;
mod settling;
mod testing;
mod walking;
mod ways;

pub use aliases::{Alias, AliasEnd, UnitAliases, UnitEnds, UnitIds, known_at, unit_aliases};
pub use ends::{Hop, PathEnd, SeenObject, Way};
pub use finding::alias_ends;
pub use laws::{
    aliases_end_as_in_the_program, aliases_of_rows_are_few, aliases_of_rows_are_told,
    ids_of_rows_are_told, paths_end_as_in_the_program,
};
pub use walking::end_of_path;
