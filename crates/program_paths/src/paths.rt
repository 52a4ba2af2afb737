//! What paths of a program are followed by.

ghost use Rattle.std.specs.Prelude.{◌≡◌, IfOk};
ghost use Rattle.program_paths.specs.Paths as s;

use document_components::document_ids;
use document_tables::DocumentTable;
use path_ends::{UnitAliases, UnitEnds, UnitIds, alias_ends, unit_aliases};
use program_tables::Names;
use qml_base::NoMemory;
use std::alloc::Global;

/// The ids of a program's components, its aliases, and where they end, by document.
#[derive(Drop)]
pub struct ProgramPaths {
    pub ids: Vec<UnitIds>,
    pub aliases: Vec<UnitAliases>,
    pub ends: Vec<UnitEnds>,
}

/// What paths of a program are followed by, from the tables of its documents in their order. None where some object doesn't decide by what it is
/// written as whether it begins a component. It takes time by the number of objects and rows.
pub fn program_paths(
    alloc: Global,
    names: &Names,
    sources: &[DocumentTable],
) -> Result<Option<ProgramPaths>, NoMemory>
    ensures { IfOk result (λ made. s.ArePaths names.now.units.items sources.now made) }
{
    let found = all_ids(alloc, names, sources)?;
    match found {
        Some(ids) => {
            let made = with_ids(alloc, names, sources, ids)?;
            Ok(Some(made))
        }
        None => Ok(None),
    }
}

/// The ids of the components of all documents.
#[tactic(auto, using(crate::proofs::PathsLemmas::one_more, crate::proofs::PathsLemmas::none_done, crate::proofs::PathsLemmas::ids_done))]
fn all_ids(
    alloc: Global,
    names: &Names,
    sources: &[DocumentTable],
) -> Result<Option<Vec<UnitIds>>, NoMemory>
    ensures { IfOk result (λ found. s.FoundIds names.now.units.items sources.now found) }
{
    let mut all = Vec::new(alloc);
    'sources: for (document, source) in sources.iter().enumerate() {
        match ids_of(alloc, names, document, source)? {
            Some(ids) => all.push(ids)?,
            None => return Ok(None),
        }
    }
    Ok(Some(all))
}

fn ids_of(
    alloc: Global,
    names: &Names,
    document: usize,
    source: &DocumentTable,
) -> Result<Option<UnitIds>, NoMemory>
    ensures { IfOk result (λ found. s.IdsOf names.now.units.items document source.now found) }
{
    let found = document_ids(alloc, names, document, &source.objects, &source.rows)?;
    Ok(found)
}

/// With these ids the aliases and their ends.
fn with_ids(
    alloc: Global,
    names: &Names,
    sources: &[DocumentTable],
    ids: Vec<UnitIds>,
) -> Result<ProgramPaths, NoMemory>
    ensures { IfOk result (λ made. s.HasPaths names.now.units.items sources.now ids.items made) }
{
    let aliases = all_aliases(alloc, sources)?;
    let ends = alias_ends(alloc, names, &ids, &aliases)?;
    Ok(ProgramPaths { ids, aliases, ends })
}

/// The aliases of all documents.
#[tactic(auto, using(crate::proofs::PathsLemmas::one_more_unit, crate::proofs::PathsLemmas::no_aliases, crate::proofs::PathsLemmas::aliases_done))]
fn all_aliases(alloc: Global, sources: &[DocumentTable]) -> Result<Vec<UnitAliases>, NoMemory>
    ensures { IfOk result (λ all. s.AllAliases sources.now all.items) }
{
    let mut all = Vec::new(alloc);
    'sources: for source in sources {
        let aliases = aliases_of(alloc, source)?;
        all.push(aliases)?;
    }
    Ok(all)
}

fn aliases_of(alloc: Global, source: &DocumentTable) -> Result<UnitAliases, NoMemory>
    ensures { IfOk result (λ unit. s.AliasesOf source.now unit) }
{
    let aliases = unit_aliases(alloc, &source.rows)?;
    Ok(aliases)
}
