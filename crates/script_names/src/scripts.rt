//! Qualifiers of scripts.

ghost use Rattle.std.specs.Prelude.{◌≡◌, ℕ, List, IfOk, OnOk};
ghost use Rattle.std.specs.Option.{option_or};
ghost use Rattle.name_table.specs.Named.{under};
ghost use Rattle.document_imports.specs.Imports.{row_value, row_values, source_value};
ghost use Rattle.script_names.specs.Scripts as s;

use document_imports::{ImportRow, ImportSource};
use name_table::NameTable;
use program_types::ProgramFiles;
use qml_base::NoMemory;
use read_order::File;
use std::alloc::Global;

/// The number of the script of a path.
fn script(alloc: Global, files: &ProgramFiles, path: &[u8]) -> Result<Option<usize>, NoMemory>
    ensures { IfOk result (λ n. n ≡ s.script_by files.now path.now) }
{
    let file = File {
        is_script: true,
        path: Vec::from_slice(alloc, path)?,
    };
    Ok(files.number(&file))
}

/// The number of the script that an import names.
fn script_number(
    alloc: Global,
    files: &ProgramFiles,
    source: &ImportSource,
) -> Result<Option<usize>, NoMemory>
    ensures { IfOk result (λ n. n ≡ s.script_number files.now (source_value source.now)) }
{
    match source {
        ImportSource::Script(path) => {
            let number = script(alloc, files, path)?;
            Ok(number)
        }
        ImportSource::Module(_) => Ok(None),
        ImportSource::Directory(_) => Ok(None),
    }
}

/// Puts the script of an import under its qualifier, if another one isn't there.
#[tactic(auto, using(crate::proofs::ScriptLemmas::one_put, crate::proofs::ScriptLemmas::no_script, crate::proofs::ScriptLemmas::no_qualifier))]
fn put_script(
    alloc: Global,
    files: &ProgramFiles,
    import: &ImportRow,
    names: &mut NameTable<usize>,
) -> Result<(), NoMemory>
    ensures { OnOk result (s.Joins files.now (row_value import.now) names.old names.new) }
{
    let Some(qualifier) = &import.qualifier else {
        return Ok(());
    };
    match script_number(alloc, files, &import.source)? {
        Some(number) => {
            names.put(alloc, qualifier, number)?;
            Ok(())
        }
        None => Ok(()),
    }
}

/// The scripts that these imports bring, by their qualifiers: of two under one the later, as far as it is a file of the program. It takes time by the number
/// of imports.
#[tactic(auto, using(crate::proofs::ScriptLemmas::none_yet, crate::proofs::ScriptLemmas::one_more, crate::proofs::ScriptLemmas::all_put))]
pub fn script_names(
    alloc: Global,
    files: &ProgramFiles,
    imports: &[ImportRow],
) -> Result<NameTable<usize>, NoMemory>
    ensures { IfOk result (λ names. s.AreScripts files.now (row_values imports.now) names) }
{
    let mut names = NameTable::new(alloc);
    let mut left = imports;
    'imports: while let Some((last, front)) = left.split_last() {
        put_script(alloc, files, last, &mut names)?;
        left = front;
    }
    Ok(names)
}
