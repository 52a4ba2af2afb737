//! Types that are used.

ghost use Rattle.std.specs.Prelude.{◌≡◌, ◌++◌, IfOk, OnOk};
ghost use Rattle.std.specs.Option.{option_to_list};
ghost use Rattle.document_imports.specs.Imports.{row_values};
ghost use Rattle.type_uses.specs.Uses.{use_of, uses_of};
ghost use Rattle.type_search.specs.Causes.{Causes, Keeps};
ghost use Rattle.type_search.specs.Search.{Finds, Knows, found_value};
ghost use Rattle.read_order.specs.Order.{files_of};
ghost use Rattle.name_reading.specs.NamesRead.{found_use as found_by, place_of_use as place_by, file_of as file_by, uses_read, ReadsAs};

use document_imports::ImportRow;
use program_names::Fault;
use qml_base::{LoadCause, NoMemory, Place};
use qml_outside::Files;
use read_order::{File, FileRead};
use std::alloc::Global;
use type_search::{FileSearch, SearchFault, TypeFound, find_type};
use type_uses::TypeUse;

fn found_use<D: FileSearch, F: Files>(
    alloc: Global,
    known: &mut D,
    files: &mut F,
    here: &[u8],
    rows: &[ImportRow],
    u: &TypeUse,
) -> Result<Option<TypeFound>, SearchFault>
    ensures told { IfOk result (λ f. Finds (D.allows known.new) f (λ exists. found_by exists here.now (row_values rows.now) (use_of u.now))) }
    ensures steady { Knows (D.allows known.old) (D.allows known.new) }
    ensures real { Keeps (D.allows known.old) (D.allows known.new) D.are_of (F.told files.old) (F.told files.new) }
    ensures cause { Causes (F.faults files.old) (F.faults files.new) (F.failed files.old) (F.failed files.new) result }
{
    match u {
        TypeUse::Named {
            at: _,
            qualifier,
            name,
        } => find_type(alloc, known, files, here, rows, qualifier, name),
        TypeUse::Misnamed { at: _ } => Ok(None),
    }
}

fn place_of_use(u: &TypeUse) -> Place
    ensures { result ≡ place_by (use_of u.now) }
{
    match u {
        TypeUse::Named {
            at,
            qualifier: _,
            name: _,
        } => *at,
        TypeUse::Misnamed { at } => *at,
    }
}

/// Adds the file of a document that was found.
fn push_found(found: TypeFound, mentions: &mut Vec<File>) -> Result<(), NoMemory>
    ensures { OnOk result (files_of mentions.new.items ≡ files_of mentions.old.items ++ option_to_list (file_by (found_value found))) }
{
    if let TypeFound::InFile(path) = found {
        mentions.push(File {
            is_script: false,
            path,
        })?;
    }
    Ok(())
}

/// Reads uses behind what is mentioned before them.
pub fn read_uses<D: FileSearch, F: Files>(
    alloc: Global,
    known: &mut D,
    files: &mut F,
    here: &[u8],
    rows: &[ImportRow],
    before: Vec<File>,
    uses: &[TypeUse],
) -> Result<FileRead, SearchFault>
    ensures told { IfOk result (λ how. ReadsAs (D.allows known.new) how (λ exists.
        uses_read exists here.now (row_values rows.now) (files_of before.items) (uses_of uses.now))) }
    ensures steady { Knows (D.allows known.old) (D.allows known.new) }
    ensures real { Keeps (D.allows known.old) (D.allows known.new) D.are_of (F.told files.old) (F.told files.new) }
    ensures cause { Causes (F.faults files.old) (F.faults files.new) (F.failed files.old) (F.failed files.new) result }
{
    let mut mentions = before;
    'uses: for u in uses {
        match found_use(alloc, known, files, here, rows, u) {
            Ok(Some(found)) => match push_found(found, &mut mentions) {
                Ok(()) => {}
                Err(NoMemory) => return Err(SearchFault::NoMemory),
            },
            Ok(None) => {
                return Ok(FileRead::Refused(Fault {
                    at: place_of_use(u),
                    cause: LoadCause::UnknownType,
                }));
            }
            Err(fault) => return Err(fault),
        }
    }
    Ok(FileRead::Mentioning(mentions))
}
