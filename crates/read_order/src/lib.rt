//! Reads the files of a program breadth first, in the order of first mention, up to the first that is refused. How a file
//! is read is told by a trait. It promises that reading ends as the definition of `program_names` says, for all sources that
//! agree with what was told.
#![tactic(auto)]

ghost use Rattle.std.specs.Prelude.{◌≡◌, IfOk, OnOk, option_map, slice_get};
ghost use Rattle.program_names.specs.Reading.{Sources};
ghost use Rattle.type_search.specs.Causes.{Causes, Keeps};
ghost use Rattle.type_search.specs.Search.{Knows};
ghost use Rattle.read_order.specs.Order.{IsEnd, put, put_all, files_of, file_of as file_value};

mod file;
#[cfg(test)]
mod tests;

pub use file::{Ended, File, FileRead, Reader};
use indexmap::IndexSet;
use qml_base::NoMemory;
use qml_outside::Files;
use std::alloc::Global;
use type_search::SearchFault;

/// Reads a document and all files that it mentions, through others too, each once. Where that has no end within
/// 4,294,967,295 files there is no memory for them. Failed comes only where the count of faults rose in this call.
pub fn read_all<R: Reader, F: Files>(
    alloc: Global,
    reader: &mut R,
    files: &mut F,
    root: File,
) -> Result<Ended, SearchFault>
    ensures told { IfOk result (λ end. (sources : Sources) → R.allows reader.new sources → IsEnd sources (file_value root) end) }
    ensures steady { Knows (R.allows reader.old) (R.allows reader.new) }
    ensures real { Keeps (R.allows reader.old) (R.allows reader.new) R.are_of (F.told files.old) (F.told files.new) }
    ensures cause { Causes (F.faults files.old) (F.faults files.new) (F.failed files.old) (F.failed files.new) result }
{
    let mut order: IndexSet<File> = IndexSet::new(alloc);
    if put_in(&mut order, root).is_err() {
        return Err(SearchFault::NoMemory);
    }
    'files: for at in 0..u32::MAX {
        let file = match file_at(alloc, &order, at as usize) {
            Ok(Some(file)) => file,
            Ok(None) => return Ok(Ended::All(order)),
            Err(NoMemory) => return Err(SearchFault::NoMemory),
        };
        match reader.read_file(alloc, files, &file) {
            Ok(FileRead::Mentioning(mentions)) => {
                if put_all_in(&mut order, mentions).is_err() {
                    return Err(SearchFault::NoMemory);
                }
            }
            Ok(FileRead::Refused(fault)) => return Ok(Ended::Refused(file, fault)),
            Err(fault) => return Err(fault),
        }
    }
    Err(SearchFault::NoMemory)
}

/// The file that stands behind this many others, if there is one.
fn file_at(alloc: Global, files: &IndexSet<File>, at: usize) -> Result<Option<File>, NoMemory>
    ensures { IfOk result (λ file. option_map file_value file ≡ slice_get (files_of files.now.keys) at) }
{
    match files.get_index(at) {
        Some(file) => Ok(Some(file.copy(alloc)?)),
        None => Ok(None),
    }
}

/// Puts a file last, where it isn't there yet.
fn put_in(files: &mut IndexSet<File>, file: File) -> Result<(), NoMemory>
    ensures { OnOk result (files_of files.new.keys ≡ put (files_of files.old.keys) (file_value file)) }
{
    let Ok(_added) = files.insert_full(file) else {
        return Err(NoMemory);
    };
    Ok(())
}

/// Puts the files that aren't there yet, in their order.
fn put_all_in(files: &mut IndexSet<File>, more: Vec<File>) -> Result<(), NoMemory>
    ensures { OnOk result (files_of files.new.keys ≡ put_all (files_of files.old.keys) (files_of more.items)) }
{
    let mut rest = more.into_iter();
    'more: while let Some(file) = rest.next() {
        put_in(files, file)?;
    }
    Ok(())
}
