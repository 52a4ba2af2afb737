//! The first two passes.

ghost use Rattle.std.specs.Prelude.{◌≡◌, IfOk};
ghost use Rattle.program_names.specs.Reading.{Sources};
ghost use Rattle.type_search.specs.Causes.{Causes, Keeps};
ghost use Rattle.type_search.specs.Search.{Knows};
ghost use Rattle.program_reading.specs.Known.{Holds, AreOf};
ghost use Rattle.program_passes.specs.Passed.{IsPassed, PassesCycles};

use crate::cycles::cycle_of;
use crate::uses::uses_of_all;
use program_names::Fault;
use program_reading::{KnownFiles, read_program};
use program_types::ProgramFiles;
use qml_outside::Files;
use read_order::{Ended, File};
use std::alloc::Global;
use type_search::SearchFault;

/// What the first two passes come to.
#[derive(Drop)]
pub enum Passed {
    /// A file isn't read: the first in reading order, with its first fault.
    Unread(File, Fault),
    /// A document uses itself: the path of the first in reading order, with the fault at its first use by which it does.
    Cycle(Vec<u8>, Fault),
    /// Neither: the files in reading order.
    All(ProgramFiles),
}

/// The second pass over a program whose files were read.
fn pass_cycles<F: Files>(
    alloc: Global,
    known: &mut KnownFiles,
    files: &mut F,
    program: ProgramFiles,
) -> Result<Passed, SearchFault>
    ensures told { IfOk result (λ passed. (sources : Sources) → Holds known.new sources → PassesCycles sources program passed) }
    ensures steady { Knows (Holds known.old) (Holds known.new) }
    ensures real { Keeps (Holds known.old) (Holds known.new) AreOf (F.told files.old) (F.told files.new) }
    ensures cause { Causes (F.faults files.old) (F.faults files.new) (F.failed files.old) (F.failed files.new) result }
{
    match uses_of_all(alloc, known, files, &program) {
        Ok(uses) => match cycle_of(alloc, &program, &uses) {
            Ok(Some((path, fault))) => Ok(Passed::Cycle(path, fault)),
            Ok(None) => Ok(Passed::All(program)),
            Err(_) => Err(SearchFault::NoMemory),
        },
        Err(fault) => Err(fault),
    }
}

/// Reads the document of a path and all that it mentions, and looks for a document that uses itself as a type. A file that is known
/// isn't read again; what was known stays known. Failed comes only where the files' count of faults rose in this call, with the path
/// of the file; want of memory is free.
pub fn two_passes<F: Files>(
    alloc: Global,
    known: &mut KnownFiles,
    files: &mut F,
    path: &[u8],
) -> Result<Passed, SearchFault>
    ensures told { IfOk result (λ passed. (sources : Sources) → Holds known.new sources → IsPassed sources path.now passed) }
    ensures steady { Knows (Holds known.old) (Holds known.new) }
    ensures real { Keeps (Holds known.old) (Holds known.new) AreOf (F.told files.old) (F.told files.new) }
    ensures cause { Causes (F.faults files.old) (F.faults files.new) (F.failed files.old) (F.failed files.new) result }
{
    match read_program(alloc, known, files, path) {
        Ok(Ended::Refused(file, fault)) => Ok(Passed::Unread(file, fault)),
        Ok(Ended::All(order)) => pass_cycles(alloc, known, files, ProgramFiles::new(order)),
        Err(fault) => Err(fault),
    }
}
