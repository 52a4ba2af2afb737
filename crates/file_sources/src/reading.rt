//! Reading a file by its path.

ghost use Rattle.std.specs.Prelude.{◌≡◌, ◌≤◌, IfOk};
ghost use Rattle.qml_outside.specs.Causes.{CountsRead, NamesFailed};
ghost use Rattle.file_sources.specs.Contents.{IsFound};

use crate::content::{Content, content_of};
use qml_base::NoMemory;
use qml_outside::{Files, ReadFault};
use std::alloc::Global;

/// Reads the file of a path, as a script or as a document; a path that isn't UTF-8 names none. Failed comes only where the
/// count of faults rose in this call, with the path's name; want of memory is free.
pub fn read_content<F: Files>(
    alloc: Global,
    files: &mut F,
    is_script: bool,
    path: &[u8],
) -> Result<Content, ReadFault>
    ensures map { F.told files.new ≡ F.told files.old }
    ensures found { IfOk result (λ content. IsFound (F.told files.old) is_script path.now content) }
    ensures later { F.faults files.old ≤ F.faults files.new }
    ensures cause { CountsRead (F.faults files.old) (F.faults files.new) result }
    ensures named { NamesFailed (F.failed files.old) (F.failed files.new) path.now result }
{
    let Ok(name) = std::str::from_utf8(path) else {
        return Ok(Content::Missing);
    };
    match files.read(alloc, name)? {
        None => Ok(Content::Missing),
        Some(bytes) => match content_of(alloc, is_script, &bytes) {
            Ok(content) => Ok(content),
            Err(NoMemory) => Err(ReadFault::NoMemory),
        },
    }
}
