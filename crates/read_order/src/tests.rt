//! That files are read.

ghost use Rattle.std.specs.Prelude.{◌≡◌, []};

use crate::{Ended, File, FileRead, Reader, read_all};
use qml_outside::{Files, SureFiles};
use std::alloc::Global;
use std::test::Fail;
use type_search::SearchFault;

/// No file mentions another.
#[derive(Drop)]
struct Alone;

impl Reader for Alone {
    ghost use Rattle.std.specs.Prelude.{◌≡◌, [], ⊤};
    ghost use Rattle.program_names.specs.Reading.{File as AFile, mentioning, read_by};

    ghost allows = { λ reader sources. (f : AFile) → read_by sources f ≡ mentioning [] };

    ghost are_of = { λ folder sources. ⊤ };

    fn read_file<F: Files>(
        &mut self,
        alloc: Global,
        files: &mut F,
        file: &File,
    ) -> Result<FileRead, SearchFault> {
        let mentions: Vec<File> = Vec::new(alloc);
        Ok(FileRead::Mentioning(mentions))
    }
}

#[test]
fn a_file_that_mentions_none_is_read_alone(rt: HostRuntime) -> Result<(), Fail> {
    let alloc = rt.alloc();
    let root = File {
        is_script: false,
        path: Vec::from_slice(alloc, b"main.qml")?,
    };
    let mut files = SureFiles::new(Vec::new(alloc));
    let mut reader = Alone;
    match read_all(alloc, &mut reader, &mut files, root) {
        Ok(Ended::All(order)) => assert_eq!(rt; order.len(), 1),
        Ok(Ended::Refused(_, _)) => return Err(Fail::from("refused")),
        Err(_) => return Err(Fail::from("no memory")),
    }
    Ok(())
}
