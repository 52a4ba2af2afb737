//! What is known of files.

ghost use Rattle.std.specs.Prelude.{◌≡◌, [], ◌∷◌, ◌++◌, IfOk, IfSome, IfNone, OnErr, None, Contains};
ghost use Rattle.std.specs.Map.{lookup};
ghost use Rattle.program_names.specs.Reading.{Sources, Source};
ghost use Rattle.file_sources.specs.Contents.{Shows};
ghost use Rattle.type_search.specs.Causes.{Causes, Keeps};
ghost use Rattle.type_search.specs.Search.{Knows};
ghost use Rattle.read_order.specs.Order.{file_of};
ghost use Rattle.program_reading.specs.Known.{Holds, AreOf};
ghost use Rattle.program_reading.specs.Kept.{entries_of, same_key};

use file_sources::{Content, one_source, read_content};
use indexmap::IndexMap;
use qml_base::NoMemory;
use qml_outside::{Files, ReadFault};
use read_order::File;
use std::alloc::Global;
use std::marker::Model;
use std::rc::Rc;
use type_search::SearchFault;

/// The files that were read, each with what it is. Contracts see them as a list in the order in which they were read.
#[derive(Drop)]
pub struct KnownFiles {
    entries: IndexMap<File, Rc<Content>>,
}

impl Model for KnownFiles {
    ghost use Rattle.std.specs.Prelude.{List};
    ghost use Rattle.program_names.specs.Reading.{Sources};
    ghost use Rattle.program_reading.specs.Known.{Entry, Holds};
    ghost use Rattle.program_reading.specs.Kept.{entries_of};

    ghost Value = { List Entry };

    ghost view = { λ known. entries_of known.entries.entries };

    ghost invariant = { λ known. (sources : Sources) × Holds (entries_of known.entries.entries) sources };
}

/// What a file is, if it is known.
fn find(entries: &IndexMap<File, Rc<Content>>, file: &File) -> Result<Option<Rc<Content>>, NoMemory>
    ensures known { IfOk result (λ found. IfSome found (λ content. Contains (entries_of entries.now.entries) (file_of file.now, content.value))) }
    ensures unknown { IfOk result (λ found. IfNone found (lookup (same_key file.now) entries.now.entries ≡ None)) }
{
    match entries.get(file) {
        Some(content) => Ok(Some(content.clone()?)),
        None => Ok(None),
    }
}

/// Keeps what a file is that isn't known. Without memory nothing changes.
fn keep(
    alloc: Global,
    entries: &mut IndexMap<File, Rc<Content>>,
    file: File,
    content: Content,
) -> Result<Rc<Content>, NoMemory>
    requires { lookup (same_key file) entries.old.entries ≡ None }
    ensures kept { IfOk result (λ shared. (shared.value ≡ content) × (entries_of entries.new.entries ≡ entries_of entries.old.entries ++ (file_of file, content) ∷ [])) }
    ensures unchanged { OnErr result (entries.new.entries ≡ entries.old.entries) }
{
    let shared = Rc::new(alloc, content)?;
    let answer = shared.clone()?;
    let Ok(_replaced) = entries.insert(file, shared) else {
        return Err(NoMemory);
    };
    Ok(answer)
}

/// What a file is. It is read where it isn't known.
fn content_in<F: Files>(
    alloc: Global,
    entries: &mut IndexMap<File, Rc<Content>>,
    files: &mut F,
    file: File,
) -> Result<Rc<Content>, SearchFault>
    requires { (sources : Sources) × Holds (entries_of entries.old.entries) sources }
    ensures some { (sources : Sources) × Holds (entries_of entries.new.entries) sources }
    ensures shown { IfOk result (λ content. (s : Source) × Shows content.value s) }
    ensures told { IfOk result (λ content. (sources : Sources) → Holds (entries_of entries.new.entries) sources → Shows content.value (sources (file_of file))) }
    ensures steady { Knows (Holds (entries_of entries.old.entries)) (Holds (entries_of entries.new.entries)) }
    ensures real { Keeps (Holds (entries_of entries.old.entries)) (Holds (entries_of entries.new.entries)) AreOf (F.told files.old) (F.told files.new) }
    ensures cause { Causes (F.faults files.old) (F.faults files.new) (F.failed files.old) (F.failed files.new) result }
{
    match find(entries, &file) {
        Ok(Some(content)) => return Ok(content),
        Ok(None) => {}
        Err(NoMemory) => return Err(SearchFault::NoMemory),
    }
    one_source();
    match read_content(alloc, files, file.is_script, &file.path) {
        Ok(content) => match keep(alloc, entries, file, content) {
            Ok(content) => Ok(content),
            Err(NoMemory) => Err(SearchFault::NoMemory),
        },
        Err(ReadFault::Failed) => Err(SearchFault::Failed(file.path)),
        Err(ReadFault::NoMemory) => Err(SearchFault::NoMemory),
    }
}

impl KnownFiles {
    /// No files. It takes no memory.
    pub fn new(alloc: Global) -> KnownFiles
        ensures { result ≡ [] }
    {
        KnownFiles {
            entries: IndexMap::new(alloc),
        }
    }

    /// There are sources that have all files that are known as what they are.
    pub fn some_sources_hold(&self)
        ensures { (sources : Sources) × Holds self.now sources }
    {
        let _entries = &self.entries;
    }

    /// What a file is. It is read where it wasn't read before, and then kept. Failed comes only where the files' count of faults
    /// rose in this call, with the file's path; want of memory is free. The file isn't known after either.
    pub fn content<F: Files>(
        &mut self,
        alloc: Global,
        files: &mut F,
        file: File,
    ) -> Result<Rc<Content>, SearchFault>
        ensures shown { IfOk result (λ content. (s : Source) × Shows content.value s) }
        ensures told { IfOk result (λ content. (sources : Sources) → Holds self.new sources → Shows content.value (sources (file_of file))) }
        ensures steady { Knows (Holds self.old) (Holds self.new) }
        ensures real { Keeps (Holds self.old) (Holds self.new) AreOf (F.told files.old) (F.told files.new) }
        ensures cause { Causes (F.faults files.old) (F.faults files.new) (F.failed files.old) (F.failed files.new) result }
    {
        content_in(alloc, &mut self.entries, files, file)
    }
}
