//! The tables of one file.

ghost use Rattle.std.specs.Prelude.{◌≡◌, true, [], IfOk};
ghost use Rattle.qml_syntax.specs.Tree.{Document};
ghost use Rattle.qml_syntax.specs.Listed.{listed_document};
ghost use Rattle.program_names.specs.Reading.{Source, is_document};
ghost use Rattle.program_names.specs.Loaded.{unit_of};
ghost use Rattle.file_sources.specs.Contents.{Shows};
ghost use Rattle.document_rows.specs.Entries.{IsDocument};
ghost use Rattle.read_order.specs.Order.{file_of};
ghost use Rattle.document_tables.specs.Tables.{TableOf, is_nothing, tree_in};

use crate::groups::insides;
use crate::rows::{object_types, unit_rows};
use crate::types::nameless_type;
use document_imports::imports_of;
use document_rows::{ObjectRow, document_rows};
use file_paths::directory_of;
use file_sources::Content;
use program_tables::{UnitNames, UnitRow, unit_names};
use program_types::ProgramFiles;
use qml_base::NoMemory;
use qml_syntax::Tree;
use read_order::File;
use std::alloc::Global;

/// What is made of a file: what its objects declare, the rows of its objects and of its members, and of each of these whether it
/// stands in a group.
#[derive(Drop)]
pub struct UnitTable {
    pub names: UnitNames,
    pub objects: Vec<ObjectRow>,
    pub rows: Vec<UnitRow>,
    pub inside: Vec<bool>,
}

/// The table of a document by its tree. Want of memory is the one other answer.
pub fn document_table(
    alloc: Global,
    program: &ProgramFiles,
    file: &File,
    tree: &Tree,
) -> Result<UnitTable, NoMemory>
    requires { IsDocument tree.now }
    ensures { (d : Document) → listed_document d ≡ tree.now →
        IfOk result (λ made. TableOf program.now (unit_of (file_of file.now) (is_document d)) tree.now made.names made.objects.items made.rows.items made.inside.items) }
{
    let here = directory_of(&file.path);
    let imports = imports_of(alloc, tree, here)?;
    let found = document_rows(alloc, tree)?;
    let bases = object_types(alloc, program, here, &imports, tree, &found.objects)?;
    let rows = unit_rows(alloc, program, here, &imports, tree, &found.members)?;
    let inside = insides(alloc, &rows)?;
    let names = unit_names(alloc, &bases, &rows)?;
    Ok(UnitTable {
        names,
        objects: found.objects,
        rows,
        inside,
    })
}

/// The table of a file that isn't a document. It has one object, with no name of a type and no members.
pub fn empty_table(
    alloc: Global,
    program: &ProgramFiles,
    file: &File,
) -> Result<UnitTable, NoMemory>
    ensures { (s : Source) → is_nothing s ≡ true → IfOk result (λ made. TableOf program.now (unit_of (file_of file.now) s) [] made.names made.objects.items made.rows.items made.inside.items) }
{
    let base = nameless_type(alloc, program, directory_of(&file.path))?;
    let mut bases = Vec::new(alloc);
    bases.push(base)?;
    let rows = Vec::new(alloc);
    let names = unit_names(alloc, &bases, &rows)?;
    let inside = Vec::new(alloc);
    let mut objects = Vec::new(alloc);
    objects.push(ObjectRow { node: 0, row: None })?;
    Ok(UnitTable {
        names,
        objects,
        rows,
        inside,
    })
}

/// The table of a file by what it is.
pub fn file_table(
    alloc: Global,
    program: &ProgramFiles,
    file: &File,
    content: &Content,
) -> Result<UnitTable, NoMemory>
    requires { (s : Source) × Shows content.now s }
    ensures { (s : Source) → Shows content.now s → IfOk result (λ made. TableOf program.now (unit_of (file_of file.now) s) (tree_in content.now) made.names made.objects.items made.rows.items made.inside.items) }
{
    match content {
        Content::Document(tree) => document_table(alloc, program, file, tree),
        Content::Missing => empty_table(alloc, program, file),
        Content::TooLarge => empty_table(alloc, program, file),
        Content::Unread { at: _, cause: _ } => empty_table(alloc, program, file),
        Content::Script(_) => empty_table(alloc, program, file),
    }
}
