//! Rows of imports.

ghost use Rattle.std.specs.Prelude.{◌≡◌, ◌∷◌, ◌++◌, [], map, Some, IfOk, OnOk, List};
ghost use Rattle.std.specs.Option.{option_map, option_to_list, is_some};
ghost use Rattle.qml_syntax.specs.Places.{behind as places_behind, places_of};
ghost use Rattle.qml_syntax.specs.Tree.{Import, Object as AnObject, document};
ghost use Rattle.qml_syntax.specs.Listed.{listed_document};
ghost use Rattle.type_uses.specs.Uses.{node_at, nodes_at, dot_in};
ghost use Rattle.document_imports.specs.Imports.{row_of, row_value, row_values, source_value, text_source as source_by_text, qualifier_in, first_qualifier, dotted, module_from, module_nodes, file_in, file_nodes, row_at as row_by_place, rows_at};

use file_paths::{is_script_text, path_of_text};
use qml_base::{NoMemory, Place};
use qml_syntax::{Node, Tree};
use qml_text::{Text, TextBuilder};
use std::alloc::Global;
use type_uses::{Name, copied, name_at};

/// What an import names.
#[derive(Debug, Drop)]
pub enum ImportSource {
    /// A module.
    Module(Text),
    /// The path of a directory.
    Directory(Vec<u8>),
    /// The path of a script file.
    Script(Vec<u8>),
}

/// An import, with the place of its module's name or of its text.
#[derive(Debug, Drop)]
pub struct ImportRow {
    pub at: Place,
    pub qualifier: Option<Text>,
    pub source: ImportSource,
}

fn qualifier_at(alloc: Global, tree: &Tree, at: usize) -> Result<Option<Text>, NoMemory>
    ensures { IfOk result (λ q. q ≡ qualifier_in (node_at tree.now at)) }
{
    match tree.node(at) {
        Some(Node::Qualifier(text)) => Ok(Some(copied(alloc, text)?)),
        _ => Ok(None),
    }
}

fn qualifier_behind(alloc: Global, tree: &Tree, part: usize) -> Result<Option<Text>, NoMemory>
    ensures { IfOk result (λ q. q ≡ first_qualifier (nodes_at tree.now (places_behind tree.now part))) }
{
    match tree.next(part) {
        Some(next) => qualifier_at(alloc, tree, next),
        None => Ok(None),
    }
}

fn append(name: &mut TextBuilder, more: &Text) -> Result<(), NoMemory>
    ensures { OnOk result (name.new ≡ name.old ++ more.now) }
{
    match name.append(more) {
        Ok(()) => Ok(()),
        Err(_) => Err(NoMemory),
    }
}

fn push_dot(name: &mut TextBuilder) -> Result<(), NoMemory>
    ensures { OnOk result (name.new ≡ name.old ++ 46 ∷ []) }
{
    match name.push_unit(46) {
        Ok(()) => Ok(()),
        Err(_) => Err(NoMemory),
    }
}

/// Adds the name of a node behind a dot: whether it is one.
fn push_dotted(tree: &Tree, at: usize, name: &mut TextBuilder) -> Result<bool, NoMemory>
    ensures { IfOk result (λ found. (found ≡ is_some (dot_in (node_at tree.now at))) ×
        (name.new ≡ name.old ++ dotted (dot_in (node_at tree.now at)))) }
{
    match tree.node(at) {
        Some(Node::Dot(text)) => {
            push_dot(name)?;
            append(name, text)?;
            Ok(true)
        }
        _ => Ok(false),
    }
}

fn finished(alloc: Global, name: TextBuilder) -> Result<Text, NoMemory>
    ensures { IfOk result (λ text. text ≡ name) }
{
    match name.finish(alloc) {
        Ok(text) => Ok(text),
        Err(_) => Err(NoMemory),
    }
}

/// The name of a module that begins so, with what stands behind dots, and its qualifier.
fn module_behind(
    alloc: Global,
    tree: &Tree,
    part: usize,
    first: &Text,
) -> Result<(Text, Option<Text>), NoMemory>
    ensures { IfOk result (λ r. (r.0, r.1) ≡ module_from first.now (nodes_at tree.now (places_behind tree.now part))) }
{
    let mut name = TextBuilder::new(alloc);
    append(&mut name, first)?;
    let mut next = tree.next(part);
    'dots: for _ in 0..u64::MAX {
        let Some(at) = next else {
            return Ok((finished(alloc, name)?, None));
        };
        if !push_dotted(tree, at, &mut name)? {
            let qualifier = qualifier_at(alloc, tree, at)?;
            return Ok((finished(alloc, name)?, qualifier));
        }
        next = tree.next(at);
    }
    Err(NoMemory)
}

fn module_row(alloc: Global, tree: &Tree, part: usize) -> Result<ImportRow, NoMemory>
    ensures { IfOk result (λ r. Some (row_value r) ≡ module_nodes (nodes_at tree.now (part ∷ places_behind tree.now part))) }
{
    let first = name_at(alloc, tree, part)?;
    let (name, qualifier) = module_behind(alloc, tree, part, &first.text)?;
    Ok(ImportRow {
        at: first.at,
        qualifier,
        source: ImportSource::Module(name),
    })
}

fn text_source(alloc: Global, here: &[u8], text: &Text) -> Result<ImportSource, NoMemory>
    ensures { IfOk result (λ s. source_value s ≡ source_by_text here.now text.now) }
{
    let path = path_of_text(alloc, here, text)?;
    if is_script_text(text) {
        Ok(ImportSource::Script(path))
    } else {
        Ok(ImportSource::Directory(path))
    }
}

fn file_at(alloc: Global, tree: &Tree, at: usize) -> Result<Name, NoMemory>
    ensures { IfOk result (λ name. name ≡ file_in (node_at tree.now at)) }
{
    match tree.node(at) {
        Some(Node::File(text, place)) => Ok(Name {
            text: copied(alloc, text)?,
            at: *place,
        }),
        _ => Ok(Name {
            text: Text::new(),
            at: Place { line: 0, column: 0 },
        }),
    }
}

fn file_row(alloc: Global, tree: &Tree, here: &[u8], part: usize) -> Result<ImportRow, NoMemory>
    ensures { IfOk result (λ r. Some (row_value r) ≡
        file_nodes here.now (nodes_at tree.now (part ∷ places_behind tree.now part))) }
{
    let file = file_at(alloc, tree, part)?;
    let source = text_source(alloc, here, &file.text)?;
    let qualifier = qualifier_behind(alloc, tree, part)?;
    Ok(ImportRow {
        at: file.at,
        qualifier,
        source,
    })
}

/// The row of an import, if the node is one.
fn row_at(alloc: Global, tree: &Tree, here: &[u8], at: usize) -> Result<Option<ImportRow>, NoMemory>
    ensures { IfOk result (λ r. option_map row_value r ≡ row_by_place here.now tree.now at) }
{
    match tree.node(at) {
        Some(Node::ImportModule(_, _)) => match tree.first(at) {
            Some(part) => Ok(Some(module_row(alloc, tree, part)?)),
            None => Ok(None),
        },
        Some(Node::ImportFile(_)) => match tree.first(at) {
            Some(part) => Ok(Some(file_row(alloc, tree, here, part)?)),
            None => Ok(None),
        },
        _ => Ok(None),
    }
}

fn push_row(
    alloc: Global,
    tree: &Tree,
    here: &[u8],
    at: usize,
    rows: &mut Vec<ImportRow>,
) -> Result<(), NoMemory>
    ensures { OnOk result (row_values rows.new.items ≡
        row_values rows.old.items ++ option_to_list (row_by_place here.now tree.now at)) }
{
    if let Some(row) = row_at(alloc, tree, here, at)? {
        rows.push(row)?;
    }
    Ok(())
}

/// The rows of the parts of a node.
fn rows_of_parts(
    alloc: Global,
    tree: &Tree,
    here: &[u8],
    at: usize,
) -> Result<Vec<ImportRow>, NoMemory>
    ensures { IfOk result (λ rows. row_values rows.items ≡ rows_at here.now tree.now (places_of tree.now at)) }
{
    let mut rows = Vec::new(alloc);
    let mut next = tree.first(at);
    'parts: for _ in 0..u64::MAX {
        let Some(part) = next else {
            return Ok(rows);
        };
        push_row(alloc, tree, here, part, &mut rows)?;
        next = tree.next(part);
    }
    Err(NoMemory)
}

/// The imports of a document in the order of writing; their paths are found from this directory.
pub fn imports_of(alloc: Global, tree: &Tree, here: &[u8]) -> Result<Vec<ImportRow>, NoMemory>
    ensures { (imports : List Import) (root : AnObject) → listed_document (document imports root) ≡ tree.now →
        IfOk result (λ rows. row_values rows.items ≡ map (row_of here.now) imports) }
{
    rows_of_parts(alloc, tree, here, tree.root())
}
