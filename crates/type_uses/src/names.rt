//! Names at the nodes of a tree.

ghost use Rattle.std.specs.Prelude.{◌≡◌, IfOk};
ghost use Rattle.std.specs.Option.{is_some};
ghost use Rattle.qml_syntax.specs.Places.{behind};
ghost use Rattle.qml_types.specs.Kinds.{basic_kind as basic};
ghost use Rattle.type_uses.specs.Uses.{node_at, nodes_at, name_in, dot_in, first_dot, some_name};

use file_paths::ascii_name;
use qml_base::{NoMemory, Place};
use qml_syntax::{Node, Tree};
use qml_text::Text;
use qml_types::basic_kind;
use std::alloc::Global;

/// A place that no token has.
pub const NOWHERE: Place = Place { line: 0, column: 0 };

/// The first name of a path, with its place.
#[derive(Debug, Drop)]
pub struct Name {
    pub text: Text,
    pub at: Place,
}

/// The same text.
pub fn copied(alloc: Global, text: &Text) -> Result<Text, NoMemory>
    ensures { IfOk result (λ copy. copy ≡ text.now) }
{
    match text.copy(alloc) {
        Ok(copy) => Ok(copy),
        Err(_) => Err(NoMemory),
    }
}

/// The name of a node that is the first of a path.
pub fn name_at(alloc: Global, tree: &Tree, at: usize) -> Result<Name, NoMemory>
    ensures { IfOk result (λ name. name ≡ name_in (node_at tree.now at)) }
{
    match tree.node(at) {
        Some(Node::First(text, place)) => Ok(Name {
            text: copied(alloc, text)?,
            at: *place,
        }),
        _ => Ok(Name {
            text: Text::new(),
            at: NOWHERE,
        }),
    }
}

/// The name of a node behind a dot.
fn dot_at(alloc: Global, tree: &Tree, at: usize) -> Result<Option<Text>, NoMemory>
    ensures { IfOk result (λ name. name ≡ dot_in (node_at tree.now at)) }
{
    match tree.node(at) {
        Some(Node::Dot(text)) => Ok(Some(copied(alloc, text)?)),
        _ => Ok(None),
    }
}

/// The name behind a dot, where nothing else is there.
pub fn dot_name_at(alloc: Global, tree: &Tree, at: usize) -> Result<Text, NoMemory>
    ensures { IfOk result (λ name. name ≡ some_name (dot_in (node_at tree.now at))) }
{
    match dot_at(alloc, tree, at)? {
        Some(name) => Ok(name),
        None => Ok(Text::new()),
    }
}

/// The name behind the dot behind a part, if there is one.
pub fn dot_behind(alloc: Global, tree: &Tree, part: usize) -> Result<Option<Text>, NoMemory>
    ensures { IfOk result (λ name. name ≡ first_dot (nodes_at tree.now (behind tree.now part))) }
{
    match tree.next(part) {
        Some(next) => dot_at(alloc, tree, next),
        None => Ok(None),
    }
}

/// Whether the name is that of a kind that is no type.
pub fn is_basic_kind(alloc: Global, name: &Text) -> Result<bool, NoMemory>
    ensures { IfOk result (λ b. b ≡ is_some (basic name.now)) }
{
    match ascii_name(alloc, name)? {
        Some(ascii) => Ok(basic_kind(&ascii).is_some()),
        None => Ok(false),
    }
}
