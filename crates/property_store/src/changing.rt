//! Changes of one cell.

ghost use Rattle.std.specs.Prelude.{◌≡◌};
ghost use Rattle.property_store.specs.Stores.{with_content, with_held};

use qml_value::Value;
use std::mem;
use tree_model::{Cell, Content};

/// Puts a content in the place of the cell's, which it hands back. The spare goes.
pub fn replace(cell: &mut Cell, content: Content) -> Content
    ensures new { cell.new ≡ with_content cell.old content }
    ensures old { result ≡ cell.old.content }
{
    cell.spare = None;
    mem::replace(&mut cell.content, content)
}

/// Puts what the cell holds, with its spare, and hands back the old value.
pub fn hold(cell: &mut Cell, v: Value, spare: Option<Value>) -> Value
    ensures new { cell.new ≡ with_held cell.old v spare }
    ensures old { result ≡ cell.old.held }
{
    cell.spare = spare;
    mem::replace(&mut cell.held, v)
}
