//! Counting.

ghost use Rattle.std.specs.Prelude.{◌≡◌, ◌||◌, nat_lt, length, List};
ghost use Rattle.qml_syntax.specs.Tree.{Import, Object as AnObject, document};
ghost use Rattle.qml_syntax.specs.Listed.{listed_document};
ghost use Rattle.document_rows.specs.Entries.{AreRows};
ghost use Rattle.document_counts.specs.Counts.{has_too_many as too_many};
ghost use Rattle.document_counts.specs.Bindings.{bindings_in_rows};

use crate::bindings::is_binding;
use document_rows::{DocumentRows, MemberRow, ObjectRow};
use qml_syntax::Tree;

/// The most objects of a document.
const MOST_OBJECTS: usize = 100_000;

/// The most bindings of a document.
const MOST_BINDINGS: usize = 400_000;

fn count_bindings(tree: &Tree, rows: &[MemberRow]) -> usize
    ensures { result ≡ bindings_in_rows tree.now rows.now }
{
    let mut count = 0;
    'rows: for row in rows {
        if is_binding(tree, row) {
            count += 1;
        }
    }
    count
}

fn passes_limits(tree: &Tree, objects: &[ObjectRow], members: &[MemberRow]) -> bool
    ensures { result ≡ (nat_lt 100000 (length objects.now) || nat_lt 400000 (bindings_in_rows tree.now members.now)) }
{
    objects.len() > MOST_OBJECTS || count_bindings(tree, members) > MOST_BINDINGS
}

/// Whether a document has more than 100,000 objects as written, or more than 400,000 values that are no literals under names
/// that are no handlers'. The rows are those of its tree.
pub fn has_too_many(tree: &Tree, rows: &DocumentRows) -> bool
    requires { AreRows tree.now rows.now.objects.items rows.now.members.items }
    ensures { (imports : List Import) (root : AnObject) → listed_document (document imports root) ≡ tree.now → result ≡ too_many root }
{
    passes_limits(tree, rows.objects.as_slice(), rows.members.as_slice())
}
