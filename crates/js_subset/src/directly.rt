//! Texts that need no machine.

ghost use Rattle.std.specs.Prelude.{◌≡◌, MatchOption};
ghost use Rattle.evaluation.specs.Hearing.{heard, Answers};
ghost use Rattle.js_meaning.specs.Eval.{asks_whole};

use crate::starting::begins_at;
use evaluation::{Evaluated, View};
use js_direct::{whole_ended, whole_value};
use js_frames::Code;
use js_locals::Locals;
use qml_base::{CellNo, ExprNo, Home};
use std::alloc::Global;

/// What a text comes to that is an operator between two operands that show numbers, with the cells that it reads; nothing is
/// noted for another text.
#[inline]
pub(crate) fn directly<V: View, C: Code>(
    alloc: Global,
    view: &V,
    code: &C,
    home: Home,
    text: ExprNo,
    reads: &mut Vec<CellNo>,
) -> Option<Evaluated>
    ensures { MatchOption result (reads.new.items ≡ reads.old.items)
        (λ o. Answers (heard (V.names view.now) (V.seen view.now) (asks_whole (C.meaning code.now) home text (C.texts code.now text))) reads.old.items reads.new.items o) }
{
    let Some(tree) = code.tree(text) else {
        return None;
    };
    let Some(at) = begins_at(tree, code.place(text)) else {
        return None;
    };
    let locals = Locals::new(alloc);
    let Some(it) = whole_value(view, &locals, tree, home, at) else {
        return None;
    };
    Some(whole_ended(reads, it))
}
