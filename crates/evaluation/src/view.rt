//! What an evaluation reads by, and what evaluates the texts of bindings.

ghost use Rattle.std.specs.Prelude.{◌≡◌, ◌+◌};
ghost use Rattle.qml_base.specs.declared.numbers.ExprNo.{ExprNo};
ghost use Rattle.qml_base.specs.declared.names.Home.{Home};
ghost use Rattle.evaluation.specs.Ask.{Ask, Names};
ghost use Rattle.evaluation.specs.Hearing.{Views, Sees, heard, Answers};

use crate::came::{Evaluated, Seen};
use qml_base::{CellNo, ExprNo, Found, Home, ObjNo, Steps};
use qml_text::Text;
use std::alloc::Global;
use std::sync::ledger::Ledger;

/// What an evaluation reads cells by, and finds names by.
pub trait View {
    ghost seen: { Self → Views };

    ghost names: { Self → Names };

    /// What the cell of this number gives.
    fn read(&self, cell: CellNo) -> Seen<'_>
        ensures { Sees result (seen self.now cell) };

    /// What the name finds, from the ids on (Qt 5.15, Scope and Naming Resolution).
    fn resolve(&self, home: Home, name: &Text) -> Found
        ensures { result ≡ (names self.now).resolve home name.now };

    /// What the object itself has under the name.
    fn member(&self, object: ObjNo, name: &Text) -> Found
        ensures { result ≡ (names self.now).member object name.now };

    /// Whether the name finds what it finds as an id, and not as an alias of a whole object.
    fn is_id(&self, home: Home, name: &Text) -> bool
        ensures { result ≡ (names self.now).is_id home name.now };
}

/// What evaluates the texts of bindings, so that who keeps a tree of objects needs no text of a document.
pub trait Rules<L: Ledger> {
    ghost asks: { Self → ExprNo → Home → Ask };

    /// Evaluates a text by the view, and adds the cells that it read, in order. It takes one step.
    fn eval<V: View>(
        &mut self,
        alloc: Global,
        view: &V,
        home: Home,
        text: ExprNo,
        reads: &mut Vec<CellNo>,
        steps: &mut Steps<L>,
    ) -> Evaluated
        ensures answers { Answers (heard (V.names view.now) (V.seen view.now) (asks self.old text home)) reads.old.items reads.new.items result }
        ensures same { asks self.new ≡ asks self.old }
        ensures steps { steps.new ≡ steps.old + 1 };
}
