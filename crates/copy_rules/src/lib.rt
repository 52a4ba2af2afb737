//! Texts that copy a cell, for programs and tests that settle trees without documents. `Copies` evaluates a text of unit 0 to
//! the value of the scope object's cell at the text's number, one of unit 1 to a throw, and any other to a number past the
//! limit (`specs/Copying.antt`). It is no part of the product.
#![tactic(auto)]

use evaluation::{Evaluated, Rules, View};
use qml_base::{Cause, CellNo, ExprNo, Home, Steps};
use std::alloc::Global;
use std::sync::ledger::Ledger;
use tree_settling::value_of;

/// Evaluates texts that copy a cell.
#[derive(Drop)]
pub struct Copies;

impl<L: Ledger> Rules<L> for Copies {
    ghost use Rattle.copy_rules.specs.Copying.{copy_asks};

    ghost asks = { λ _. copy_asks };

    fn eval<V: View>(
        &mut self,
        alloc: Global,
        view: &V,
        home: Home,
        text: ExprNo,
        reads: &mut Vec<CellNo>,
        steps: &mut Steps<L>,
    ) -> Evaluated {
        steps.tick();
        match text.unit.0 {
            0 => value_of(
                alloc,
                view,
                CellNo {
                    object: home.scope,
                    place: text.at,
                },
                reads,
            ),
            1 => Evaluated::Threw(Cause::Name),
            _ => Evaluated::Past,
        }
    }
}
