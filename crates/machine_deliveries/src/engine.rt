//! What the machine runs on.

use evaluation::Rules;
use machine_bodies::Bodies;
use qml_base::Steps;
use std::sync::ledger::Ledger;
use type_rows::TypeRows;

/// What the machine runs on: the names of built-in types, what evaluates bindings, what runs bodies, and the counter of steps.
#[derive(Drop)]
pub struct Engine<L: Ledger, R: Rules<L> + Drop, B: Bodies<L> + Drop> {
    pub types: TypeRows,
    pub rules: R,
    pub bodies: B,
    pub steps: Steps<L>,
}
