//! The texts of all units as code.

ghost use Rattle.std.specs.Prelude.{◌≡◌, slice_get, None, Some, MatchOption};
ghost use Rattle.js_locals.specs.Laid.{laid};
ghost use Rattle.qml_syntax.specs.Nodes.{Table};
ghost use Rattle.unit_rows.specs.declared.body.BodyRow.{BodyRow};
ghost use Rattle.unit_rows.specs.Placed.{ArePlaces, body_in};
ghost use Rattle.unit_code.specs.Code.{placed_in};

use js_frames::Code;
use qml_base::{ExprNo, UnitNo};
use qml_syntax::Tree;
use unit_rows::{Places, Unit};

/// The texts of units, as code.
#[derive(Drop)]
pub struct UnitCode<'a> {
    units: &'a [Unit],
}

impl<'a> UnitCode<'a> {
    /// The code of these units. It takes no memory.
    pub fn over(units: &'a [Unit]) -> UnitCode<'a>
        ensures { result.units.now ≡ units.now }
    {
        UnitCode { units }
    }

    /// The unit of a number.
    #[tactic(auto, using(crate::proofs::CodeLemmas::unit_there, crate::proofs::CodeLemmas::no_unit_there))]
    fn unit(&self, number: UnitNo) -> Option<&Unit>
        ensures { MatchOption result (slice_get self.now.units.now number.0 ≡ None) (λ u. slice_get self.now.units.now number.0 ≡ Some u.now) }
    {
        let at = number.0 as usize;
        if at < self.units.len() {
            Some(&self.units[at])
        } else {
            None
        }
    }

    /// The places of the body of a number.
    fn body(&self, text: ExprNo) -> Option<&Places>
        ensures { MatchOption result (placed_in self.now.units.now text.unit.0 text.at ≡ None) (λ b. (t : Table) × (r : BodyRow) × (placed_in self.now.units.now text.unit.0 text.at ≡ Some (t, r)) × ArePlaces (laid t) (body_in (laid t) r) b.now) }
    {
        match self.unit(text.unit) {
            Some(unit) => unit.bodies.body(text.at),
            None => None,
        }
    }
}

impl<'a> Code for UnitCode<'a> {
    ghost use Rattle.machine_model.specs.Texts.{code_of};
    ghost use Rattle.unit_rows.specs.Seen.{all_seen};
    ghost use Rattle.unit_code.specs.Code.{text_in, table_of};

    ghost meaning = { λ c. code_of (all_seen c.units.now) };

    ghost texts = { λ c text. text_in c.units.now text };

    ghost tables = { λ c text. table_of c.units.now text };

    fn tree(&self, text: ExprNo) -> Option<&Tree> {
        let unit = self.unit(text.unit)?;
        match unit.bodies.body(text.at) {
            Some(_) => Some(unit.bodies.tree()),
            None => None,
        }
    }

    fn place(&self, text: ExprNo) -> usize {
        match self.body(text) {
            Some(places) => places.text,
            None => 1,
        }
    }

    fn parameters(&self, function: ExprNo) -> &[usize] {
        match self.body(function) {
            Some(places) => places.parameters.as_slice(),
            None => &[],
        }
    }

    fn statements(&self, function: ExprNo) -> Option<usize> {
        match self.body(function) {
            Some(places) => places.statements,
            None => None,
        }
    }
}
