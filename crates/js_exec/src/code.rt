//! The code of bodies.

ghost use Rattle.std.specs.Prelude.{◌≡◌, ℕ, List, IfOk};
ghost use Rattle.qml_base.specs.declared.numbers.ExprNo.{ExprNo};

use js_frames::Code;
use qml_base::{ExprNo, Place};
use qml_text::{NoMemory, Text};
use std::alloc::Global;

/// The code of all units, with the functions that `Qt.binding`s assign, and the names of the parameters with which bodies are begun.
pub trait ActingCode: Code {
    ghost begun_names: { Self → ExprNo → List (List ℕ) → List (List ℕ) };

    /// The function of the `Qt.binding` whose call stands at a place of the text.
    fn bound(&self, text: ExprNo, place: Place) -> ExprNo
        ensures { result ≡ (Self.meaning self.now).bound text place };

    /// The names with which a body is begun before its own parameters, by those of the signal that it runs for.
    fn given_names(
        &self,
        alloc: Global,
        text: ExprNo,
        names: &[Text],
    ) -> Result<Vec<Text>, NoMemory>
        ensures { IfOk result (λ given. given.items ≡ begun_names self.now text names.now) };
}
