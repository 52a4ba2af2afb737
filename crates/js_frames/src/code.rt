//! The code of all units.

ghost use Rattle.std.specs.Prelude.{◌≡◌, map, IfSome};
ghost use Rattle.qml_base.specs.declared.numbers.ExprNo.{ExprNo};
ghost use Rattle.qml_syntax.specs.Tree.{Whole};
ghost use Rattle.qml_syntax.specs.Nodes.{Table};
ghost use Rattle.qml_syntax.specs.Places.{part_at};
ghost use Rattle.js_meaning.specs.Eval.{Code as Meaning};
ghost use Rattle.js_locals.specs.Laid.{laid, name_of, stmts_in};
ghost use Rattle.js_locals.specs.Texts.{StandsAs};

use qml_base::ExprNo;
use qml_syntax::Tree;

/// The texts and functions of all units, by their numbers.
pub trait Code {
    ghost meaning: { Self → Meaning };

    ghost texts: { Self → ExprNo → Whole };

    ghost tables: { Self → ExprNo → Table };

    /// The tree that a text or a function stands in.
    fn tree(&self, text: ExprNo) -> Option<&Tree>
        ensures { IfSome result (λ t. t.now ≡ tables self.now text) };

    /// Where a text stands there: its node, or that of the `Qt.binding` whose function it is the body of.
    fn place(&self, text: ExprNo) -> usize
        ensures { StandsAs (texts self.now text) (part_at (tables self.now text) result) };

    /// Where the names of a function's parameters stand there, in order.
    fn parameters(&self, function: ExprNo) -> &[usize]
        ensures { map (name_of (laid (tables self.now function))) result.now ≡ ((meaning self.now).function function).parameters };

    /// Where the part stands there behind which a function's statements are. A text that is none has no such part.
    fn statements(&self, function: ExprNo) -> Option<usize>
        ensures { IfSome result (λ mark. stmts_in ((laid (tables self.now function)).rest mark) ≡ ((meaning self.now).function function).statements) };
}
