//! Bodies, action by action.

ghost use Rattle.std.specs.Prelude.{◌≡◌, ◌+◌, ℕ, List, IfOk};
ghost use Rattle.qml_base.specs.declared.numbers.ExprNo.{ExprNo};
ghost use Rattle.qml_base.specs.declared.names.Home.{Home};
ghost use Rattle.qml_value.specs.declared.value.Value.{Value};
ghost use Rattle.evaluation.specs.Ask.{Ask};
ghost use Rattle.js_meaning.specs.Resuming.{next_action};
ghost use Rattle.machine_bodies.specs.Doing.{sight_of, action_meant, HasFewer};

use evaluation::{Effect, Ended};
use live_tree::LiveTree;
use qml_base::{ExprNo, Home, NoMemory, Steps};
use qml_text::Text;
use qml_value::Value;
use std::alloc::Global;
use std::sync::ledger::Ledger;

/// What a body does next, seen from outside.
#[derive(Drop)]
pub enum Action<W> {
    /// An effect, and the body that waits for what it comes to.
    Effect(Effect, W),
    /// Its end.
    End(Ended),
}

/// What runs the bodies of handlers and lines, so that who keeps a machine needs no text of a document. While an effect is done,
/// its body waits as a value of its own, so other bodies may be begun meanwhile.
pub trait Bodies<L: Ledger> {
    /// A body that waits for the answer of an effect.
    type Waiting: Drop;

    ghost asks: { Self → ExprNo → Home → List (List ℕ) → List Value → Ask };

    ghost goes_on: { Self.Waiting → Value → Ask };

    ghost left: { Self.Waiting → ℕ };

    /// Begins a body from its home, with the names of a signal's parameters and its arguments, and goes on by what it sees of the
    /// tree up to its next effect. It takes one step.
    fn begin(
        &mut self,
        alloc: Global,
        tree: &LiveTree,
        body: ExprNo,
        home: Home,
        names: &[Text],
        args: Vec<Value>,
        steps: &mut Steps<L>,
    ) -> Result<Action<Self::Waiting>, NoMemory>
        ensures next { IfOk result (λ action. action_meant goes_on left action ≡ next_action (sight_of tree.now) (asks self.old body home names.now args.items)) }
        ensures same { asks self.new ≡ asks self.old }
        ensures steps { steps.new ≡ steps.old + 1 };

    /// Hands a waiting body what its effect came to, and goes on up to the next one, with fewer nodes left. It takes one step.
    fn resume(
        &mut self,
        alloc: Global,
        tree: &LiveTree,
        waiting: Self::Waiting,
        answer: Value,
        steps: &mut Steps<L>,
    ) -> Result<Action<Self::Waiting>, NoMemory>
        ensures next { IfOk result (λ action. action_meant goes_on left action ≡ next_action (sight_of tree.now) (goes_on waiting answer)) }
        ensures fewer { IfOk result (λ action. HasFewer left (left waiting) action) }
        ensures same { asks self.new ≡ asks self.old }
        ensures steps { steps.new ≡ steps.old + 1 };
}
