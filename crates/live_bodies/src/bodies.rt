//! Bodies, action by action.

ghost use Rattle.std.specs.Prelude.{◌≡◌, ℕ, Some, IfOk};
ghost use Rattle.qml_value.specs.declared.value.Value.{Value as AValue};
ghost use Rattle.js_meaning.specs.Eval.{begun_body};
ghost use Rattle.js_meaning.specs.Resuming.{next_action};
ghost use Rattle.machine_bodies.specs.Doing.{sight_of, action_meant, HasFewer};
ghost use Rattle.js_acting.specs.Waiting.{goes_on, meant_by, HasFewer as HasFewerActed};

use crate::sight::TreeSight;
use evaluation::{Effect, Ended};
use js_acting::{Acted, Stopped};
use js_exec::{ActingCode, begin, resume};
use live_tree::LiveTree;
use machine_bodies::{Action, Bodies};
use qml_base::{ExprNo, Home, NoMemory, Steps};
use qml_text::{NoMemory as OutOfMemory, Text};
use qml_value::Value;
use std::alloc::Global;
use std::sync::ledger::Ledger;

/// A body that waits, with the code that it is of.
#[derive(Drop)]
pub struct Waiting<'a, C> {
    code: &'a C,
    stopped: Stopped,
}

/// The running of the bodies of this code.
#[derive(Drop)]
pub struct LiveBodies<'a, C> {
    code: &'a C,
}

impl<'a, C> LiveBodies<'a, C> {
    /// The bodies of this code. It takes no memory.
    pub fn over(code: &'a C) -> LiveBodies<'a, C>
        ensures { result.code.now ≡ code.now }
    {
        LiveBodies { code }
    }
}

/// An action of a body of this code.
fn action_of<'a, C: ActingCode>(code: &'a C, acted: Acted) -> Action<Waiting<'a, C>>
    ensures meant { action_meant (λ w v. goes_on (C.meaning w.code.now) (C.tables w.code.now) w.stopped v) (λ w. w.stopped.left) result ≡ meant_by (C.meaning code.now) (C.tables code.now) acted }
    ensures fewer { (n : ℕ) → HasFewerActed n acted → HasFewer (λ w. w.stopped.left) n result }
{
    match acted {
        Acted::Effect(effect, stopped) => Action::Effect(effect, Waiting { code, stopped }),
        Acted::End(ended) => Action::End(ended),
    }
}

/// Begins a body by a view of a tree.
fn begun_by<'t, C: ActingCode>(
    alloc: Global,
    view: &TreeSight<'t>,
    code: &C,
    body: ExprNo,
    home: Home,
    names: Vec<Text>,
    args: Vec<Value>,
) -> Result<Acted, OutOfMemory>
    requires { view.now.nothing ≡ Value.Undefined }
    ensures { IfOk result (λ acted. meant_by (C.meaning code.now) (C.tables code.now) acted ≡ next_action (sight_of view.now.tree.now) (begun_body (C.meaning code.now) home body names.items args.items)) }
{
    let acted = begin(
        alloc,
        view,
        code,
        body,
        home,
        names.as_slice(),
        args.as_slice(),
    )?;
    Ok(acted)
}

/// Begins a body and goes on by what it sees of the tree.
fn begun<C: ActingCode>(
    alloc: Global,
    tree: &LiveTree,
    code: &C,
    body: ExprNo,
    home: Home,
    names: &[Text],
    args: Vec<Value>,
) -> Result<Acted, OutOfMemory>
    ensures { IfOk result (λ acted. meant_by (C.meaning code.now) (C.tables code.now) acted ≡ next_action (sight_of tree.now) (begun_body (C.meaning code.now) home body (C.begun_names code.now body names.now) args.items)) }
{
    let given = code.given_names(alloc, body, names)?;
    let view = TreeSight::of(tree);
    let acted = begun_by(alloc, &view, code, body, home, given, args)?;
    Ok(acted)
}

/// Hands a waiting body what its effect came to, by a view of a tree.
fn resumed_by<'t, C: ActingCode>(
    alloc: Global,
    view: &TreeSight<'t>,
    code: &C,
    waiting: Stopped,
    answer: Value,
) -> Result<Acted, OutOfMemory>
    requires { view.now.nothing ≡ Value.Undefined }
    ensures next { IfOk result (λ acted. meant_by (C.meaning code.now) (C.tables code.now) acted ≡ next_action (sight_of view.now.tree.now) (goes_on (C.meaning code.now) (C.tables code.now) waiting answer)) }
    ensures fewer { IfOk result (λ acted. HasFewerActed waiting.left acted) }
{
    let acted = resume(alloc, view, code, waiting, answer)?;
    Ok(acted)
}

/// Hands a waiting body what its effect came to.
fn resumed<C: ActingCode>(
    alloc: Global,
    tree: &LiveTree,
    code: &C,
    waiting: Stopped,
    answer: Value,
) -> Result<Acted, OutOfMemory>
    ensures next { IfOk result (λ acted. meant_by (C.meaning code.now) (C.tables code.now) acted ≡ next_action (sight_of tree.now) (goes_on (C.meaning code.now) (C.tables code.now) waiting answer)) }
    ensures fewer { IfOk result (λ acted. HasFewerActed waiting.left acted) }
{
    let view = TreeSight::of(tree);
    let acted = resumed_by(alloc, &view, code, waiting, answer)?;
    Ok(acted)
}

impl<'a, C: ActingCode, L: Ledger> Bodies<L> for LiveBodies<'a, C> {
    type Waiting = Waiting<'a, C>;

    ghost asks = { λ b body home names args. begun_body (C.meaning b.code.now) home body (C.begun_names b.code.now body names) args };

    ghost goes_on = { λ w v. goes_on (C.meaning w.code.now) (C.tables w.code.now) w.stopped v };

    ghost left = { λ w. w.stopped.left };

    fn begin(
        &mut self,
        alloc: Global,
        tree: &LiveTree,
        body: ExprNo,
        home: Home,
        names: &[Text],
        args: Vec<Value>,
        steps: &mut Steps<L>,
    ) -> Result<Action<Waiting<'a, C>>, NoMemory> {
        steps.tick();
        match begun(alloc, tree, self.code, body, home, names, args) {
            Ok(acted) => Ok(action_of(self.code, acted)),
            Err(_) => Err(NoMemory),
        }
    }

    fn resume(
        &mut self,
        alloc: Global,
        tree: &LiveTree,
        waiting: Waiting<'a, C>,
        answer: Value,
        steps: &mut Steps<L>,
    ) -> Result<Action<Waiting<'a, C>>, NoMemory> {
        steps.tick();
        let code = waiting.code;
        match resumed(alloc, tree, code, waiting.stopped, answer) {
            Ok(acted) => Ok(action_of(code, acted)),
            Err(_) => Err(NoMemory),
        }
    }
}
