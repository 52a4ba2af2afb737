//! Evaluation of whole texts.

ghost use Rattle.std.specs.Prelude.{◌≡◌, ◌+◌, []};
ghost use Rattle.evaluation.specs.Hearing.{heard, Answers};
ghost use Rattle.js_meaning.specs.Eval.{asks_whole};
ghost use Rattle.js_frames.specs.Stepping.{IsOutcome, EndsAs};

use crate::directly::directly;
use crate::running::run_from;
use crate::starting::start;
use evaluation::{Evaluated, Rules, View};
use js_frames::{Code, Here, Machine, Next, Stack};
use js_locals::Locals;
use qml_base::{CALL_LIMIT, CellNo, ExprNo, Home, NODE_LIMIT, Steps};
use qml_syntax::Tree;
use std::alloc::Global;
use std::mem;
use std::sync::ledger::Ledger;

/// What has ended.
fn outcome(next: Next) -> Evaluated
    ensures { IsOutcome next result }
{
    match next {
        Next::Ended(outcome) => outcome,
        _ => Evaluated::NoMemory,
    }
}

/// No frame, in the room of these.
fn cleared(frames: Stack) -> Stack
    ensures { result ≡ [] }
{
    let mut frames = frames;
    'frames: while let Some(_) = frames.pop() {}
    frames
}

/// Goes on from what a text begins with to its end. The room of the frames and of the locals is given back.
#[tactic(auto, using(js_frames::proofs::EndLemmas::ends_as, js_frames::proofs::EndLemmas::no_answer))]
fn run_to_end<V: View, C: Code>(
    alloc: Global,
    view: &V,
    code: &C,
    here: Here,
    locals: Locals,
    first: Next,
    frames: &mut Stack,
    reads: &mut Vec<CellNo>,
) -> Evaluated
    requires { frames.now ≡ [] }
    ensures { EndsAs (record { names = V.names view.now; view = V.seen view.now }) (C.meaning code.now) (C.tables code.now) here locals first reads.old.items reads.new.items result }
{
    let mut here = here;
    let mut machine = Machine {
        frames: mem::replace(frames, Stack::new(alloc)),
        reads: mem::replace(reads, Vec::new(alloc)),
        left: NODE_LIMIT,
        locals,
    };
    let ended = run_from(&mut machine, alloc, view, code, &mut here, first);
    *reads = machine.reads;
    *frames = machine.frames;
    frames.keep_locals(machine.locals);
    match ended {
        Ok(next) => outcome(next),
        Err(_) => Evaluated::NoMemory,
    }
}

/// Evaluates a text by a view, as `eval`, with frames in the room of these.
#[tactic(auto, using(js_frames::proofs::EndLemmas::evaluates))]
fn eval_over<V: View, C: Code, L: Ledger>(
    alloc: Global,
    view: &V,
    code: &C,
    home: Home,
    text: ExprNo,
    frames: &mut Stack,
    reads: &mut Vec<CellNo>,
    steps: &mut Steps<L>,
) -> Evaluated
    requires none { frames.now ≡ [] }
    ensures answers { Answers (heard (V.names view.now) (V.seen view.now) (asks_whole (C.meaning code.now) home text (C.texts code.now text))) reads.old.items reads.new.items result }
    ensures steps { steps.new ≡ steps.old + 1 }
{
    steps.tick();
    let Some(tree) = code.tree(text) else {
        return Evaluated::NoMemory;
    };
    let Ok(begun) = start(frames, alloc, tree, code.place(text)) else {
        return Evaluated::NoMemory;
    };
    let (locals, first) = begun;
    let here = Here {
        home,
        text,
        calls: CALL_LIMIT,
    };
    run_to_end(alloc, view, code, here, locals, first, frames, reads)
}

/// Evaluates a text by a view, and adds the cells that it read, in order. It takes one step.
pub fn eval<V: View, C: Code, L: Ledger>(
    alloc: Global,
    view: &V,
    code: &C,
    home: Home,
    text: ExprNo,
    reads: &mut Vec<CellNo>,
    steps: &mut Steps<L>,
) -> Evaluated
    ensures answers { Answers (heard (V.names view.now) (V.seen view.now) (asks_whole (C.meaning code.now) home text (C.texts code.now text))) reads.old.items reads.new.items result }
    ensures steps { steps.new ≡ steps.old + 1 }
{
    match directly(alloc, view, code, home, text, reads) {
        Some(answer) => {
            steps.tick();
            answer
        }
        None => {
            let mut frames = Stack::new(alloc);
            eval_over(alloc, view, code, home, text, &mut frames, reads, steps)
        }
    }
}

/// The evaluation of the texts of units. It keeps the room of its frames, and what calls and
/// blocks needed, from one text to the next.
#[derive(Drop)]
pub struct UnitRules<'a, C> {
    code: &'a C,
    frames: Option<Stack>,
}

impl<'a, C> UnitRules<'a, C> {
    /// The evaluation of the texts of these units. It takes no memory.
    pub fn over(code: &'a C) -> UnitRules<'a, C>
        ensures { result.code.now ≡ code.now }
    {
        UnitRules { code, frames: None }
    }

    /// No frame, in the room that was kept.
    fn room(&mut self, alloc: Global) -> Stack
        ensures frames { result ≡ [] }
        ensures code { self.new.code.now ≡ self.old.code.now }
    {
        match mem::replace(&mut self.frames, None) {
            Some(frames) => cleared(frames),
            None => Stack::new(alloc),
        }
    }
}

impl<'a, C: Code> UnitRules<'a, C> {
    /// Evaluates a text with frames in the room that is kept.
    fn eval_in_room<V: View, L: Ledger>(
        &mut self,
        alloc: Global,
        view: &V,
        home: Home,
        text: ExprNo,
        reads: &mut Vec<CellNo>,
        steps: &mut Steps<L>,
    ) -> Evaluated
        ensures answers { Answers (heard (V.names view.now) (V.seen view.now) (asks_whole (C.meaning self.old.code.now) home text (C.texts self.old.code.now text))) reads.old.items reads.new.items result }
        ensures steps { steps.new ≡ steps.old + 1 }
        ensures code { self.new.code.now ≡ self.old.code.now }
    {
        let mut frames = self.room(alloc);
        let answer = eval_over(
            alloc,
            view,
            self.code,
            home,
            text,
            &mut frames,
            reads,
            steps,
        );
        self.frames = Some(frames);
        answer
    }
}

impl<'a, C: Code, L: Ledger> Rules<L> for UnitRules<'a, C> {
    ghost asks = { λ r text home. asks_whole (C.meaning r.code.now) home text (C.texts r.code.now text) };

    fn eval<V: View>(
        &mut self,
        alloc: Global,
        view: &V,
        home: Home,
        text: ExprNo,
        reads: &mut Vec<CellNo>,
        steps: &mut Steps<L>,
    ) -> Evaluated {
        match directly(alloc, view, self.code, home, text, reads) {
            Some(answer) => {
                steps.tick();
                answer
            }
            None => self.eval_in_room(alloc, view, home, text, reads, steps),
        }
    }
}
