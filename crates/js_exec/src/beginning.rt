//! Bodies that are begun, and that go on.

ghost use Rattle.std.specs.Prelude.{◌≡◌, ◌∷◌, ◌++◌, ◌+◌, [], IfOk};
ghost use Rattle.js_meaning.specs.Eval.{begun_body};
ghost use Rattle.js_meaning.specs.Resuming.{next_action};
ghost use Rattle.js_frames.specs.Standing.{standing};
ghost use Rattle.js_acting.specs.Acting.{Sees};
ghost use Rattle.js_acting.specs.Running.{RunsTo, Begun};
ghost use Rattle.js_acting.specs.Waiting.{meant_by, goes_on, next_behind, HasFewer};

use crate::code::ActingCode;
use crate::effects::finished;
use crate::given::begun_locals;
use crate::moving::run;
use crate::sight::Watch;
use js_acting::{Acted, Behind, Stopped};
use js_frames::{Before, Here, Machine, Next, Stack};
use js_locals::row_behind;
use qml_base::{CALL_LIMIT, ExprNo, Home, NODE_LIMIT, ObjNo};
use qml_text::{NoMemory, Text};
use qml_value::Value;
use std::alloc::Global;

/// Goes on to the end or the next effect, and hands it out.
#[tactic(auto, using(js_acting::proofs::HandingLemmas::runs_to))]
fn run_on<V: Watch, C: ActingCode>(
    machine: Machine,
    alloc: Global,
    view: &V,
    code: &C,
    author: ObjNo,
    here: Here,
    first: Next,
) -> Result<Acted, NoMemory>
    ensures { IfOk result (λ r. RunsTo (record { names = V.names view.now; view = V.seen view.now }) (V.sight view.now) (C.meaning code.now) (C.tables code.now) author here (standing machine) first r) }
{
    let mut machine = machine;
    let mut here = here;
    let next = run(&mut machine, alloc, view, code, &mut here, author, first)?;
    let Some(tree) = code.tree(here.text) else {
        return Err(NoMemory);
    };
    let action = finished(machine, alloc, tree, view, code, author, here, next)?;
    Ok(action)
}

/// The machine at the beginning of a body, and what comes first.
#[tactic(auto, using(js_acting::proofs::BegunLemmas::begins_as))]
fn begun<C: ActingCode>(
    alloc: Global,
    code: &C,
    body: ExprNo,
    names: &[Text],
    args: &[Value],
) -> Result<(Machine, Next), NoMemory>
    ensures { IfOk result (λ b. Begun (C.meaning code.now) (C.tables code.now) body names.now args.now (standing b.0) b.1) }
{
    let Some(tree) = code.tree(body) else {
        return Err(NoMemory);
    };
    let Some(mark) = code.statements(body) else {
        return Err(NoMemory);
    };
    let mut frames = Stack::new(alloc);
    let first = row_behind(tree, mark);
    let places = code.parameters(body);
    let locals = begun_locals(&mut frames, alloc, tree, names, places, args, first)?;
    let machine = Machine {
        frames: Stack::new(alloc),
        reads: Vec::new(alloc),
        left: NODE_LIMIT,
        locals,
    };
    Ok((machine, Next::Rest(mark)))
}

/// Begins a body from its home, with the names of a signal's parameters and its arguments, and goes on by what it sees up to its
/// next effect.
#[tactic(auto, using(js_acting::proofs::BegunLemmas::begins_meant))]
pub fn begin<V: Watch, C: ActingCode>(
    alloc: Global,
    view: &V,
    code: &C,
    body: ExprNo,
    home: Home,
    names: &[Text],
    args: &[Value],
) -> Result<Acted, NoMemory>
    ensures { IfOk result (λ r. Sees (record { names = V.names view.now; view = V.seen view.now }) (V.sight view.now) → meant_by (C.meaning code.now) (C.tables code.now) r ≡ next_action (V.sight view.now) (begun_body (C.meaning code.now) home body names.now args.now)) }
{
    let (machine, first) = begun(alloc, code, body, names, args)?;
    let here = Here {
        home,
        text: body,
        calls: CALL_LIMIT,
    };
    let action = run_on(machine, alloc, view, code, home.author, here, first)?;
    Ok(action)
}

/// What comes next with the answer.
fn next_behind(behind: Behind, answer: Value) -> Next
    ensures { result ≡ next_behind behind answer }
{
    match behind {
        Behind::Step(at) => Next::Step(Before::Value(answer), at),
        Behind::Back(back) => Next::Back(back),
    }
}

/// Hands a waiting body what its effect came to, and goes on up to the next one, with fewer nodes left.
#[tactic(auto, using(js_acting::proofs::BegunLemmas::resumes_meant, js_acting::proofs::BegunLemmas::resumes_fewer))]
pub fn resume<V: Watch, C: ActingCode>(
    alloc: Global,
    view: &V,
    code: &C,
    waiting: Stopped,
    answer: Value,
) -> Result<Acted, NoMemory>
    ensures meant { IfOk result (λ r. Sees (record { names = V.names view.now; view = V.seen view.now }) (V.sight view.now) → meant_by (C.meaning code.now) (C.tables code.now) r ≡ next_action (V.sight view.now) (goes_on (C.meaning code.now) (C.tables code.now) waiting answer)) }
    ensures fewer { IfOk result (λ r. HasFewer waiting.left r) }
{
    let first = next_behind(waiting.behind, answer);
    let machine = Machine {
        frames: waiting.frames,
        reads: Vec::new(alloc),
        left: waiting.left,
        locals: waiting.locals,
    };
    let action = run_on(
        machine,
        alloc,
        view,
        code,
        waiting.author,
        waiting.here,
        first,
    )?;
    Ok(action)
}
