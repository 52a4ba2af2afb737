//! Assignments, and the assignment of a `Qt.binding`.

ghost use Rattle.std.specs.Prelude.{◌≡◌, ◌∷◌, [], IfOk, OnOk};
ghost use Rattle.qml_scope.specs.Shapes.{types_among};
ghost use Rattle.tree_model.specs.Converting.{convert_of};
ghost use Rattle.machine_model.specs.Acts.{Act};
ghost use Rattle.machine_model.specs.Bodies as bodies;
ghost use Rattle.machine_model.specs.Emission.{Below, write as written};
ghost use Rattle.machine_state.specs.Keeping.{machine_of, Ready};
ghost use Rattle.machine_state.specs.Leading.{Leads};
ghost use Rattle.machine_effects.specs.Acting.{left_of, kind_among};

use crate::access::{cell_to_write, may_be_written};
use crate::acting::{Effected, throws};
use evaluation::{Came, Rules};
use live_tree::LiveTree;
use machine_state::State;
use machine_steps::Fault;
use machine_writes::write;
use qml_base::{Cause, CellNo, ExprNo, Home, NoMemory, Steps};
use qml_types::PropKind;
use qml_value::Value;
use signal_dispatch::is_condemned;
use std::alloc::Global;
use std::sync::ledger::Ledger;
use tree_model::{Binding, Content, Rule};
use tree_settling::convert_value;

/// What a cell becomes where it is given the value.
#[tactic(auto, using(crate::proofs::WritingLemmas::of_kind, crate::proofs::WritingLemmas::of_no_kind))]
fn converted(alloc: Global, tree: &LiveTree, c: CellNo, v: Value) -> Result<Came, NoMemory>
    ensures { IfOk result (λ came. came ≡ convert_of (types_among tree.now.known.told) (kind_among tree.now.tree.cells c) v) }
{
    if tree.has_cell(c) {
        convert_value(alloc, tree.shapes(), tree.kind(c), v)
    } else {
        convert_value(alloc, tree.shapes(), &PropKind::Var, v)
    }
}

/// One content for a cell.
fn single(alloc: Global, to: CellNo, content: Content) -> Result<Vec<(CellNo, Content)>, NoMemory>
    ensures { IfOk result (λ contents. contents.items ≡ (to, content) ∷ []) }
{
    let mut contents = Vec::new(alloc);
    contents.push((to, content))?;
    Ok(contents)
}

/// Writes a content, up to the signals of the changes.
fn put<'a, L: Ledger, R: Rules<L>>(
    alloc: Global,
    state: &mut State<'a>,
    to: CellNo,
    content: Content,
    rules: &mut R,
    steps: &mut Steps<L>,
) -> Result<Effected, Fault>
    requires { Ready (R.asks rules.old) state.old }
    ensures puts { (below : Below) → Leads (bodies.after (written below ((to, content) ∷ [])) (machine_of state.old)) result (left_of below) (machine_of state.new) }
    ensures ready { OnOk result (Ready (R.asks rules.old) state.new) }
    ensures units { OnOk result ((machine_of state.new).units ≡ (machine_of state.old).units) }
    ensures same { R.asks rules.new ≡ R.asks rules.old }
{
    let contents = single(alloc, to, content)?;
    match write(alloc, state, contents, rules, steps) {
        Ok(changed) => Ok(Effected::Changes(changed)),
        Err(fault) => Err(fault),
    }
}

/// Writes what the value became.
fn assign_converted<'a, L: Ledger, R: Rules<L>>(
    alloc: Global,
    state: &mut State<'a>,
    c: CellNo,
    came: Came,
    rules: &mut R,
    steps: &mut Steps<L>,
) -> Result<Effected, Fault>
    requires { Ready (R.asks rules.old) state.old }
    ensures puts { (below : Below) → Leads (bodies.assign_converted below c came (machine_of state.old)) result (left_of below) (machine_of state.new) }
    ensures ready { OnOk result (Ready (R.asks rules.old) state.new) }
    ensures units { OnOk result ((machine_of state.new).units ≡ (machine_of state.old).units) }
    ensures same { R.asks rules.new ≡ R.asks rules.old }
{
    match came {
        Came::Value(v) => {
            let to = cell_to_write(state, c);
            put(alloc, state, to, Content::Plain(v), rules, steps)
        }
        Came::Threw(why) => Ok(throws(why)),
        Came::Loop => Ok(throws(Cause::Kind)),
        Came::Past => Ok(throws(Cause::Kind)),
    }
}

/// An assignment: the value is converted to the kind of the property, and written. Of the causes, that the object is condemned
/// comes before that the property is readonly, and that before the kind.
pub fn assign<'a, L: Ledger, R: Rules<L>>(
    alloc: Global,
    state: &mut State<'a>,
    c: CellNo,
    v: Value,
    rules: &mut R,
    steps: &mut Steps<L>,
) -> Result<Effected, Fault>
    requires { Ready (R.asks rules.old) state.old }
    ensures puts { (below : Below) → Leads (bodies.assign below c v (machine_of state.old)) result (left_of below) (machine_of state.new) }
    ensures ready { OnOk result (Ready (R.asks rules.old) state.new) }
    ensures units { OnOk result ((machine_of state.new).units ≡ (machine_of state.old).units) }
    ensures same { R.asks rules.new ≡ R.asks rules.old }
{
    if is_condemned(state, c.object) {
        return Ok(throws(Cause::Gone));
    }
    let writable = may_be_written(alloc, state, c)?;
    if !writable {
        return Ok(throws(Cause::Readonly));
    }
    let came = converted(alloc, &state.tree, c, v)?;
    assign_converted(alloc, state, c, came, rules, steps)
}

/// The assignment of a `Qt.binding` (Qt 5.15, Qt.binding): the cell is bound to the function, as if its author had written it.
pub fn rebind<'a, L: Ledger, R: Rules<L>>(
    alloc: Global,
    state: &mut State<'a>,
    c: CellNo,
    text: ExprNo,
    home: Home,
    rules: &mut R,
    steps: &mut Steps<L>,
) -> Result<Effected, Fault>
    requires { Ready (R.asks rules.old) state.old }
    ensures puts { (below : Below) → Leads (bodies.rebind below c text home (machine_of state.old)) result (left_of below) (machine_of state.new) }
    ensures ready { OnOk result (Ready (R.asks rules.old) state.new) }
    ensures units { OnOk result ((machine_of state.new).units ≡ (machine_of state.old).units) }
    ensures same { R.asks rules.new ≡ R.asks rules.old }
{
    if is_condemned(state, c.object) {
        return Ok(throws(Cause::Gone));
    }
    let writable = may_be_written(alloc, state, c)?;
    if !writable {
        return Ok(throws(Cause::Readonly));
    }
    let to = cell_to_write(state, c);
    let content = Content::Bound(Binding {
        rule: Rule::Text(text, home),
        author: home.author,
    });
    put(alloc, state, to, content, rules, steps)
}
