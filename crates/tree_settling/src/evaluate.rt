//! One cell, evaluated over the table.

ghost use Rattle.std.specs.Prelude.{◌≡◌, ◌+◌, List, Some, IfOk};
ghost use Rattle.qml_base.specs.declared.numbers.ObjNo.{ObjNo};
ghost use Rattle.qml_base.specs.declared.numbers.CellNo.{CellNo};
ghost use Rattle.qml_types.specs.declared.kind.TypeRef.{TypeRef};
ghost use Rattle.evaluation.specs.Evaluating.{Evaluation};
ghost use Rattle.evaluation.specs.Hearing.{Sees, Answers, heard, in_full};
ghost use Rattle.tree_model.specs.Rules.{ask_of, converted};
ghost use Rattle.tree_model.specs.Settling.{held_at, seen_of, came_of};
ghost use Rattle.tree_model.specs.Converting.{convert_of};
ghost use Rattle.tree_settling.specs.Tables.{read_in, own_value as own, world_of, types_named as named};
ghost use Rattle.property_store.specs.Lying.{IsPlaced};

use crate::built_in::{count, shown, value_of};
use crate::sweeping::Sweeping;
use evaluation::{Came, Evaluated, Rules, Seen, View};
use qml_base::{Cause, CellNo, NoMemory, ObjNo, Steps};
use qml_types::{ConvertFault, PropKind, TypeRef, convert};
use qml_value::Value;
use std::alloc::Global;
use std::sync::ledger::Ledger;
use tree_model::{Binding, Cell, Content, Lookup, Rule};

/// What the cell gives by itself.
pub fn own_value(cell: &Cell) -> &Value
    ensures { result.now ≡ own cell.now.content cell.now.held }
{
    match &cell.content {
        Content::Plain(v) => v,
        Content::Bound(_) => &cell.held,
    }
}

/// What the cell at a place gives by the table.
pub fn seen_at<'a>(cells: &'a [Cell], table: &'a [Option<Came>], i: usize) -> Seen<'a>
    ensures { Sees result (Some (seen_of (held_at cells.now i) (read_in cells.now table.now i))) }
{
    let Some(cell) = cells.get(i) else {
        return Seen::Loop;
    };
    let Some(entry) = table.get(i) else {
        return Seen::Loop;
    };
    match entry {
        None => Seen::Is(own_value(cell)),
        Some(came) => seen_of_came(cell, came),
    }
}

fn seen_of_came<'a>(cell: &'a Cell, came: &'a Came) -> Seen<'a>
    ensures { Sees result (Some (seen_of cell.now.held came.now)) }
{
    match came {
        Came::Value(v) => Seen::Is(v),
        Came::Threw(_) => Seen::Is(&cell.held),
        Came::Loop => Seen::Loop,
        Came::Past => Seen::Past,
    }
}

/// What the rule of a binding of the object comes to, in one step.
fn asked<L: Ledger, R: Rules<L>, V: View, N: Lookup>(
    alloc: Global,
    rules: &mut R,
    lookup: &N,
    view: &V,
    object: ObjNo,
    rule: Rule,
    reads: &mut Vec<CellNo>,
    steps: &mut Steps<L>,
) -> Evaluated
    ensures answers { Answers (heard (V.names view.now) (V.seen view.now) (ask_of (world_of (V.names view.now) (N.types lookup.now) (R.asks rules.old)) object rule)) reads.old.items reads.new.items result }
    ensures same { R.asks rules.new ≡ R.asks rules.old }
    ensures steps { steps.new ≡ steps.old + 1 }
{
    match rule {
        Rule::Text(text, home) => rules.eval(alloc, view, home, text, reads, steps),
        Rule::Visible => {
            steps.tick();
            shown(alloc, view, object, 6, reads)
        }
        Rule::Enabled => {
            steps.tick();
            shown(alloc, view, object, 8, reads)
        }
        Rule::Count => {
            steps.tick();
            count(lookup, view, object, reads)
        }
        Rule::Follow(element) => {
            steps.tick();
            value_of(
                alloc,
                view,
                CellNo {
                    object: element,
                    place: 3,
                },
                reads,
            )
        }
    }
}

/// What an evaluation came to that was heard in full.
fn came_of_answer(answer: Evaluated) -> Result<Came, NoMemory>
    ensures { (e : Evaluation) (old new : List CellNo) → Answers (in_full e) old new answer → IfOk result (λ came. came ≡ e.came) }
{
    match answer {
        Evaluated::Value(v) => Ok(Came::Value(v)),
        Evaluated::Threw(why) => Ok(Came::Threw(why)),
        Evaluated::Loop => Ok(Came::Loop),
        Evaluated::Past => Ok(Came::Past),
        Evaluated::Need(_) | Evaluated::NoMemory => Err(NoMemory),
    }
}

/// The types of the object that a value names.
fn types_named<'a, N: Lookup>(lookup: &'a N, v: &Value) -> &'a [TypeRef]
    ensures { result.now ≡ named (N.types lookup.now) v.now }
{
    match v {
        Value::Object(o) | Value::Component(o) => lookup.types_of(*o),
        _ => &[],
    }
}

/// What a property of the kind gets from the value.
pub fn convert_value<N: Lookup>(
    alloc: Global,
    lookup: &N,
    kind: &PropKind,
    v: Value,
) -> Result<Came, NoMemory>
    ensures { IfOk result (λ came. came ≡ convert_of (N.types lookup.now) kind.now v) }
{
    match convert(alloc, kind, types_named(lookup, &v), v) {
        Ok(w) => Ok(Came::Value(w)),
        Err(ConvertFault::BadKind { .. }) => Ok(Came::Threw(Cause::Kind)),
        Err(ConvertFault::NoMemory) => Err(NoMemory),
    }
}

fn convert_came<N: Lookup>(
    alloc: Global,
    lookup: &N,
    kind: &PropKind,
    came: Came,
) -> Result<Came, NoMemory>
    ensures { IfOk result (λ o. o ≡ converted (N.types lookup.now) kind.now came) }
{
    match came {
        Came::Value(v) => convert_value(alloc, lookup, kind, v),
        other => Ok(other),
    }
}

/// What the active binding of a cell comes to by the table, in one step.
pub fn evaluate<L: Ledger, R: Rules<L>, N: Lookup>(
    alloc: Global,
    rules: &mut R,
    lookup: &N,
    starts: &[u32],
    cells: &[Cell],
    table: &[Option<Came>],
    cell: &Cell,
    binding: Binding,
    reads: &mut Vec<CellNo>,
    steps: &mut Steps<L>,
) -> Result<Came, NoMemory>
    requires { IsPlaced starts.now cells.now }
    ensures came { IfOk result (λ came. came ≡ came_of (world_of (N.names lookup.now) (N.types lookup.now) (R.asks rules.old)) cells.now cell.now binding (read_in cells.now table.now)) }
    ensures same { R.asks rules.new ≡ R.asks rules.old }
    ensures steps { steps.new ≡ steps.old + 1 }
{
    let view = Sweeping {
        lookup,
        starts,
        cells,
        table,
    };
    let object = cell.no.object;
    let answer = asked(
        alloc,
        rules,
        lookup,
        &view,
        object,
        binding.rule,
        reads,
        steps,
    );
    let came = came_of_answer(answer)?;
    convert_came(alloc, lookup, &cell.kind, came)
}
