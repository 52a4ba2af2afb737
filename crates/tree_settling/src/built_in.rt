//! The rules that are built in. Each reads cells by a view, notes them in order, and answers as an evaluation of a text does.

ghost use Rattle.std.specs.Prelude.{◌≡◌, ◌<◌, ◌++◌, ◌∷◌, List, [], Some, IfOk, IfErr};
ghost use Rattle.qml_value.specs.declared.value.Value.{Value};
ghost use Rattle.qml_types.specs.declared.kind.TypeRef.TheVariants.{Builtin as builtin};
ghost use Rattle.qml_types.specs.declared.kind.TypeNo.TheVariants as no;
ghost use Rattle.tree_model.specs.Converting.{same_type};
ghost use Rattle.qml_base.specs.declared.numbers.CellNo.{CellNo};
ghost use Rattle.evaluation.specs.Ask.{Ask, Names, reads as asks_reads};
ghost use Rattle.evaluation.specs.Evaluating.{is};
ghost use Rattle.evaluation.specs.Hearing.{Views, heard, Answers};
ghost use Rattle.tree_model.specs.Rules.{cell_at, value as value_asks, shown as shown_asks, is_set as set_of, shown_where_set, shown_by_parent, counted as counted_asks, rows_by_number as number_asks, rows_held as held_rows, rows_asked as held_asks, model_in as named_model, rows_of_object as object_asks, rows_of_model as model_asks, count as count_asks, is_list_model as is_model};

use evaluation::{Evaluated, Seen, View};
use qml_base::{CellNo, ObjNo};
use qml_types::{TypeNo, TypeRef};
use qml_value::{Num, Value};
use std::alloc::Global;
use tree_model::Lookup;

/// The most rows that a number gives.
const MOST_ROWS: u32 = 100_000;

/// Notes the cell and reads it: its value, or how the evaluation ends there.
fn look<'a, V: View>(
    view: &'a V,
    c: CellNo,
    reads: &mut Vec<CellNo>,
) -> Result<&'a Value, Evaluated>
    ensures value { IfOk result (λ v. V.seen view.now c ≡ Some (is v.now)) }
    ensures noted { IfOk result (λ v. reads.new.items ≡ reads.old.items ++ c ∷ []) }
    ensures ends { (names : Names) (go : Value → Ask) → IfErr result (λ e. Answers (heard names (V.seen view.now) (asks_reads c go)) reads.old.items reads.new.items e) }
{
    if reads.push(c).is_err() {
        return Err(Evaluated::NoMemory);
    }
    match view.read(c) {
        Seen::Is(v) => Ok(v),
        Seen::Loop => Err(Evaluated::Loop),
        Seen::Past => Err(Evaluated::Past),
        Seen::Need => Err(Evaluated::Need(c)),
    }
}

fn copied(alloc: Global, v: &Value) -> Evaluated
    ensures { (names : Names) (seen : Views) (xs : List CellNo) → Answers (heard names seen (value_asks v.now)) xs xs result }
{
    match v.copy(alloc) {
        Ok(copy) => Evaluated::Value(copy),
        Err(_) => Evaluated::NoMemory,
    }
}

/// The value of the cell.
pub fn value_of<V: View>(alloc: Global, view: &V, c: CellNo, reads: &mut Vec<CellNo>) -> Evaluated
    ensures { (names : Names) → Answers (heard names (V.seen view.now) (asks_reads c value_asks)) reads.old.items reads.new.items result }
{
    match look(view, c, reads) {
        Ok(v) => copied(alloc, v),
        Err(ended) => ended,
    }
}

/// Whether an Item is shown: where its switch at the place is set, and its parent is shown.
pub fn shown<V: View>(
    alloc: Global,
    view: &V,
    object: ObjNo,
    place: u32,
    reads: &mut Vec<CellNo>,
) -> Evaluated
    requires { place < 100 }
    ensures { (names : Names) → Answers (heard names (V.seen view.now) (shown_asks object place)) reads.old.items reads.new.items result }
{
    match look(view, CellNo { object, place }, reads) {
        Ok(switch) => where_set(alloc, view, object, place + 1, switch, reads),
        Err(ended) => ended,
    }
}

fn where_set<V: View>(
    alloc: Global,
    view: &V,
    object: ObjNo,
    place: u32,
    switch: &Value,
    reads: &mut Vec<CellNo>,
) -> Evaluated
    ensures { (names : Names) → Answers (heard names (V.seen view.now) (shown_where_set object place switch.now)) reads.old.items reads.new.items result }
{
    if is_set(switch) {
        by_parent(alloc, view, object, place, reads)
    } else {
        copied(alloc, switch)
    }
}

fn is_set(switch: &Value) -> bool
    ensures { result ≡ set_of switch.now }
{
    match switch {
        Value::Bool(b) => *b,
        _ => false,
    }
}

fn by_parent<V: View>(
    alloc: Global,
    view: &V,
    object: ObjNo,
    place: u32,
    reads: &mut Vec<CellNo>,
) -> Evaluated
    ensures { (names : Names) → Answers (heard names (V.seen view.now) (asks_reads (cell_at object 12) (shown_by_parent place))) reads.old.items reads.new.items result }
{
    match look(view, CellNo { object, place: 12 }, reads) {
        Ok(parent) => of_parent(alloc, view, place, parent, reads),
        Err(ended) => ended,
    }
}

fn of_parent<V: View>(
    alloc: Global,
    view: &V,
    place: u32,
    parent: &Value,
    reads: &mut Vec<CellNo>,
) -> Evaluated
    ensures { (names : Names) → Answers (heard names (V.seen view.now) (shown_by_parent place parent.now)) reads.old.items reads.new.items result }
{
    match parent {
        Value::Object(p) => value_of(alloc, view, CellNo { object: *p, place }, reads),
        _ => Evaluated::Value(Value::Bool(true)),
    }
}

/// So many rows.
fn counted(n: usize) -> Evaluated
    ensures { (names : Names) (seen : Views) (xs : List CellNo) → Answers (heard names seen (counted_asks n)) xs xs result }
{
    match Num::new(n as i128) {
        Ok(n) => Evaluated::Value(Value::Num(n)),
        Err(_) => Evaluated::Past,
    }
}

/// The number, brought into 0 to 100,000.
fn rows_by_number(n: i64) -> usize
    ensures { result ≡ number_asks n }
{
    if n < 0 {
        0
    } else if n > i64::from(MOST_ROWS) {
        MOST_ROWS as usize
    } else {
        n as usize
    }
}

/// As many rows as a list has elements, or as a number says.
fn rows_held(v: &Value) -> usize
    ensures { result ≡ held_rows v.now }
{
    match v {
        Value::Num(n) => rows_by_number(n.get()),
        Value::List(rows) => rows.len(),
        _ => 0,
    }
}

/// The object that the value names.
fn model_in(v: &Value) -> Option<ObjNo>
    ensures { result ≡ named_model v.now }
{
    match v {
        Value::Object(model) => Some(*model),
        _ => None,
    }
}

/// As many rows as the cell holds.
fn rows_in<V: View>(view: &V, c: CellNo, reads: &mut Vec<CellNo>) -> Evaluated
    ensures { (names : Names) → Answers (heard names (V.seen view.now) (asks_reads c held_asks)) reads.old.items reads.new.items result }
{
    match look(view, c, reads) {
        Ok(rows) => counted(rows_held(rows)),
        Err(ended) => ended,
    }
}

fn is_list_model_type(t: &TypeRef) -> bool
    ensures { result ≡ same_type t.now (builtin no.ListModel) }
{
    match t {
        TypeRef::Builtin(TypeNo::ListModel) => true,
        _ => false,
    }
}

fn is_list_model<N: Lookup>(lookup: &N, o: ObjNo) -> bool
    ensures { result ≡ is_model (N.types lookup.now) o }
{
    lookup.types_of(o).iter().any(|t| is_list_model_type(t))
}

/// How many rows a model has.
fn rows_of_model<V: View, N: Lookup>(
    lookup: &N,
    view: &V,
    model: &Value,
    reads: &mut Vec<CellNo>,
) -> Evaluated
    ensures { (names : Names) → Answers (heard names (V.seen view.now) (model_asks (N.types lookup.now) model.now)) reads.old.items reads.new.items result }
{
    match model_in(model) {
        Some(m) => rows_of_object(lookup, view, m, reads),
        None => counted(rows_held(model)),
    }
}

fn rows_of_object<V: View, N: Lookup>(
    lookup: &N,
    view: &V,
    model: ObjNo,
    reads: &mut Vec<CellNo>,
) -> Evaluated
    ensures { (names : Names) → Answers (heard names (V.seen view.now) (object_asks (N.types lookup.now) model)) reads.old.items reads.new.items result }
{
    if is_list_model(lookup, model) {
        rows_in(
            view,
            CellNo {
                object: model,
                place: 2,
            },
            reads,
        )
    } else {
        counted(0)
    }
}

/// How many rows a ListModel has, or a Repeater's model.
pub fn count<V: View, N: Lookup>(
    lookup: &N,
    view: &V,
    object: ObjNo,
    reads: &mut Vec<CellNo>,
) -> Evaluated
    ensures { (names : Names) → Answers (heard names (V.seen view.now) (count_asks (N.types lookup.now) object)) reads.old.items reads.new.items result }
{
    if is_list_model(lookup, object) {
        rows_in(view, CellNo { object, place: 2 }, reads)
    } else {
        rows_of_repeater(lookup, view, object, reads)
    }
}

fn rows_of_repeater<V: View, N: Lookup>(
    lookup: &N,
    view: &V,
    object: ObjNo,
    reads: &mut Vec<CellNo>,
) -> Evaluated
    ensures { (names : Names) → Answers (heard names (V.seen view.now) (asks_reads (cell_at object 13) (model_asks (N.types lookup.now)))) reads.old.items reads.new.items result }
{
    match look(view, CellNo { object, place: 13 }, reads) {
        Ok(model) => rows_of_model(lookup, view, model, reads),
        Err(ended) => ended,
    }
}
