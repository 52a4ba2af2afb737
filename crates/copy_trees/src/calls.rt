//! The calls of a live tree without clauses.

ghost use Rattle.object_tree.specs.Trees.{MayOwn};

use crate::given::number;
use copy_rules::Copies;
use live_tree::{AddFault, Changed, LiveTree, SettleFault};
use qml_base::{CellNo, NoMemory, ObjNo, Steps, UnitNo};
use qml_scope::{Members, NameTable, Shape};
use qml_types::{TypeNo, TypeRef};
use qml_value::Value;
use std::alloc::Global;
use std::sync::ledger::Ledger;
use tree_model::{Binding, NewCell, Report, Rule};

/// A tree without objects.
pub fn empty(alloc: Global) -> LiveTree {
    LiveTree::new(alloc)
}

/// The object, if another may hang on it.
fn standing(tree: &LiveTree, o: u32) -> Option<ObjNo>
    ensures { MayOwn tree.now.tree.objects result }
{
    let o = ObjNo(o);
    let objects = tree.objects();
    if objects.is_live(o) && !objects.is_condemned(o) {
        Some(o)
    } else {
        None
    }
}

/// Adds an object without types that has these cells and is owned by the other, if that one stands.
pub fn add(
    alloc: Global,
    tree: &mut LiveTree,
    owner: u32,
    cells: Vec<NewCell>,
) -> Result<ObjNo, AddFault> {
    let owner = standing(tree, owner);
    tree.add(owner, None, Vec::new(alloc), cells)
}

/// Adds a QtObject without cells that is the root of an instance without names.
pub fn add_root(alloc: Global, tree: &mut LiveTree) -> Result<(), AddFault> {
    let mut types = Vec::new(alloc);
    types.push(TypeRef::Builtin(TypeNo::QtObject))?;
    let root = tree.add(None, None, types, Vec::new(alloc))?;
    match add_shape(alloc, tree, root) {
        Ok(()) => Ok(()),
        Err(NoMemory) => Err(AddFault::NoMemory),
    }
}

fn add_shape(alloc: Global, tree: &mut LiveTree, root: ObjNo) -> Result<(), NoMemory> {
    tree.add_shape(Shape {
        unit: UnitNo(0),
        root,
        enclosing: None,
        ids: NameTable::new(alloc),
        names: NameTable::new(alloc),
        members: Members::new(alloc),
    })
}

/// Settles by `Copies`.
#[tactic(auto, using(live_tree::proofs::LiveLemmas::knows_all))]
pub fn settle<L: Ledger>(
    alloc: Global,
    tree: &mut LiveTree,
    steps: &mut Steps<L>,
) -> Result<Changed, SettleFault> {
    tree.settle(alloc, &mut Copies, steps)
}

/// Settles, and removes what is condemned.
#[tactic(auto, using(live_tree::proofs::LiveLemmas::knows_all))]
pub fn purge<L: Ledger>(
    alloc: Global,
    tree: &mut LiveTree,
    steps: &mut Steps<L>,
) -> Result<Changed, SettleFault> {
    let told = tree.settle(alloc, &mut Copies, steps)?;
    tree.remove_doomed();
    Ok(told)
}

/// Whether these cells and reports were told, and no others.
pub fn tells(told: &Changed, cells: &[CellNo], reports: &[Report]) -> bool {
    if told.cells.as_slice() != cells {
        return false;
    }
    told.reports.as_slice() == reports
}

/// What the cell holds, if it is a number or tells true (1) or false (0).
pub fn held(tree: &LiveTree, c: CellNo) -> Option<i64> {
    if !tree.has_cell(c) {
        return None;
    }
    number_of(tree.read(c))
}

fn number_of(v: &Value) -> Option<i64> {
    match v {
        Value::Num(n) => Some(n.get()),
        Value::Bool(b) => Some(i64::from(*b)),
        _ => None,
    }
}

/// Writes the number into the cell, and tells whether it took it.
pub fn write(alloc: Global, tree: &mut LiveTree, c: CellNo, n: u32) -> bool {
    if !tree.has_cell(c) {
        return false;
    }
    tree.write(alloc, c, number(n)).is_ok()
}

/// Takes the cell's content out and puts it in again.
pub fn put_back(tree: &mut LiveTree, c: CellNo) -> bool {
    if !tree.has_cell(c) {
        return false;
    }
    let content = tree.take(c);
    if !tree.has_cell(c) {
        return false;
    }
    tree.put(c, content);
    true
}

/// Binds the cell by the rule of a Binding that is object 1.
pub fn rebind(tree: &mut LiveTree, c: CellNo) -> bool {
    if !tree.has_cell(c) {
        return false;
    }
    let author = ObjNo(1);
    let rule = Rule::Follow(author);
    tree.rebind(c, Binding { rule, author });
    true
}

/// Condemns the object.
pub fn condemn(tree: &mut LiveTree, o: u32) {
    tree.condemn(ObjNo(o));
}

/// How many objects are condemned.
pub fn doomed(tree: &LiveTree) -> usize {
    tree.objects().doomed().len()
}

/// How many instances there are, and how many types the object has.
pub fn told_of(tree: &LiveTree, o: ObjNo) -> (usize, usize) {
    let shapes = tree.shapes();
    (shapes.instances().len(), shapes.types_told(o).len())
}
