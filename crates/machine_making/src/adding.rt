//! Objects and names that are added.

ghost use Rattle.std.specs.Prelude.{◌≡◌, ◌++◌, [], ◌∷◌, suc, map, OnOk};
ghost use Rattle.std.specs.Option.{option_map};
ghost use Rattle.qml_base.specs.declared.numbers.ExprNo.{ExprNo};
ghost use Rattle.qml_base.specs.declared.names.Home.{Home};
ghost use Rattle.evaluation.specs.Ask.{Ask};
ghost use Rattle.trace_print.specs.declared.entry.Entry.TheVariants as entry;
ghost use Rattle.object_tree.specs.Trees.{MayOwn};
ghost use Rattle.instance_plans.specs.Numbers.{object_no};
ghost use Rattle.instance_contents.specs.Objects.{looks};
ghost use Rattle.live_tree.specs.Live.{Knows};
ghost use Rattle.machine_making.specs.Adding.{AddsObjects, TellsObjects, AddsShapes, AddsAll, OwnedBefore, if_starts};

use instance_contents::MadeObject;
use live_tree::LiveTree;
use qml_base::{NoMemory, ObjNo};
use qml_scope::Shape;
use qml_text::Text;
use trace_print::Entry;

/// The number of an owner.
fn owner_no(owner: Option<u32>) -> Option<ObjNo>
    ensures { result ≡ option_map object_no owner }
{
    match owner {
        Some(number) => Some(ObjNo(number)),
        None => None,
    }
}

/// Puts an object's making behind the trace, and its number behind those that have a start, if it has one.
fn tell_object(
    number: ObjNo,
    shown: Text,
    starts: bool,
    trace: &mut Vec<Entry>,
    starting: &mut Vec<ObjNo>,
) -> Result<(), NoMemory>
    ensures told { OnOk result (trace.new.items ≡ trace.old.items ++ entry.Make number shown ∷ []) }
    ensures starts { OnOk result (starting.new.items ≡ starting.old.items ++ if_starts starts number) }
{
    trace.push(Entry::Make {
        object: number,
        shown,
    })?;
    if starts {
        starting.push(number)?;
    }
    Ok(())
}

/// Adds an object, and tells it.
fn add_object(
    tree: &mut LiveTree,
    origin: Option<ObjNo>,
    made: MadeObject,
    trace: &mut Vec<Entry>,
    starting: &mut Vec<ObjNo>,
) -> Result<(), NoMemory>
    requires origin { MayOwn tree.old.tree.objects origin }
    requires owner { MayOwn tree.old.tree.objects (option_map object_no made.owner) }
    ensures adds { OnOk result (AddsObjects origin (looks made ∷ []) tree.old tree.new) }
    ensures tells { OnOk result (TellsObjects tree.old.given (looks made ∷ []) trace.old.items trace.new.items starting.old.items starting.new.items) }
    ensures knows { (asks : ExprNo → Home → Ask) → Knows asks tree.old → Knows asks tree.new }
{
    let MadeObject {
        owner,
        shown,
        types,
        cells,
        starts,
    } = made;
    match tree.add(owner_no(owner), origin, types, cells) {
        Ok(number) => tell_object(number, shown, starts, trace, starting),
        Err(_) => Err(NoMemory),
    }
}

/// Adds objects, whose numbers are the next ones, with their types and cells; tells that they are made, and which have a start. Each
/// is owned by none or by one of them that comes before. Without memory some of them may be there.
pub fn add_objects(
    tree: &mut LiveTree,
    origin: Option<ObjNo>,
    made: Vec<MadeObject>,
    trace: &mut Vec<Entry>,
    starting: &mut Vec<ObjNo>,
) -> Result<(), NoMemory>
    requires origin { MayOwn tree.old.tree.objects origin }
    requires owned { OwnedBefore (suc tree.old.given) (suc tree.old.given) (map looks made.items) }
    ensures adds { OnOk result (AddsObjects origin (map looks made.items) tree.old tree.new) }
    ensures tells { OnOk result (TellsObjects tree.old.given (map looks made.items) trace.old.items trace.new.items starting.old.items starting.new.items) }
    ensures knows { (asks : ExprNo → Home → Ask) → Knows asks tree.old → Knows asks tree.new }
{
    let _ = tree.given();
    let mut left = made;
    left.reverse();
    'objects: while let Some(made) = left.pop() {
        add_object(tree, origin, made, trace, starting)?;
    }
    Ok(())
}

/// Adds the names of instances.
fn add_shapes(tree: &mut LiveTree, shapes: Vec<Shape>) -> Result<(), NoMemory>
    ensures adds { OnOk result (AddsShapes shapes.items tree.old tree.new) }
    ensures knows { (asks : ExprNo → Home → Ask) → Knows asks tree.old → Knows asks tree.new }
{
    let mut left = shapes;
    left.reverse();
    'shapes: while let Some(shape) = left.pop() {
        tree.add_shape(shape)?;
    }
    Ok(())
}

/// Adds the objects of an instance with the names of its instances of components, and tells the objects, as the machine does it.
/// Without memory some of them may be there.
pub fn add_instance(
    tree: &mut LiveTree,
    origin: Option<ObjNo>,
    made: Vec<MadeObject>,
    shapes: Vec<Shape>,
    trace: &mut Vec<Entry>,
    starting: &mut Vec<ObjNo>,
) -> Result<(), NoMemory>
    requires origin { MayOwn tree.old.tree.objects origin }
    requires owned { OwnedBefore (suc tree.old.given) (suc tree.old.given) (map looks made.items) }
    ensures adds { OnOk result (AddsAll origin (map looks made.items) shapes.items tree.old tree.new) }
    ensures tells { OnOk result (TellsObjects tree.old.given (map looks made.items) trace.old.items trace.new.items starting.old.items starting.new.items) }
    ensures knows { (asks : ExprNo → Home → Ask) → Knows asks tree.old → Knows asks tree.new }
{
    add_objects(tree, origin, made, trace, starting)?;
    add_shapes(tree, shapes)
}
