//! The plan of an object with what is made of it.

ghost use Rattle.std.specs.Prelude.{◌≡◌, ◌≤◌, ◌<◌, ◌+◌, ◌^◌, length, IfOk, IfErr, Ok, Err, []};
ghost use Rattle.instance_plans.specs.Plans.{full};
ghost use Rattle.unit_rows.specs.Seen.{all_seen};
ghost use Rattle.instancing.specs.declared.numbers.NumbersFault.TheVariants as fault;
ghost use Rattle.instance_contents.specs.Tables.{Stands};
ghost use Rattle.object_plans.specs.Planning.{objects_of_plan, IsPlanOf, MadeBy, planned_with, instance_planned, Makes};

use instance_contents::{MadeObject, Tables, gather, made_objects, tables_of};
use instance_plans::Planned;
use instance_shapes::plan_shapes;
use instancing::{NumbersFault, plan_numbers};
use qml_base::NoMemory;
use qml_scope::{Shape, Shapes};
use qml_text::Text;
use qml_value::Value;
use std::alloc::Global;
use unit_rows::Unit;

/// What is to be made, and where.
#[derive(Clone, Copy, Debug)]
pub struct Order {
    /// The document, and the object there by its number.
    pub unit: u32,
    pub object: u32,
    /// The root of the instance around it.
    pub enclosing: Option<u32>,
    pub owner: Option<u32>,
    /// The first number that is given, and how many objects there may be.
    pub first: u32,
    pub room: u32,
}

/// What is made of an object as written.
#[derive(Drop)]
pub struct Instance {
    /// The objects in document order, as they are written.
    pub planned: Vec<Planned>,
    /// The same as they are made.
    pub objects: Vec<MadeObject>,
    /// The names of the instances of components.
    pub shapes: Vec<Shape>,
}

/// The numbers of the objects, with their tables.
#[tactic(auto, using(crate::proofs::PlanLemmas::plan_is))]
fn tables_for<'a>(
    alloc: Global,
    units: &'a [Unit],
    shapes: &'a Shapes,
    order: Order,
) -> Result<Tables<'a>, NumbersFault>
    requires { order.first + order.room ≤ 2 ^ 32 }
    ensures stands { IfOk result (λ t. Stands t) }
    ensures planned { IfOk result (λ t. IsPlanOf (all_seen units.now) shapes.now.known order t) }
    ensures full { IfErr result (λ e. e ≡ fault.Full → order.room < length (objects_of_plan (all_seen units.now) order)) }
{
    let numbers = plan_numbers(
        alloc,
        units,
        order.unit,
        order.object,
        order.enclosing,
        order.owner,
        order.first,
        order.room,
    )?;
    match tables_of(alloc, units, shapes, order.first, numbers) {
        Ok(tables) => Ok(tables),
        Err(_) => Err(NumbersFault::NoMemory),
    }
}

/// The objects and the names of a plan.
#[tactic(auto, using(crate::proofs::PlanLemmas::made_by))]
fn make(
    alloc: Global,
    tables: &Tables,
    order: Order,
    delegates: &[(Text, Value)],
) -> Result<(Vec<MadeObject>, Vec<Shape>), NoMemory>
    requires { Stands tables.now }
    ensures { IfOk result (λ made. MadeBy tables.now order delegates.now made.0.items made.1.items) }
{
    let given = gather(alloc, tables)?;
    let objects = made_objects(alloc, tables, &given, delegates)?;
    let shapes = plan_shapes(alloc, tables, order.unit, order.object, delegates)?;
    Ok((objects, shapes))
}

/// Plans what is made of an object of a document, from the number `first` on, with delegate names for the first: the objects with
/// their types and cells, and the names of the instances of components. `Full` comes exactly where that is more than `room`
/// objects. It needs that `room` numbers from `first` on exist. The parent of the first object is left to the caller.
#[tactic(auto, using(crate::proofs::PlanLemmas::planned_so, crate::proofs::PlanLemmas::full_so, crate::proofs::PlanLemmas::makes_so))]
pub fn plan_object(
    alloc: Global,
    units: &[Unit],
    shapes: &Shapes,
    order: Order,
    delegates: &[(Text, Value)],
) -> Result<Instance, NumbersFault>
    requires { order.first + order.room ≤ 2 ^ 32 }
    ensures planned { IfOk result (λ i. planned_with (all_seen units.now) shapes.now.known order delegates.now [] ≡ Ok (instance_planned (all_seen units.now) shapes.now.known order delegates.now [])) }
    ensures makes { IfOk result (λ i. Makes (all_seen units.now) shapes.now.known order delegates.now i) }
    ensures full { IfErr result (λ e. e ≡ fault.Full → planned_with (all_seen units.now) shapes.now.known order delegates.now [] ≡ Err full) }
{
    let tables = tables_for(alloc, units, shapes, order)?;
    let Ok((objects, shapes)) = make(alloc, &tables, order, delegates) else {
        return Err(NumbersFault::NoMemory);
    };
    Ok(Instance {
        planned: tables.objects,
        objects,
        shapes,
    })
}
