//! The objects of an instance, planned and added.

ghost use Rattle.std.specs.Prelude.{◌≡◌, suc, map, Ok, Err, IfOk, IfErr, OnOk};
ghost use Rattle.qml_base.specs.declared.numbers.ExprNo.{ExprNo};
ghost use Rattle.qml_base.specs.declared.names.Home.{Home};
ghost use Rattle.evaluation.specs.Ask.{Ask};
ghost use Rattle.instance_plans.specs.Plans.{full, Instance as AnInstance};
ghost use Rattle.instancing.specs.declared.numbers.NumbersFault.TheVariants as fault;
ghost use Rattle.instance_contents.specs.Objects.{looks};
ghost use Rattle.machine_making.specs.Adding.{OwnedBefore};
ghost use Rattle.machine_model.specs.Making.{alone_planned};
ghost use Rattle.machine_state.specs.Keeping.{machine_of, Ready};
ghost use Rattle.machine_objects.specs.Adding.{room_left, PlansAlone, AddsAs, AddsAlone};

use instancing::NumbersFault;
use live_tree::LiveTree;
use machine_making::add_instance;
use machine_model::Stop;
use machine_state::State;
use machine_steps::Fault;
use object_plans::{Instance, Order, plan_object};
use qml_base::{NoMemory, ObjNo};
use std::alloc::Global;

/// How many more objects may be made.
fn room(tree: &LiveTree) -> u32
    ensures { result ≡ room_left tree.now }
{
    let live = 100_000u32.saturating_sub(tree.live());
    let numbers = u32::MAX - tree.given();
    if live < numbers { live } else { numbers }
}

/// The plan of an object without owner and instance around it.
#[tactic(auto, using(crate::proofs::PlanLemmas::full_if))]
fn plan_alone<'a>(
    alloc: Global,
    state: &State<'a>,
    unit: u32,
    object: u32,
) -> Result<Instance, NumbersFault>
    ensures planned { IfOk result (λ i. PlansAlone unit object (machine_of state.now) i) }
    ensures full { IfErr result (λ e. e ≡ fault.Full → alone_planned unit object (machine_of state.now) ≡ Err full) }
{
    let room = room(&state.tree);
    if room == 0 {
        return Err(NumbersFault::Full);
    }
    let order = Order {
        unit,
        object,
        enclosing: None,
        owner: None,
        first: state.tree.given() + 1,
        room,
    };
    plan_object(alloc, state.units, state.tree.shapes(), order, &[])
}

/// Adds what was planned, with how it is written.
fn add<'a>(
    state: &mut State<'a>,
    instance: Instance,
    starting: &mut Vec<ObjNo>,
) -> Result<(), NoMemory>
    requires { OwnedBefore (suc state.old.tree.given) (suc state.old.tree.given) (map looks instance.objects.items) }
    ensures adds { (i : AnInstance) → OnOk result (AddsAs instance i state.old state.new starting.old.items starting.new.items) }
    ensures ready { (asks : ExprNo → Home → Ask) → Ready asks state.old → Ready asks state.new }
{
    let Instance {
        planned,
        objects,
        shapes,
    } = instance;
    if state.written.extend_from_slice(planned.as_slice()).is_err() {
        return Err(NoMemory);
    }
    add_instance(
        &mut state.tree,
        None,
        objects,
        shapes,
        &mut state.trace,
        starting,
    )
}

/// Plans an object without owner and instance around it, and adds all that is made with it, told as made; and the numbers of
/// those with a start, in order.
pub fn add_alone<'a>(
    alloc: Global,
    state: &mut State<'a>,
    unit: u32,
    object: u32,
    starting: &mut Vec<ObjNo>,
) -> Result<(), Fault>
    ensures adds { AddsAlone unit object state.old result state.new starting.old.items starting.new.items }
    ensures ready { (asks : ExprNo → Home → Ask) → Ready asks state.old → Ready asks state.new }
{
    match plan_alone(alloc, state, unit, object) {
        Ok(instance) => match add(state, instance, starting) {
            Ok(()) => Ok(()),
            Err(_) => Err(Fault::NoMemory),
        },
        Err(NumbersFault::Full) => Err(Fault::Stopped(Stop::Objects)),
        Err(NumbersFault::NoMemory) => Err(Fault::NoMemory),
    }
}
