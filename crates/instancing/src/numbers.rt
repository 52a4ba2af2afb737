//! The objects that are made, in document order, with their numbers, and the instances of components.

ghost use Rattle.std.specs.Prelude.{◌≡◌, ℕ, ◌<◌, ◌≤◌, ◌+◌, ◌^◌, ◌++◌, ◌∷◌, [], length, OnOk, IfOk, IfErr};
ghost use Rattle.std.specs.Option.{option_and_then};
ghost use Rattle.instance_plans.specs.Numbers.{AllRows, Plan as APlan, row_at, number_in, planned_from, inner_within};
ghost use Rattle.unit_rows.specs.Seen.{all_seen};
ghost use Rattle.instancing.specs.Numbered.{AreNumbered, AreOwned};
ghost use Rattle.instancing.specs.Stack.{resumed, begun, with_left, next_left, with_number, around, planned_in, added, plan_of};
ghost use Rattle.instancing.specs.Frames.{open_of, opens, plan_so_far, planned_now};
ghost use Rattle.instancing.specs.declared.numbers.NumbersFault.TheVariants as fault;

use crate::placed::Placed;
use crate::tables::{is_held, owner_at, standing, type_at};
use instance_plans::{Planned, PlannedInstance};
use qml_base::NoMemory;
use qml_types::TypeRef;
use std::alloc::Global;
use unit_rows::{Rows, Unit};

/// Why nothing is planned.
#[derive(Clone, Copy, Debug, PartialEq, Eq)]
pub enum NumbersFault {
    /// There are more objects than room.
    Full,
    /// There was no memory.
    NoMemory,
}

/// The objects in document order, and the instances in the order in which they were finished.
#[derive(Drop)]
pub struct Numbers {
    pub objects: Vec<Planned>,
    pub instances: Vec<PlannedInstance>,
}

/// An instance of a component under way.
#[derive(Drop)]
struct Frame<'a> {
    unit: u32,
    component: u32,
    root: u32,
    enclosing: Option<u32>,
    numbers: Placed,
    /// The objects of the component that are left; its root counts as placed.
    left: &'a [u32],
    /// How deep types are gone into below it.
    depth: usize,
}

/// A plan under way: the first number, how many objects there may be, those so far, the instances that are finished, and those
/// under way.
#[derive(Drop)]
struct Work<'a> {
    first: u32,
    room: u32,
    objects: Vec<Planned>,
    instances: Vec<PlannedInstance>,
    frames: Vec<Frame<'a>>,
}

/// The number of the owner of an object as written.
fn owner_of(units: &[Unit], frame: &Frame, o: u32) -> Option<u32>
    ensures { result ≡ option_and_then (number_in frame.now.numbers) (row_at (all_seen units.now) frame.now.unit o).owner }
{
    match owner_at(units, frame.unit, o) {
        Some(owner) => frame.numbers.number(owner),
        None => None,
    }
}

/// Whether a Component is made around an object of the instance.
fn is_around(units: &[Unit], frame: &Frame, o: u32) -> bool
    ensures { result ≡ around (all_seen units.now) (open_of frame.now) o }
{
    is_held(units, frame.unit, o) && o != frame.component
}

/// An object of the instance as it is planned.
fn planned(units: &[Unit], frame: &Frame, o: u32, number: u32) -> Planned
    ensures { result ≡ planned_in (all_seen units.now) (open_of frame.now) o number }
{
    Planned {
        number,
        unit: frame.unit,
        object: o,
        is_around: is_around(units, frame, o),
        owner: owner_of(units, frame, o),
    }
}

/// Puts the instance back, in which an object has got a number.
fn put_back<'a>(
    frames: &mut Vec<Frame<'a>>,
    frame: Frame<'a>,
    o: u32,
    number: u32,
) -> Result<(), NoMemory>
    ensures { OnOk result (opens frames.new.items ≡ with_number o number (open_of frame.entry) ∷ opens frames.old.items) }
{
    let mut frame = frame;
    frame.numbers.push(o, number)?;
    match frames.push(frame) {
        Ok(()) => Ok(()),
        Err(_) => Err(NoMemory),
    }
}

/// Begins the instance of a component whose root has got a number.
fn begin<'a>(
    alloc: Global,
    units: &'a [Unit],
    frames: &mut Vec<Frame<'a>>,
    unit: u32,
    component: u32,
    number: u32,
    enclosing: Option<u32>,
    depth: usize,
) -> Result<(), NoMemory>
    ensures { OnOk result (opens frames.new.items ≡ begun (all_seen units.now) unit component number enclosing depth ∷ opens frames.old.items) }
{
    let mut numbers = Placed::new(alloc);
    numbers.push(component, number)?;
    let frame = Frame {
        unit,
        component,
        root: number,
        enclosing,
        numbers,
        left: standing(units, unit, component),
        depth,
    };
    match frames.push(frame) {
        Ok(()) => Ok(()),
        Err(_) => Err(NoMemory),
    }
}

/// Begins the instances of the documents that a type stands on, for an object that has got a number.
fn enter<'a>(
    alloc: Global,
    units: &'a [Unit],
    frames: &mut Vec<Frame<'a>>,
    of_type: TypeRef,
    number: u32,
    depth: usize,
) -> Result<(), NoMemory>
    ensures { (plan : APlan) → OnOk result (resumed (all_seen units.now) (opens frames.new.items) plan ≡ resumed (all_seen units.now) (opens frames.old.items) (inner_within depth (all_seen units.now) of_type number plan)) }
{
    let mut of_type = of_type;
    let mut depth = depth;
    'documents: while depth > 0 {
        let TypeRef::Document(document) = of_type else {
            return Ok(());
        };
        depth -= 1;
        begin(alloc, units, frames, document.0, 0, number, None, depth)?;
        of_type = type_at(units, document.0, 0);
    }
    Ok(())
}

/// What the documents of a type add, unless a Component is made around the object.
fn enter_unless<'a>(
    alloc: Global,
    units: &'a [Unit],
    frames: &mut Vec<Frame<'a>>,
    is_around: bool,
    of_type: TypeRef,
    number: u32,
    depth: usize,
) -> Result<(), NoMemory>
    ensures { (plan : APlan) → OnOk result (resumed (all_seen units.now) (opens frames.new.items) plan ≡ resumed (all_seen units.now) (opens frames.old.items) (added (all_seen units.now) depth is_around of_type number plan)) }
{
    if is_around {
        return Ok(());
    }
    enter(alloc, units, frames, of_type, number, depth)
}

/// Places an object of the instance, with what the documents of its type write in it.
fn place<'a>(
    alloc: Global,
    units: &'a [Unit],
    work: &mut Work<'a>,
    frame: Frame<'a>,
    o: u32,
) -> Result<(), NoMemory>
    requires room { work.old.first + work.old.room ≤ 2 ^ 32 }
    requires some { length work.old.objects.items < work.old.room }
    ensures ok { OnOk result (planned_now (all_seen units.now) work.new ≡ resumed (all_seen units.now) (with_left o (open_of frame.entry) ∷ opens work.old.frames.items) (plan_so_far work.old)) }
    ensures first { work.new.first ≡ work.old.first }
    ensures room { work.new.room ≡ work.old.room }
    ensures few { length work.new.objects.items ≤ work.old.room }
{
    let number = work.first + work.objects.len() as u32;
    let object = planned(units, &frame, o, number);
    let of_type = type_at(units, frame.unit, o);
    let depth = frame.depth;
    if work.objects.push(object).is_err() {
        return Err(NoMemory);
    }
    put_back(&mut work.frames, frame, o, number)?;
    enter_unless(
        alloc,
        units,
        &mut work.frames,
        object.is_around,
        of_type,
        number,
        depth,
    )
}

/// Finishes an instance of which no object is left.
fn finish<'a>(work: &mut Work<'a>, frame: Frame<'a>) -> Result<(), NoMemory>
    requires { frame.left.now ≡ [] }
    ensures ok { (rows : AllRows) → OnOk result (planned_now rows work.new ≡ resumed rows (open_of frame.entry ∷ opens work.old.frames.items) (plan_so_far work.old)) }
    ensures first { work.new.first ≡ work.old.first }
    ensures room { work.new.room ≡ work.old.room }
    ensures same { work.new.objects ≡ work.old.objects }
{
    let Frame {
        unit,
        component,
        root,
        enclosing,
        numbers,
        ..
    } = frame;
    let instance = PlannedInstance {
        unit,
        component,
        root,
        enclosing,
        objects: Rows::of_vec(numbers.into_numbers()),
    };
    match work.instances.push(instance) {
        Ok(()) => Ok(()),
        Err(_) => Err(NoMemory),
    }
}

/// Goes on with an object of the instance: its root has a number already.
fn place_next<'a>(
    alloc: Global,
    units: &'a [Unit],
    work: &mut Work<'a>,
    frame: Frame<'a>,
    o: u32,
) -> Result<(), NumbersFault>
    requires room { work.old.first + work.old.room ≤ 2 ^ 32 }
    ensures ok { OnOk result (planned_now (all_seen units.now) work.new ≡ resumed (all_seen units.now) (next_left o (open_of frame.entry) ∷ opens work.old.frames.items) (plan_so_far work.old)) }
    ensures full { IfErr result (λ e. e ≡ fault.Full → work.old.room < length (resumed (all_seen units.now) (next_left o (open_of frame.entry) ∷ opens work.old.frames.items) (plan_so_far work.old)).objects) }
    ensures first { work.new.first ≡ work.old.first }
    ensures room { work.new.room ≡ work.old.room }
    ensures few { length work.old.objects.items ≤ work.old.room → length work.new.objects.items ≤ work.old.room }
{
    if o == frame.component {
        return match work.frames.push(frame) {
            Ok(()) => Ok(()),
            Err(_) => Err(NumbersFault::NoMemory),
        };
    }
    if work.objects.len() >= work.room as usize {
        return Err(NumbersFault::Full);
    }
    match place(alloc, units, work, frame, o) {
        Ok(()) => Ok(()),
        Err(_) => Err(NumbersFault::NoMemory),
    }
}

/// Goes on with the innermost instance.
fn go_on<'a>(
    alloc: Global,
    units: &'a [Unit],
    work: &mut Work<'a>,
    frame: Frame<'a>,
) -> Result<(), NumbersFault>
    requires room { work.old.first + work.old.room ≤ 2 ^ 32 }
    ensures ok { OnOk result (planned_now (all_seen units.now) work.new ≡ resumed (all_seen units.now) (open_of frame.entry ∷ opens work.old.frames.items) (plan_so_far work.old)) }
    ensures full { IfErr result (λ e. e ≡ fault.Full → work.old.room < length (resumed (all_seen units.now) (open_of frame.entry ∷ opens work.old.frames.items) (plan_so_far work.old)).objects) }
    ensures first { work.new.first ≡ work.old.first }
    ensures room { work.new.room ≡ work.old.room }
    ensures few { length work.old.objects.items ≤ work.old.room → length work.new.objects.items ≤ work.old.room }
{
    let mut frame = frame;
    let Some((o, left)) = frame.left.split_first() else {
        return match finish(work, frame) {
            Ok(()) => Ok(()),
            Err(_) => Err(NumbersFault::NoMemory),
        };
    };
    frame.left = left;
    place_next(alloc, units, work, frame, *o)
}

/// Goes on until no instance is under way.
fn run<'a>(alloc: Global, units: &'a [Unit], work: &mut Work<'a>) -> Result<(), NumbersFault>
    requires room { work.old.first + work.old.room ≤ 2 ^ 32 }
    ensures ok { OnOk result (plan_so_far work.new ≡ planned_now (all_seen units.now) work.old) }
    ensures full { IfErr result (λ e. e ≡ fault.Full → work.old.room < length (planned_now (all_seen units.now) work.old).objects) }
    ensures first { work.new.first ≡ work.old.first }
    ensures few { length work.old.objects.items ≤ work.old.room → length work.new.objects.items ≤ work.old.room }
{
    'frames: for _ in 0..u64::MAX {
        let Some(frame) = work.frames.pop() else {
            return Ok(());
        };
        go_on(alloc, units, work, frame)?;
    }
    Err(NumbersFault::NoMemory)
}

/// The plan at its beginning: the object has the first number.
fn start<'a>(
    alloc: Global,
    units: &'a [Unit],
    unit: u32,
    object: u32,
    enclosing: Option<u32>,
    owner: Option<u32>,
    first: u32,
    room: u32,
) -> Result<Work<'a>, NoMemory>
    ensures planned { IfOk result (λ w. planned_now (all_seen units.now) w ≡ planned_from (all_seen units.now) unit object enclosing owner first) }
    ensures first { IfOk result (λ w. w.first ≡ first) }
    ensures room { IfOk result (λ w. w.room ≡ room) }
    ensures one { IfOk result (λ w. length w.objects.items ≡ 1) }
{
    let mut objects = Vec::new(alloc);
    let root = Planned {
        number: first,
        unit,
        object,
        is_around: false,
        owner,
    };
    if objects.push(root).is_err() {
        return Err(NoMemory);
    }
    let depth = units.len() + 1;
    let mut frames = Vec::new(alloc);
    begin(
        alloc,
        units,
        &mut frames,
        unit,
        object,
        first,
        enclosing,
        depth,
    )?;
    enter(
        alloc,
        units,
        &mut frames,
        type_at(units, unit, object),
        first,
        depth,
    )?;
    Ok(Work {
        first,
        room,
        objects,
        instances: Vec::new(alloc),
        frames,
    })
}

/// Numbers what is made of an object of a document, in the instance around it with this root, from the number `first` on, with an
/// owner. `Full` comes exactly where that is more than `room` objects. It needs that `room` numbers from `first` on exist. It goes
/// once over the objects that it numbers; an owner is found by halving among those of its instance, where these ascend.
pub fn plan_numbers(
    alloc: Global,
    units: &[Unit],
    unit: u32,
    object: u32,
    enclosing: Option<u32>,
    owner: Option<u32>,
    first: u32,
    room: u32,
) -> Result<Numbers, NumbersFault>
    requires numbers { first + room ≤ 2 ^ 32 }
    ensures ok { IfOk result (λ n. plan_of first n.objects.items n.instances.items ≡ planned_from (all_seen units.now) unit object enclosing owner first) }
    ensures within { IfOk result (λ n. length n.objects.items ≤ room) }
    ensures numbered { IfOk result (λ n. AreNumbered first n.objects.items) }
    ensures owned { IfOk result (λ n. AreOwned first owner n.objects.items) }
    ensures full { IfErr result (λ e. e ≡ fault.Full → room < length (planned_from (all_seen units.now) unit object enclosing owner first).objects) }
{
    if room == 0 {
        return Err(NumbersFault::Full);
    }
    let Ok(work) = start(alloc, units, unit, object, enclosing, owner, first, room) else {
        return Err(NumbersFault::NoMemory);
    };
    let mut work = work;
    run(alloc, units, &mut work)?;
    let Work {
        objects,
        instances,
        ..
    } = work;
    Ok(Numbers { objects, instances })
}
