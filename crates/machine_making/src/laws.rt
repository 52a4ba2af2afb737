//! Laws.

ghost use Rattle.std.specs.Prelude.{List, Option};
ghost use Rattle.qml_base.specs.declared.numbers.ObjNo.{ObjNo};
ghost use Rattle.trace_print.specs.declared.entry.Entry.{Entry};
ghost use Rattle.live_tree.specs.Live.{Live};
ghost use Rattle.instance_plans.specs.declared.planned.Planned.{Planned};
ghost use Rattle.instance_plans.specs.Plans.{Instance};
ghost use Rattle.machine_model.specs.State.{Machine};
ghost use Rattle.machine_making.specs.Makes.{IsTheMachines};

/// What `add_instance` does to the tree and the trace is what the machine does where it adds an instance that looks so.
pub fn adding_is_the_machines()
    ensures { (origin : Option ObjNo) (planned : List Planned) (i : Instance) (m : Machine) (old new : Live) (told longer : List Entry) (before starts : List ObjNo) → IsTheMachines origin planned i m old new told longer before starts }
{}
