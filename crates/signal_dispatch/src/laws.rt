//! What the list of a signal's deliveries is made of, as a law on the definitions.

ghost use Rattle.std.specs.Prelude.{◌≡◌, ◌++◌, List, Some, None};
ghost use Rattle.qml_base.specs.declared.numbers.ObjNo.{ObjNo};
ghost use Rattle.qml_value.specs.declared.value.Value.{Value};
ghost use Rattle.instance_plans.specs.declared.planned.Planned.{Planned};
ghost use Rattle.machine_model.specs.State.{Machine, Signal};
ghost use Rattle.machine_model.specs.Dispatch.{written_at, builtin_in, deliveries};
ghost use Rattle.own_handlers.specs.Own.{own_deliveries};
ghost use Rattle.signal_dispatch.specs.Listing.{reactions, heard_at};

/// The deliveries of a signal are the object's own reaction, what `own_handlers` gives of its own handlers, and what Connections
/// hear, in this order; of an object of which nothing is known but its number, the reaction alone.
#[tactic(auto, using(crate::proofs::ListLemmas::by_parts, crate::proofs::ListLemmas::without_rows))]
pub fn deliveries_by_parts()
    ensures written { (m : Machine) (o : ObjNo) (s : Signal) (args : List Value) (x : Planned) → written_at m o ≡ Some x →
        deliveries m o s args ≡ reactions o (builtin_in m o) s ++ (own_deliveries m.units x o s args ++ heard_at m x o s args) }
    ensures unwritten { (m : Machine) (o : ObjNo) (s : Signal) (args : List Value) → written_at m o ≡ None →
        deliveries m o s args ≡ reactions o (builtin_in m o) s }
{}
