//! The machine before the opening.

ghost use Rattle.std.specs.Prelude.{◌≡◌, ◌++◌, ◌<◌, ◌^◌, length, map, IfOk, OnOk};
ghost use Rattle.qml_base.specs.declared.numbers.ExprNo.{ExprNo};
ghost use Rattle.qml_base.specs.declared.names.Home.{Home};
ghost use Rattle.evaluation.specs.Ask.{Ask};
ghost use Rattle.instance_plans.specs.NamesMade.{function_made, script_made, names_of_unit};
ghost use Rattle.instance_plans.specs.Shaped.{each_put, shape_made};
ghost use Rattle.unit_rows.specs.Seen.{rows_seen, all_seen};
ghost use Rattle.live_tree.specs.Live.{Knows};
ghost use Rattle.machine_model.specs.Texts.{binding_asks};
ghost use Rattle.machine_model.specs.Runs.{begun};
ghost use Rattle.machine_state.specs.Keeping.{machine_of, Ready};
ghost use Rattle.machine_begun.specs.Begun.{shapes_of, AddsUnits, IsEmpty};

use live_tree::LiveTree;
use machine_state::State;
use name_table::NameTable;
use qml_base::{ExprNo, Found, NoMemory, ObjNo, UnitNo};
use qml_scope::{Entry, Members, Shape};
use qml_text::Text;
use std::alloc::Global;
use unit_rows::Unit;

/// Puts a script's functions.
fn put_functions(
    alloc: Global,
    names: &mut NameTable<Found>,
    u: u32,
    functions: &[(Text, u32)],
) -> Result<(), NoMemory>
    ensures { OnOk result (names.new ≡ each_put names.old (map (function_made u) functions.now)) }
{
    'functions: for function in functions {
        let body = ExprNo {
            unit: UnitNo(u),
            at: function.1,
        };
        names.put(alloc, &function.0, Found::Body(body, ObjNo(0)))?;
    }
    Ok(())
}

/// Puts the qualifiers of scripts.
fn put_scripts(
    alloc: Global,
    names: &mut NameTable<Found>,
    scripts: &[(Text, u32)],
) -> Result<(), NoMemory>
    ensures { OnOk result (names.new ≡ each_put names.old (map script_made scripts.now)) }
{
    'scripts: for script in scripts {
        names.put(alloc, &script.0, Found::Script(UnitNo(script.1)))?;
    }
    Ok(())
}

/// The names of a unit that belong to no object, as those of an instance of their own.
#[tactic(auto, using(instance_names::proofs::TypeLemmas::each_append))]
fn shape(alloc: Global, u: u32, unit: &Unit) -> Result<Shape, NoMemory>
    ensures { IfOk result (λ s. s ≡ shape_made (names_of_unit u (rows_seen unit.now))) }
{
    let mut names = NameTable::new(alloc);
    put_functions(alloc, &mut names, u, unit.functions.as_slice())?;
    put_scripts(alloc, &mut names, unit.scripts.as_slice())?;
    let mut members = Members::new(alloc);
    members.push(Entry {
        object: ObjNo(0),
        names,
    })?;
    Ok(Shape {
        unit: UnitNo(u),
        root: ObjNo(0),
        enclosing: None,
        ids: NameTable::new(alloc),
        names: NameTable::new(alloc),
        members,
    })
}

/// Adds the names of units.
fn add_units(alloc: Global, tree: &mut LiveTree, units: &[Unit]) -> Result<(), NoMemory>
    requires { length units.now < 2 ^ 32 }
    ensures adds { OnOk result (AddsUnits 0 units.now tree.old tree.new) }
    ensures knows { (asks : ExprNo → Home → Ask) → Knows asks tree.old → Knows asks tree.new }
{
    'units: for (u, unit) in units.iter().enumerate() {
        let shape = shape(alloc, u as u32, unit)?;
        tree.add_shape(shape)?;
    }
    Ok(())
}

/// The names of all units, and no objects.
fn tree_of(alloc: Global, units: &[Unit]) -> Result<LiveTree, NoMemory>
    ensures empty { IfOk result (λ t. IsEmpty units.now t) }
    ensures knows { (asks : ExprNo → Home → Ask) → IfOk result (λ t. Knows asks t) }
{
    if units.len() > u32::MAX as usize {
        return Err(NoMemory);
    }
    let mut tree = LiveTree::new(alloc);
    add_units(alloc, &mut tree, units)?;
    Ok(tree)
}

/// The machine of these units before the opening.
#[tactic(auto, using(crate::proofs::BegunLemmas::is_begun))]
pub fn begin<'a>(alloc: Global, units: &'a [Unit]) -> Result<State<'a>, NoMemory>
    ensures begun { IfOk result (λ s. machine_of s ≡ begun (all_seen units.now)) }
    ensures ready { (asks : ExprNo → Home → Ask) → asks ≡ binding_asks (all_seen units.now) → IfOk result (λ s. Ready asks s) }
{
    let tree = tree_of(alloc, units)?;
    Ok(State {
        units,
        tree,
        written: Vec::new(alloc),
        time: 0,
        turns: 0,
        trace: Vec::new(alloc),
        answered: 0,
    })
}
