//! The machine's state.

ghost use Rattle.std.specs.Prelude.{◌≡◌, ◌++◌, ◌∷◌, [], OnOk};
ghost use Rattle.qml_base.specs.declared.numbers.ExprNo.{ExprNo};
ghost use Rattle.qml_base.specs.declared.names.Home.{Home};
ghost use Rattle.evaluation.specs.Ask.{Ask};
ghost use Rattle.live_tree.specs.Live.{Knows};
ghost use Rattle.unit_rows.specs.Seen.{all_seen};
ghost use Rattle.machine_model.specs.Acts.{goes, tell as tell_it};
ghost use Rattle.machine_model.specs.Runs.{begun};
ghost use Rattle.machine_state.specs.Keeping.{machine_of};

use instance_plans::Planned;
use live_tree::LiveTree;
use qml_base::NoMemory;
use trace_print::Entry;
use unit_rows::Unit;

/// The machine's state.
#[derive(Drop)]
pub struct State<'a> {
    /// What was loaded.
    pub units: &'a [Unit],
    /// The objects with their cells and names.
    pub tree: LiveTree,
    /// How the objects are written, in the order of their numbers.
    pub written: Vec<Planned>,
    /// Engine time in milliseconds.
    pub time: u64,
    /// The deliveries that the line may still have.
    pub turns: u32,
    /// What was told.
    pub trace: Vec<Entry>,
    /// How many answers of hosts and of files were taken.
    pub answered: u64,
}

impl<'a> State<'a> {
    /// Puts an entry behind the trace. Without memory the trace stays.
    pub fn tell(&mut self, entry: Entry) -> Result<(), NoMemory>
        ensures told { OnOk result (tell_it entry (machine_of self.old) ≡ goes tt (machine_of self.new)) }
        ensures tree { self.new.tree ≡ self.old.tree }
        ensures units { self.new.units ≡ self.old.units }
    {
        self.trace.push(entry)?;
        Ok(())
    }
}
