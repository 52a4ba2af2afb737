//! The cells, and the calls on them.
ghost use Rattle.std.specs.Prelude.{◌≡◌, ◌+◌, ◌^◌, ◌<◌, ◌≤◌, [], ◌∷◌, ◌++◌, length, slice_get, slice_set, pos, Some, OnOk, OnErr};
ghost use Rattle.first_tree.specs.Settles.{Settles};
ghost use Rattle.first_tree.specs.Sweeps.{Evaluates};

use crate::{sweeps, values};
use qml_base::{NoMemory, Steps};
use qml_model::{Content, Outcome};
use sqlite_items::Items;
use std::alloc::{AllocError, Global};
use std::marker::Model;
use std::sync::ledger::Ledger;

/// The cells whose held values changed, in ascending order of their numbers.
#[derive(Debug, Drop)]
pub struct Changed {
    pub cells: Items<u32>,
}

/// Why the cells did not settle.
#[derive(Clone, Copy, Debug, PartialEq, Eq)]
pub enum SettleFault {
    /// Some result is past 2^53 in magnitude, and this is the lowest cell whose evaluation comes to it.
    Past { cell: u32 },
    /// There was no memory for the list of changed cells.
    NoMemory,
}

impl From<AllocError> for SettleFault {
    ghost use Rattle.std.specs.Prelude.{◌≡◌};
    ghost use Rattle.first_tree.specs.declared.tree.SettleFault.TheVariants as fault;

    ghost from_gives = { λ _ e. e ≡ fault.NoMemory };

    fn from(_e: AllocError) -> SettleFault {
        SettleFault::NoMemory
    }
}

/// The greatest number of cells, so that each has a number of 32 bits.
const MOST_CELLS: usize = 1 << 32;

/// Cells by number, from 0 on. Each has a content and holds a value.
///
/// Contracts see the contents and the held values, in two lists of one length.
#[derive(Drop)]
pub struct LiveTree {
    contents: Vec<Content>,
    values: Vec<i64>,
    outcomes: Vec<Outcome>,
}

impl Model for LiveTree {
    ghost use Rattle.std.specs.Prelude.{◌≡◌, ◌^◌, ◌≤◌, length, vec_len};
    ghost use Rattle.qml_model.specs.Settling.{State};

    ghost Value = { State };

    ghost view = { λ t. record { contents = t.contents.items; values = t.values.items } };

    ghost invariant = { λ t. (length t.contents.items ≡ length t.values.items) × (length t.outcomes.items ≡ length t.values.items) × (length t.values.items ≤ 2 ^ 32) };
}

impl LiveTree {
    /// No cells.
    pub fn new(alloc: Global) -> LiveTree
        ensures contents { result.contents ≡ [] }
        ensures values { result.values ≡ [] }
    {
        LiveTree {
            contents: Vec::new(alloc),
            values: Vec::new(alloc),
            outcomes: Vec::new(alloc),
        }
    }

    /// How many cells there are.
    pub fn len(&self) -> usize
        ensures contents { result ≡ length self.now.contents }
        ensures values { result ≡ length self.now.values }
    {
        self.contents.len()
    }

    /// Adds a cell under the next number, which holds 0 until it settles. Want of memory, which is also the answer where
    /// 4,294,967,296 cells stand, leaves the tree as it was.
    ///
    /// A content may name any cell, also one that is added later; a cell that isn't there is read as a loop.
    pub fn add(&mut self, content: Content) -> Result<(), NoMemory>
        ensures ok { OnOk result (self.new ≡ record { contents = self.old.contents ++ content ∷ []; values = self.old.values ++ pos 0 ∷ [] }) }
        ensures err { OnErr result (self.new ≡ self.old) }
    {
        if self.values.len() >= MOST_CELLS || self.values.push(0).is_err() {
            return Err(NoMemory);
        }
        if self.outcomes.push(Outcome::Loop).is_err() {
            self.values.pop();
            return Err(NoMemory);
        }
        if self.contents.push(content).is_err() {
            self.outcomes.pop();
            self.values.pop();
            return Err(NoMemory);
        }
        Ok(())
    }

    /// Replaces the content of a cell that is there by a number, which it holds once it settles.
    pub fn write(&mut self, cell: u32, n: i64)
        requires { cell < length self.old.contents }
        ensures contents { self.new.contents ≡ slice_set self.old.contents cell (Content.Plain n) }
        ensures values { self.new.values ≡ self.old.values }
    {
        self.contents[cell as usize] = Content::Plain(n);
    }

    /// The value that a cell that is there holds.
    pub fn read(&self, cell: u32) -> i64
        requires { cell < length self.now.contents }
        ensures { slice_get self.now.values cell ≡ Some result }
    {
        self.values[cell as usize]
    }

    /// Settles all cells at once: every binding is evaluated afresh, a value is then held, and a cell that loops keeps what
    /// it held. Gives the cells whose values changed, by number.
    ///
    /// `Past` comes exactly where some cell is past the limit, and names the lowest. The values are then as they were, and
    /// the tree accepts nothing more: what is done with it afterwards is the caller's own condition.
    ///
    /// Each evaluation of a binding is one step, and nothing else is. A number is no binding, and is never evaluated.
    pub fn settle<L: Ledger>(
        &mut self,
        alloc: Global,
        steps: &mut Steps<L>,
    ) -> Result<Changed, SettleFault>
        ensures settles { Settles self.old result self.new }
        ensures steps { Evaluates self.old.contents steps.old steps.new }
    {
        settle_cells(
            alloc,
            self.contents.as_slice(),
            self.outcomes.as_mut_slice(),
            self.values.as_mut_slice(),
            steps,
        )
    }
}

/// Settles the values of these contents. The table is for the outcomes, whatever it has at first.
fn settle_cells<L: Ledger>(
    alloc: Global,
    contents: &[Content],
    table: &mut [Outcome],
    values: &mut [i64],
    steps: &mut Steps<L>,
) -> Result<Changed, SettleFault>
    requires small { length values.old ≤ 2 ^ 32 }
    requires contents { length contents.now ≡ length values.old }
    requires table { length table.old ≡ length values.old }
    ensures settles { Settles (record { contents = contents.now; values = values.old }) result (record { contents = contents.now; values = values.new }) }
    ensures steps { Evaluates contents.now steps.old steps.new }
{
    sweeps::refresh(contents, table, steps);
    values::settle(alloc, table, values)
}
