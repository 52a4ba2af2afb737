//! The store.

ghost use Rattle.std.specs.Prelude.{◌≡◌, ◌<◌, ◌≤◌, ◌^◌, ◌++◌, [], Some, length, map, slice_get, slice_set, take, OnOk, OnErr, vec_len};
ghost use Rattle.tree_model.specs.declared.cells.Cell.{Cell};
ghost use Rattle.tree_model.specs.declared.cells.Content.TheVariants.{Plain as plain, Bound as bound};
ghost use Rattle.tree_model.specs.Settling.{place_of, AllSpared};
ghost use Rattle.tree_model.specs.Removing.{scrubbed_cells};
ghost use Rattle.qml_value.specs.declared.value.Value.{Undefined as undefined};
ghost use Rattle.property_store.specs.Lying.{AllBelow, IsKept, numbers_of};
ghost use Rattle.property_store.specs.Stores.{with_content, with_held, with_outcome, without_note, new_cells, IsNextNoted};

use crate::adding::{make_room, push_cells};
use crate::changing::{hold, replace};
use crate::places::find;
use crate::scrubbing::{clear_notes, drop_cells, next_noted, place_all, scrub_cells};
use qml_base::{CellNo, NoMemory, ObjNo};
use qml_types::PropKind;
use qml_value::{GoneObjects, Value};
use std::alloc::Global;
use std::marker::Model;
use tree_model::{Binding, Cell, Content, NewCell, Outcome};

/// The most cells that there is a place for.
const MOST_CELLS: usize = 4_000_000_000;

/// The cells of all objects. Contracts see them as the list of the cells, in the order of objects and places.
#[derive(Drop)]
pub struct Store {
    /// Where the cells of each object begin.
    starts: Vec<u32>,
    cells: Vec<Cell>,
}

/// The cells by themselves, with the table of where each object's begin, by its number.
#[derive(Drop)]
pub struct Cells {
    pub starts: Vec<u32>,
    pub cells: Vec<Cell>,
}

impl Model for Store {
    ghost use Rattle.std.specs.Prelude.{List, ◌<◌, ◌^◌, vec_len};
    ghost use Rattle.tree_model.specs.declared.cells.Cell.{Cell};
    ghost use Rattle.property_store.specs.Lying.{IsKept};
    ghost use Rattle.qml_value.specs.contracts.value.Value as value;
    ghost use Rattle.std.specs.Coded.{codes};

    ghost Value = { List Cell };

    ghost coded = { Prim.hlevel (codes, value.the_row.coded) };

    ghost view = { λ s. s.cells.items };

    ghost invariant = { λ s. IsKept s.starts.items s.cells.items × (vec_len s.cells < 2 ^ 32) };
}

impl Store {
    /// No cells. It takes no memory.
    pub fn new(alloc: Global) -> Store
        ensures { result ≡ [] }
    {
        Store {
            starts: Vec::new(alloc),
            cells: Vec::new(alloc),
        }
    }

    /// Appends the cells of an object, whose number is above those of all objects that have cells. Without memory nothing
    /// changes.
    pub fn add_cells(&mut self, o: ObjNo, new: Vec<NewCell>) -> Result<(), NoMemory>
        requires some { 0 < o.0 }
        requires last { AllBelow o.0 (numbers_of self.old) }
        ensures ok { OnOk result (self.new ≡ self.old ++ new_cells o 0 new.items) }
        ensures err { OnErr result (self.new ≡ self.old) }
    {
        let first = self.cells.len();
        if new.len() > MOST_CELLS || first > MOST_CELLS - new.len() {
            return Err(NoMemory);
        }
        let object = o.0 as usize;
        if make_room(&mut self.starts, object).is_err() || self.cells.reserve(new.len()).is_err() {
            return Err(NoMemory);
        }
        push_cells(&mut self.cells, o, new);
        self.starts[object] = first as u32;
        Ok(())
    }

    /// All cells, in order.
    pub fn cells(&self) -> &[Cell]
        ensures { result.now ≡ self.now }
    {
        self.cells.as_slice()
    }

    /// How many there are.
    pub fn len(&self) -> usize
        ensures { result ≡ length self.now }
    {
        self.cells.len()
    }

    /// Drops all cells but the first n.
    pub fn keep_first(&mut self, n: usize)
        ensures { self.new ≡ take n self.old }
    {
        self.cells.truncate(n);
    }

    /// Where the cell stands among them; how many there are where it isn't there.
    pub fn place(&self, c: CellNo) -> usize
        ensures { result ≡ place_of self.now c }
    {
        find(self.starts.as_slice(), self.cells.as_slice(), c)
    }

    /// The cells by themselves.
    pub fn into_cells(self) -> Cells
        ensures cells { result.cells.items ≡ self }
        ensures kept { IsKept result.starts.items result.cells.items }
        ensures few { vec_len result.cells < 2 ^ 32 }
    {
        let Store { starts, cells } = self;
        Cells { starts, cells }
    }

    /// The store of these cells.
    pub fn of_cells(all: Cells) -> Store
        requires kept { IsKept all.starts.items all.cells.items }
        requires few { vec_len all.cells < 2 ^ 32 }
        ensures { result ≡ all.cells.items }
    {
        let Cells { starts, cells } = all;
        Store { starts, cells }
    }

    /// What the cell holds.
    pub fn held(&self, c: CellNo) -> &Value
        requires { place_of self.now c < length self.now }
        ensures { (cell : Cell) → slice_get self.now (place_of self.now c) ≡ Some cell → result.now ≡ cell.held }
    {
        let at = find(self.starts.as_slice(), self.cells.as_slice(), c);
        &self.cells[at].held
    }

    /// How the last settling ended for the cell.
    pub fn outcome(&self, c: CellNo) -> Outcome
        requires { place_of self.now c < length self.now }
        ensures { (cell : Cell) → slice_get self.now (place_of self.now c) ≡ Some cell → result ≡ cell.outcome }
    {
        let at = find(self.starts.as_slice(), self.cells.as_slice(), c);
        self.cells[at].outcome
    }

    /// What the cell contains.
    pub fn content(&self, c: CellNo) -> &Content
        requires { place_of self.now c < length self.now }
        ensures { (cell : Cell) → slice_get self.now (place_of self.now c) ≡ Some cell → result.now ≡ cell.content }
    {
        let at = find(self.starts.as_slice(), self.cells.as_slice(), c);
        &self.cells[at].content
    }

    /// The kind of the cell.
    pub fn kind(&self, c: CellNo) -> &PropKind
        requires { place_of self.now c < length self.now }
        ensures { (cell : Cell) → slice_get self.now (place_of self.now c) ≡ Some cell → result.now ≡ cell.kind }
    {
        let at = find(self.starts.as_slice(), self.cells.as_slice(), c);
        &self.cells[at].kind
    }

    /// Puts how a settling ended for the cell.
    pub fn put_outcome(&mut self, c: CellNo, o: Outcome)
        requires { place_of self.old c < length self.old }
        ensures { (cell : Cell) → slice_get self.old (place_of self.old c) ≡ Some cell → self.new ≡ slice_set self.old (place_of self.old c) (with_outcome cell o) }
    {
        let at = find(self.starts.as_slice(), self.cells.as_slice(), c);
        self.cells[at].outcome = o;
    }

    /// Puts how a settling ended for the cell at the place.
    pub fn put_outcome_at(&mut self, at: usize, o: Outcome)
        requires { at < length self.old }
        ensures { (cell : Cell) → slice_get self.old at ≡ Some cell → self.new ≡ slice_set self.old at (with_outcome cell o) }
    {
        self.cells[at].outcome = o;
    }

    /// Puts a content in the place of the cell's, which it hands back.
    fn replace(&mut self, c: CellNo, content: Content) -> Content
        requires { place_of self.old c < length self.old }
        ensures new { (cell : Cell) → slice_get self.old (place_of self.old c) ≡ Some cell → self.new ≡ slice_set self.old (place_of self.old c) (with_content cell content) }
        ensures old { (cell : Cell) → slice_get self.old (place_of self.old c) ≡ Some cell → result ≡ cell.content }
    {
        let at = find(self.starts.as_slice(), self.cells.as_slice(), c);
        replace(&mut self.cells[at], content)
    }

    /// Puts a value as the cell's content, and hands back the old content. What the cell holds and how it ended stay.
    pub fn assign(&mut self, c: CellNo, v: Value) -> Content
        requires { place_of self.old c < length self.old }
        ensures new { (cell : Cell) → slice_get self.old (place_of self.old c) ≡ Some cell → self.new ≡ slice_set self.old (place_of self.old c) (with_content cell (plain v)) }
        ensures old { (cell : Cell) → slice_get self.old (place_of self.old c) ≡ Some cell → result ≡ cell.content }
    {
        self.replace(c, Content::Plain(v))
    }

    /// Puts a binding as the cell's content, and hands back the old content. What the cell holds and how it ended stay.
    pub fn bind(&mut self, c: CellNo, b: Binding) -> Content
        requires { place_of self.old c < length self.old }
        ensures new { (cell : Cell) → slice_get self.old (place_of self.old c) ≡ Some cell → self.new ≡ slice_set self.old (place_of self.old c) (with_content cell (bound b)) }
        ensures old { (cell : Cell) → slice_get self.old (place_of self.old c) ≡ Some cell → result ≡ cell.content }
    {
        self.replace(c, Content::Bound(b))
    }

    /// Moves the cell's content out and leaves undefined.
    pub fn take_content(&mut self, c: CellNo) -> Content
        requires { place_of self.old c < length self.old }
        ensures new { (cell : Cell) → slice_get self.old (place_of self.old c) ≡ Some cell → self.new ≡ slice_set self.old (place_of self.old c) (with_content cell (plain undefined)) }
        ensures old { (cell : Cell) → slice_get self.old (place_of self.old c) ≡ Some cell → result ≡ cell.content }
    {
        self.replace(c, Content::Plain(Value::Undefined))
    }

    /// Moves a content in.
    pub fn put_content(&mut self, c: CellNo, content: Content)
        requires { place_of self.old c < length self.old }
        ensures { (cell : Cell) → slice_get self.old (place_of self.old c) ≡ Some cell → self.new ≡ slice_set self.old (place_of self.old c) (with_content cell content) }
    {
        self.replace(c, content);
    }

    /// Puts what the cell holds, with a second copy of it where a text of another object binds the cell, and hands back the
    /// old value.
    pub fn hold(&mut self, c: CellNo, v: Value, spare: Option<Value>) -> Value
        requires { place_of self.old c < length self.old }
        ensures new { (cell : Cell) → slice_get self.old (place_of self.old c) ≡ Some cell → self.new ≡ slice_set self.old (place_of self.old c) (with_held cell v spare) }
        ensures old { (cell : Cell) → slice_get self.old (place_of self.old c) ≡ Some cell → result ≡ cell.held }
    {
        let at = find(self.starts.as_slice(), self.cells.as_slice(), c);
        hold(&mut self.cells[at], v, spare)
    }

    /// Drops the cells of the objects that are gone, puts null for each reference to one of these in the cells that stay, and
    /// what the cell holds for each content whose author is gone; notes each cell whose held value named one. It takes no
    /// memory.
    pub fn scrub(&mut self, gone: &[ObjNo])
        requires { AllSpared self.old }
        ensures { self.new ≡ scrubbed_cells gone.now self.old }
    {
        self.scrub_by(&GoneObjects::new(gone));
    }

    /// Does what `scrub` does, for numbers that were looked through.
    fn scrub_by(&mut self, gone: &GoneObjects)
        requires spared { AllSpared self.old }
        ensures { self.new ≡ scrubbed_cells gone.now self.old }
    {
        drop_cells(&mut self.cells, gone);
        place_all(self.starts.as_mut_slice(), self.cells.as_slice());
        scrub_cells(self.cells.as_mut_slice(), gone);
    }

    /// The least noted place at or after one, with its cell; none exactly where there is none.
    pub fn next_scrubbed(&self, from: usize) -> Option<(usize, CellNo)>
        ensures { IsNextNoted self.now from result }
    {
        next_noted(self.cells.as_slice(), from)
    }

    /// Drops the notes.
    pub fn clear_scrubbed(&mut self)
        ensures { self.new ≡ map without_note self.old }
    {
        clear_notes(self.cells.as_mut_slice());
    }
}
