//! Texts under way.

ghost use Rattle.std.specs.Prelude.{◌≡◌, ◌+◌, ◌≤◌, [], ◌∷◌, ◌++◌, length, IfOk, OnOk, OnErr};
ghost use Rattle.std.specs.Char.Escape.{encode_utf16};
ghost use Rattle.qml_text.specs.Growing.{grown};

use crate::fault::NoMemory;
use crate::text::Text;
use std::alloc::Global;
use std::marker::Model;

/// The most units that stand in a builder itself.
const MOST_INSIDE: usize = 32;

/// At most 32 units. Contracts see the list of them; what stands behind the counted ones counts for nothing.
#[derive(Debug, Drop)]
pub struct Inside {
    len: u8,
    units: [u16; 32],
}

impl Model for Inside {
    ghost use Rattle.std.specs.Prelude.{ℕ, List, take, ◌≤◌};

    ghost Value = { List ℕ };

    ghost view = { λ i. take i.len i.units };

    ghost invariant = { λ i. i.len ≤ 32 };
}

impl Inside {
    /// No units.
    fn new() -> Inside
        ensures { result ≡ [] }
    {
        Inside {
            len: 0,
            units: [0; MOST_INSIDE],
        }
    }

    /// The units, in order.
    fn as_slice(&self) -> &[u16]
        ensures units { result.now ≡ self.now }
        ensures few { length result.now ≤ 32 }
    {
        &self.units[..usize::from(self.len)]
    }

    /// Adds units at the end.
    fn add(&mut self, more: &[u16])
        requires { length self.old + length more.now ≤ 32 }
        ensures { self.new ≡ self.old ++ more.now }
    {
        let kept = usize::from(self.len);
        let all = kept + more.len();
        self.units[kept..all].copy_from_slice(more);
        self.len = all as u8;
    }
}

/// Where the units of a text under way stand.
#[derive(Debug, Drop)]
pub enum Grown {
    /// A few, in the value itself.
    Few(Inside),
    /// Any number, in a block.
    Many(Vec<u16>),
}

impl Grown {
    /// The units, in order.
    fn as_slice(&self) -> &[u16]
        ensures { result.now ≡ grown self.now }
    {
        match self {
            Grown::Few(units) => units.as_slice(),
            Grown::Many(units) => units.as_slice(),
        }
    }
}

/// These units in a block, with more behind them.
fn in_block(alloc: Global, units: &[u16], more: &[u16]) -> Result<Vec<u16>, NoMemory>
    ensures { IfOk result (λ b. b.items ≡ units.now ++ more.now) }
{
    let mut block = Vec::with_capacity(alloc, 2 * MOST_INSIDE)?;
    block.extend_from_slice(units)?;
    block.extend_from_slice(more)?;
    Ok(block)
}

/// A text that grows at its end. Contracts see it as the list of its units. Up to 32 units stand in it, and more of them in
/// a block on the heap.
#[derive(Debug, Drop)]
pub struct TextBuilder {
    alloc: Global,
    units: Grown,
}

impl Model for TextBuilder {
    ghost use Rattle.std.specs.Prelude.{ℕ, List};

    ghost Value = { List ℕ };

    ghost use Rattle.qml_text.specs.Growing.{grown};

    ghost view = { λ b. grown b.units };
}

impl TextBuilder {
    /// No units yet. It takes no memory.
    pub fn new(alloc: Global) -> TextBuilder
        ensures { result ≡ [] }
    {
        TextBuilder {
            alloc,
            units: Grown::Few(Inside::new()),
        }
    }

    /// No units yet, and room for so many.
    pub fn with_capacity(alloc: Global, capacity: usize) -> Result<TextBuilder, NoMemory>
        ensures { IfOk result (λ b. b ≡ []) }
    {
        if capacity <= MOST_INSIDE {
            return Ok(TextBuilder::new(alloc));
        }
        let units = Vec::with_capacity(alloc, capacity)?;
        Ok(TextBuilder {
            alloc,
            units: Grown::Many(units),
        })
    }

    /// How many units it has.
    pub fn len(&self) -> usize
        ensures { result ≡ length self.now }
    {
        self.units.as_slice().len()
    }

    /// Adds units at the end. On an error nothing changes.
    fn push_all(&mut self, more: &[u16]) -> Result<(), NoMemory>
        ensures ok { OnOk result (self.new ≡ self.old ++ more.now) }
        ensures err { OnErr result (self.new ≡ self.old) }
    {
        match &mut self.units {
            Grown::Few(units) => {
                let kept = units.as_slice();
                if more.len() <= MOST_INSIDE - kept.len() {
                    units.add(more);
                } else {
                    let block = in_block(self.alloc, kept, more)?;
                    self.units = Grown::Many(block);
                }
            }
            Grown::Many(units) => units.extend_from_slice(more)?,
        }
        Ok(())
    }

    /// Adds a unit at the end. On an error nothing changes.
    pub fn push_unit(&mut self, unit: u16) -> Result<(), NoMemory>
        ensures ok { OnOk result (self.new ≡ self.old ++ unit ∷ []) }
        ensures err { OnErr result (self.new ≡ self.old) }
    {
        self.push_all(&[unit])
    }

    /// Adds the one or two units of a character at the end (ECMA-262, 11.1.1 UTF16EncodeCodePoint). On an error nothing
    /// changes.
    pub fn push_char(&mut self, character: char) -> Result<(), NoMemory>
        ensures ok { OnOk result (self.new ≡ self.old ++ encode_utf16 character) }
        ensures err { OnErr result (self.new ≡ self.old) }
    {
        if character.is_ascii() {
            return self.push_unit(character as u16);
        }
        let mut pair = [0; 2];
        self.push_all(character.encode_utf16(&mut pair))
    }

    /// Adds the units of a text at the end. On an error nothing changes.
    pub fn append(&mut self, more: &Text) -> Result<(), NoMemory>
        ensures ok { OnOk result (self.new ≡ self.old ++ more.now) }
        ensures err { OnErr result (self.new ≡ self.old) }
    {
        self.push_all(more.units())
    }

    /// The text of its units.
    pub fn finish(self, alloc: Global) -> Result<Text, NoMemory>
        ensures { IfOk result (λ t. t ≡ self) }
    {
        match self.units {
            Grown::Few(units) => Text::from_slice(alloc, units.as_slice()),
            Grown::Many(units) => Text::from_units(alloc, units),
        }
    }
}
