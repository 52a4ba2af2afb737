//! The type of texts, and its calls that make or take single parts.

ghost use Rattle.std.specs.Prelude.{◌≡◌, ◌≤◌, [], length, slice_range, ◌↔◌, IsTrue, IfOk};
ghost use Rattle.std.specs.Fmt.{signed_decimal};

use crate::fault::NoMemory;
use crate::store::Units;
use itoa::Buffer;
use std::alloc::Global;
use std::marker::Model;

/// A text: UTF-16 units in order, from place 0 on. Contracts see it as the list of its units. It takes 16 bytes. Up to
/// seven units stand in them, and more of them in a block on the heap, of twelve places or of just their size.
#[derive(Debug, Drop)]
pub struct Text {
    units: Units,
}

impl Model for Text {
    ghost use Rattle.std.specs.Prelude.{ℕ, List};

    ghost Value = { List ℕ };

    ghost use Rattle.qml_text.specs.Store.{IsSound, stored};

    ghost view = { λ t. stored t.units };

    ghost invariant = { λ t. IsSound t.units };
}

impl Text {
    /// The empty text. It takes no memory.
    pub fn new() -> Text
        ensures { result ≡ [] }
    {
        Text {
            units: Units::none(),
        }
    }

    /// The text of these units. Where they are more than a few they stay where they are, less the room behind them.
    pub fn from_units(alloc: Global, units: Vec<u16>) -> Result<Text, NoMemory>
        ensures { IfOk result (λ t. t ≡ units.items) }
    {
        let units = Units::of_vec(alloc, units)?;
        Ok(Text { units })
    }

    /// The text of a copy of these units.
    pub fn from_slice(alloc: Global, units: &[u16]) -> Result<Text, NoMemory>
        ensures { IfOk result (λ t. t ≡ units.now) }
    {
        let units = Units::of_slice(alloc, units)?;
        Ok(Text { units })
    }

    /// The text that has a unit of the same number for each byte, as Latin-1 has it (ISO/IEC 8859-1).
    pub fn from_latin1(alloc: Global, bytes: &[u8]) -> Result<Text, NoMemory>
        ensures { IfOk result (λ t. t ≡ bytes.now) }
    {
        let units = Units::of_latin1(alloc, bytes)?;
        Ok(Text { units })
    }

    /// Its units, in order.
    pub fn units(&self) -> &[u16]
        ensures { result.now ≡ self.now }
    {
        self.units.as_slice()
    }

    /// How many units it has.
    pub fn len(&self) -> usize
        ensures { result ≡ length self.now }
    {
        self.units().len()
    }

    /// Whether it has no unit.
    pub fn is_empty(&self) -> bool
        ensures { IsTrue result ↔ (self.now ≡ []) }
    {
        self.units().is_empty()
    }

    /// A text of the same units.
    pub fn copy(&self, alloc: Global) -> Result<Text, NoMemory>
        ensures { IfOk result (λ t. t ≡ self.now) }
    {
        Text::from_slice(alloc, self.units())
    }

    /// Whether two texts have the same units (ECMA-262, 7.2.12 SameValueNonNumber, of strings).
    pub fn same(&self, other: &Text) -> bool
        ensures { IsTrue result ↔ (self.now ≡ other.now) }
    {
        self.units() == other.units()
    }

    /// The units from place `from` up to place `to`, without it (ECMA-262, 6.1.4, "substring of S from inclusiveStart
    /// to exclusiveEnd").
    pub fn sub(&self, alloc: Global, from: usize, to: usize) -> Result<Text, NoMemory>
        requires ordered { from ≤ to }
        requires within { to ≤ length self.now }
        ensures { IfOk result (λ t. t ≡ slice_range self.now from to) }
    {
        Text::from_slice(alloc, &self.units()[from..to])
    }

    /// The text of a number: its decimal digits, `-` before them where it is below 0 (ECMA-262, 6.1.6.1.20
    /// Number::toString, of integers).
    pub fn of_number(alloc: Global, n: i64) -> Result<Text, NoMemory>
        ensures { IfOk result (λ t. t ≡ signed_decimal n) }
    {
        let mut digits = Buffer::new();
        Text::from_latin1(alloc, digits.format(n).as_bytes())
    }
}
