//! Where the units of a text stand.

ghost use Rattle.std.specs.Prelude.{◌≡◌, ◌≤◌, [], length, take, IfOk};
ghost use Rattle.qml_text.specs.Store.{IsSound, stored};

use crate::fault::NoMemory;
use std::alloc::Global;

/// The most units that stand in the value itself.
const MOST_FEW: usize = 7;

/// The most units that stand in a block of fixed size.
const MOST_SHORT: usize = 12;

/// Where the units of a text stand. It takes 16 bytes, and what stands behind the counted units counts for nothing.
#[derive(Debug, Drop)]
pub enum Units {
    /// At most seven units, in the value itself.
    Few { len: u8, units: [u16; 7] },
    /// At most twelve units, in a block of as many places. Their number stands beside it, so the block has no head.
    Short { len: u8, units: Box<[u16; 12]> },
    /// Units in a block of just their size, behind a head of 24 bytes.
    Long(Box<Vec<u16>>),
}

/// Puts a unit of the same number for each byte.
fn widen(bytes: &[u8], units: &mut [u16])
    requires { length bytes.now ≡ length units.old }
    ensures { units.new ≡ bytes.now }
{
    for at in 0..bytes.len() {
        units[at] = u16::from(bytes[at]);
    }
}

impl Units {
    /// No units.
    pub fn none() -> Units
        ensures sound { IsSound result }
        ensures units { stored result ≡ [] }
    {
        Units::Few {
            len: 0,
            units: [0; MOST_FEW],
        }
    }

    /// A copy of these units.
    pub fn of_slice(alloc: Global, units: &[u16]) -> Result<Units, NoMemory>
        ensures sound { IfOk result (λ u. IsSound u) }
        ensures units { IfOk result (λ u. stored u ≡ units.now) }
    {
        let len = units.len();
        if len <= MOST_FEW {
            let mut kept = [0; MOST_FEW];
            kept[..len].copy_from_slice(units);
            return Ok(Units::few(len, kept));
        }
        if len <= MOST_SHORT {
            let mut kept = [0; MOST_SHORT];
            kept[..len].copy_from_slice(units);
            return Units::short(alloc, len, kept);
        }
        Units::long(alloc, Vec::from_slice(alloc, units)?)
    }

    /// A unit of the same number for each byte.
    pub fn of_latin1(alloc: Global, bytes: &[u8]) -> Result<Units, NoMemory>
        ensures sound { IfOk result (λ u. IsSound u) }
        ensures units { IfOk result (λ u. stored u ≡ bytes.now) }
    {
        let len = bytes.len();
        if len <= MOST_FEW {
            let mut kept = [0; MOST_FEW];
            widen(bytes, &mut kept[..len]);
            return Ok(Units::few(len, kept));
        }
        if len <= MOST_SHORT {
            let mut kept = [0; MOST_SHORT];
            widen(bytes, &mut kept[..len]);
            return Units::short(alloc, len, kept);
        }
        let mut units = vec![in alloc; 0; len]?;
        widen(bytes, &mut units);
        Units::long(alloc, units)
    }

    /// These units. Long ones stay where they are, less the room behind them.
    pub fn of_vec(alloc: Global, units: Vec<u16>) -> Result<Units, NoMemory>
        ensures sound { IfOk result (λ u. IsSound u) }
        ensures units { IfOk result (λ u. stored u ≡ units.items) }
    {
        if units.len() <= MOST_SHORT {
            return Units::of_slice(alloc, &units);
        }
        let mut kept = units;
        kept.shrink_to_fit();
        Units::long(alloc, kept)
    }

    /// The first few of these units.
    fn few(len: usize, units: [u16; 7]) -> Units
        requires { len ≤ 7 }
        ensures sound { IsSound result }
        ensures units { stored result ≡ take len units }
    {
        Units::Few {
            len: len as u8,
            units,
        }
    }

    /// The first of these units, in a block of fixed size.
    fn short(alloc: Global, len: usize, units: [u16; 12]) -> Result<Units, NoMemory>
        requires { len ≤ 12 }
        ensures sound { IfOk result (λ u. IsSound u) }
        ensures units { IfOk result (λ u. stored u ≡ take len units) }
    {
        let units = Box::new(alloc, units)?;
        Ok(Units::Short {
            len: len as u8,
            units,
        })
    }

    /// These units, in the block where they are.
    fn long(alloc: Global, units: Vec<u16>) -> Result<Units, NoMemory>
        ensures sound { IfOk result (λ u. IsSound u) }
        ensures units { IfOk result (λ u. stored u ≡ units.items) }
    {
        let block = Box::new(alloc, units)?;
        Ok(Units::Long(block))
    }

    /// The units, in order.
    pub fn as_slice(&self) -> &[u16]
        requires { IsSound self.now }
        ensures { result.now ≡ stored self.now }
    {
        match self {
            Units::Few { len, units } => &units[..usize::from(*len)],
            Units::Short { len, units } => &units[..usize::from(*len)],
            Units::Long(block) => block.as_slice(),
        }
    }
}
