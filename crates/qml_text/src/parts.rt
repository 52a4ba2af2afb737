//! Parts of texts: where one stands, cutting a text at a separator, and joining texts.

ghost use Rattle.std.specs.Prelude.{◌≡◌, ◌+◌, ◌-◌, ◌<◌, ◌≤◌, ◌^◌, [], ◌∷◌, ◌++◌, length, map, slice_range, ◌↔◌, IsTrue, IfOk, MatchOption};
ghost use Rattle.qml_text.specs.Parts.{StandsAt, StandsFirstAt, StandsNowhere, IsSplit, join_of};

use crate::building::TextBuilder;
use crate::fault::NoMemory;
use crate::text::Text;
use std::alloc::Global;

/// Whether `part` stands in `text` from place `at` on.
fn stands_at(part: &[u16], text: &[u16], at: usize) -> bool
    requires { at + length part.now ≤ length text.now }
    ensures { IsTrue result ↔ StandsAt part.now text.now at }
{
    match part.first() {
        Some(first) => text[at] == *first && &text[at..at + part.len()] == part,
        None => true,
    }
}

/// The least place from `from` on at which `part` stands in `text`.
fn place_of(part: &[u16], text: &[u16], from: usize) -> Option<usize>
    ensures { MatchOption result (StandsNowhere part.now text.now from) (StandsFirstAt part.now text.now from) }
{
    if text.len() < part.len() {
        return None;
    }
    let last = text.len() - part.len();
    let mut at = from;
    while at <= last {
        if stands_at(part, text, at) {
            return Some(at);
        }
        at += 1;
    }
    None
}

/// A text for each unit.
fn single_units(alloc: Global, units: &[u16]) -> Result<Vec<Text>, NoMemory>
    ensures { IfOk result (λ parts. parts.items ≡ map (λ u. u ∷ []) units.now) }
{
    let mut parts = Vec::with_capacity(alloc, units.len())?;
    for unit in units {
        parts.push(Text::from_slice(alloc, &[*unit])?)?;
    }
    Ok(parts)
}

impl Text {
    /// The least place at or after `from` where the units of `part` stand, and None exactly where there is none
    /// (ECMA-262, 6.1.4.1 StringIndexOf).
    pub fn find(&self, part: &Text, from: usize) -> Option<usize>
        ensures { MatchOption result (StandsNowhere part.now self.now from) (StandsFirstAt part.now self.now from) }
    {
        place_of(part.units(), self.units(), from)
    }

    /// The parts between the places where `by` stands, found from the left; each unit by itself where `by` is empty
    /// (ECMA-262, 22.1.3.23 String.prototype.split, with a string and no limit).
    pub fn split(&self, alloc: Global, by: &Text) -> Result<Vec<Text>, NoMemory>
        ensures { IfOk result (λ parts. IsSplit by.now self.now parts.items) }
    {
        if by.is_empty() {
            return single_units(alloc, self.units());
        }
        let len = self.len();
        let mut parts = Vec::new(alloc);
        let mut from = 0;
        while let Some(at) = self.find(by, from) {
            parts.push(self.sub(alloc, from, at)?)?;
            from = at + by.len();
        }
        parts.push(self.sub(alloc, from, len)?)?;
        Ok(parts)
    }

    /// The parts in order, with `between` between two of them.
    pub fn join(alloc: Global, parts: &[Text], between: &Text) -> Result<Text, NoMemory>
        ensures { IfOk result (λ t. t ≡ join_of between.now parts.now) }
    {
        let Some((first, rest)) = parts.split_first() else {
            return Ok(Text::new());
        };
        let mut joined = TextBuilder::new(alloc);
        joined.append(first)?;
        for part in rest {
            joined.append(between)?;
            joined.append(part)?;
        }
        joined.finish(alloc)
    }
}
