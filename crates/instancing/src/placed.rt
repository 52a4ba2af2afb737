//! The numbers that an instance has given so far.

ghost use Rattle.std.specs.Prelude.{◌≡◌, ℕ, [], ◌∷◌, ◌++◌, IsTrue, MatchOption, OnOk, OnErr};
ghost use Rattle.instance_plans.specs.Numbers.{number_in};
ghost use Rattle.instancing.specs.Ascending.{Ascends};

use qml_base::NoMemory;
use std::alloc::Global;
use std::marker::Model;

/// Objects as written with the numbers that they have got, in order. Where the objects ascend, as those of a document do, one
/// is found by halving, and else by going through them. Contracts see the list of the pairs.
#[derive(Drop)]
pub struct Placed {
    numbers: Vec<(u32, u32)>,
    ascending: bool,
}

impl Model for Placed {
    ghost use Rattle.std.specs.Prelude.{ℕ, List, IsTrue};
    ghost use Rattle.instancing.specs.Ascending.{Ascends};

    ghost Value = { List (ℕ × ℕ) };

    ghost view = { λ p. p.numbers.items };

    ghost invariant = { λ p. IsTrue p.ascending → Ascends p.numbers.items };
}

impl Placed {
    /// No numbers. It takes no memory.
    pub fn new(alloc: Global) -> Placed
        ensures { result ≡ [] }
    {
        Placed {
            numbers: Vec::new(alloc),
            ascending: true,
        }
    }

    /// Puts an object with its number behind the others.
    pub fn push(&mut self, o: u32, number: u32) -> Result<(), NoMemory>
        ensures { OnOk result (self.new ≡ self.old ++ (o, number) ∷ []) }
    {
        let ascending = self.ascending && is_above(self.numbers.as_slice(), o);
        match self.numbers.push((o, number)) {
            Ok(()) => {
                self.ascending = ascending;
                Ok(())
            }
            Err(_) => {
                self.ascending = false;
                Err(NoMemory)
            }
        }
    }

    /// The number that an object as written has got.
    pub fn number(&self, o: u32) -> Option<u32>
        ensures { result ≡ number_in self.now o }
    {
        if self.ascending {
            number_by_halves(self.numbers.as_slice(), o)
        } else {
            number_of(self.numbers.as_slice(), o)
        }
    }

    /// All of them. It takes no memory.
    pub fn into_numbers(self) -> Vec<(u32, u32)>
        ensures { result.items ≡ self }
    {
        self.numbers
    }
}

/// Whether an object stands behind the last of these.
#[tactic(auto, using(crate::proofs::AscendingLemmas::more_ascend))]
fn is_above(numbers: &[(u32, u32)], o: u32) -> bool
    ensures { (n : ℕ) → Ascends numbers.now → IsTrue result → Ascends (numbers.now ++ (o, n) ∷ []) }
{
    match numbers.split_last() {
        Some((last, _)) => last.0 < o,
        None => true,
    }
}

/// The number of an object among these.
fn number_of(numbers: &[(u32, u32)], o: u32) -> Option<u32>
    ensures { result ≡ number_in numbers.now o }
{
    'numbers: for at in numbers {
        if at.0 == o {
            return Some(at.1);
        }
    }
    None
}

/// The number of an object among these, which ascend.
fn number_by_halves(numbers: &[(u32, u32)], o: u32) -> Option<u32>
    requires { Ascends numbers.now }
    ensures { result ≡ number_in numbers.now o }
{
    let mut rest = numbers;
    'halves: while let Some((front, at, behind)) = halves(rest) {
        if at.0 == o {
            return Some(at.1);
        }
        rest = if o < at.0 { front } else { behind };
    }
    None
}

/// The pairs before one in the middle, that one, and those behind it. None says that there are none.
fn halves(numbers: &[(u32, u32)]) -> Option<(&[(u32, u32)], (u32, u32), &[(u32, u32)])>
    ensures { MatchOption result (numbers.now ≡ []) (λ parts. numbers.now ≡ parts.0.now ++ (parts.1 ∷ parts.2.now)) }
{
    let (front, back) = numbers.split_at(numbers.len() / 2);
    match back.split_first() {
        Some((at, behind)) => Some((front, *at, behind)),
        None => None,
    }
}
