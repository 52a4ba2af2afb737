//! Objects that are gone, and looking one up among them.

ghost use Rattle.std.specs.Prelude.{◌≡◌, [], ◌∷◌, ◌++◌, IsTrue, MatchOption};
ghost use Rattle.qml_value.specs.Scrubbing.{is_among, Ascends};

use qml_base::ObjNo;
use std::marker::Model;

/// The numbers of objects that are gone, looked through once: where they ascend, one is found among them by halving them,
/// and else by going through them. Contracts see them as the list of the numbers.
#[derive(Debug, Drop)]
pub struct GoneObjects<'a> {
    numbers: &'a [ObjNo],
    ascending: bool,
}

impl<'a> Model for GoneObjects<'a> {
    ghost use Rattle.std.specs.Prelude.{List, IsTrue};
    ghost use Rattle.qml_base.specs.declared.numbers.ObjNo.{ObjNo};
    ghost use Rattle.qml_value.specs.Scrubbing.{Ascends};

    ghost Value = { List ObjNo };

    ghost view = { λ g. g.numbers.now };

    ghost invariant = { λ g. IsTrue g.ascending → Ascends g.numbers.now };
}

impl<'a> GoneObjects<'a> {
    /// The objects of these numbers.
    pub fn new(numbers: &'a [ObjNo]) -> GoneObjects<'a>
        ensures { result ≡ numbers.now }
    {
        GoneObjects {
            numbers,
            ascending: ascend(numbers),
        }
    }

    /// Whether the number is one of these.
    pub fn has(&self, number: ObjNo) -> bool
        ensures { result ≡ is_among self.now number }
    {
        if self.ascending {
            is_one_by_halves(self.numbers, number)
        } else {
            is_one(self.numbers, number)
        }
    }
}

/// Whether each number is below the next.
fn ascend(numbers: &[ObjNo]) -> bool
    ensures { IsTrue result → Ascends numbers.now }
{
    let Some((first, rest)) = numbers.split_first() else {
        return true;
    };
    ascend_from(*first, rest)
}

/// Whether the number is below these, and each of them below the next.
fn ascend_from(first: ObjNo, rest: &[ObjNo]) -> bool
    ensures { IsTrue result → Ascends (first ∷ rest.now) }
{
    let mut last = first;
    'rest: for number in rest {
        if number.0 <= last.0 {
            return false;
        }
        last = *number;
    }
    true
}

/// Whether the number is one of these.
fn is_one(numbers: &[ObjNo], number: ObjNo) -> bool
    ensures { result ≡ is_among numbers.now number }
{
    'numbers: for other in numbers {
        if *other == number {
            return true;
        }
    }
    false
}

/// Whether the number is one of these, which ascend.
fn is_one_by_halves(numbers: &[ObjNo], number: ObjNo) -> bool
    requires { Ascends numbers.now }
    ensures { result ≡ is_among numbers.now number }
{
    let mut rest = numbers;
    'halves: while let Some((front, other, behind)) = halves(rest) {
        if other == number {
            return true;
        }
        rest = if number.0 < other.0 { front } else { behind };
    }
    false
}

/// The numbers before one in the middle, that one, and those behind it. None says that there are no numbers.
fn halves(numbers: &[ObjNo]) -> Option<(&[ObjNo], ObjNo, &[ObjNo])>
    ensures { MatchOption result (numbers.now ≡ []) (λ parts. numbers.now ≡ parts.0.now ++ (parts.1 ∷ parts.2.now)) }
{
    let (front, back) = numbers.split_at(numbers.len() / 2);
    match back.split_first() {
        Some((other, behind)) => Some((front, *other, behind)),
        None => None,
    }
}
