//! Whole numbers.

ghost use Rattle.std.specs.Prelude.{◌≡◌, ◌^◌, ◌≤◌, pos, unsigned_abs};
ghost use Rattle.qml_value.specs.Numbers.{num_of};

use qml_base::NUMBER_LIMIT;
use std::marker::Model;
use thiserror::Error;

/// The greatest magnitude of a number: 2^53, up to which a number of ECMA-262 is exact (21.1.2.6
/// Number.MAX_SAFE_INTEGER is one less).
const GREATEST: i128 = NUMBER_LIMIT as i128;

/// The number's magnitude passes 2^53.
#[derive(Clone, Copy, Debug, PartialEq, Eq, Error)]
#[error("the number passes {NUMBER_LIMIT} in magnitude")]
pub struct PastLimit;

/// A whole number of at most 2^53 in magnitude. Contracts see it as that integer.
#[derive(Clone, Copy, Debug, PartialEq, Eq)]
pub struct Num(i64);

impl Model for Num {
    ghost use Rattle.std.specs.Prelude.{ℤ, ◌^◌, ◌≤◌, unsigned_abs};

    ghost Value = { ℤ };

    ghost view = { λ n. n.0 };

    ghost invariant = { λ n. unsigned_abs n.0 ≤ 2 ^ 53 };

    ghost inverse = { λ z. record { 0 = z } };
}

impl Num {
    /// The number n, or `PastLimit` exactly where its magnitude passes 2^53.
    pub fn new(n: i128) -> Result<Num, PastLimit>
        ensures { result ≡ num_of n }
    {
        if -GREATEST <= n && n <= GREATEST {
            Ok(Num(n as i64))
        } else {
            Err(PastLimit)
        }
    }

    /// The number n, which is never past the limit.
    pub fn small(n: u32) -> Num
        ensures { result ≡ pos n }
    {
        Num(i64::from(n))
    }

    /// The integer that it is.
    pub fn get(self) -> i64
        ensures value { result ≡ self }
        ensures small { unsigned_abs self ≤ 2 ^ 53 }
    {
        self.0
    }
}
