//! How a quotient is rounded.

/// How a quotient that stands directly inside `Math.floor`, `Math.ceil` or `Math.trunc` is rounded.
#[derive(Clone, Copy, Debug, PartialEq, Eq)]
pub enum Rounding {
    /// To the greatest whole number that isn't greater.
    Down,
    /// To the least whole number that isn't less.
    Up,
    /// To the nearest whole number on the side of zero.
    TowardsZero,
}
