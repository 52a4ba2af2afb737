//! Operators over values that are there (ECMA-262, 13). Each call gives what `specs/Operate.antt` of `js_meaning` says, and
//! want of memory is its only other answer.
#![tactic(auto)]

mod adding;
mod bits;
mod conditions;
mod heavy;
mod numbers;
mod operating;
mod orders;
mod prefixes;
mod texts;

pub use adding::{MOST_UNITS, text_value};
pub use bits::low_bits;
pub use conditions::{decided, is_nothing, truth};
pub use heavy::{weighed, weighed_list};
pub use numbers::within;
pub use operating::{operate, operate_rounded};
pub use orders::same;
pub use prefixes::operate_prefix;
