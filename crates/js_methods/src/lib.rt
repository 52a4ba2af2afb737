//! Members and reading methods of values that are there (ECMA-262, 21 to 23), and of what hidden cells hold. Each call gives
//! what `specs/Methods.antt` and `specs/Looking.antt` of `js_meaning` say, and want of memory is its only other answer.
#![tactic(auto)]

mod arguments;
mod joining;
mod list_methods;
mod mathematics;
mod members;
mod methods;
mod naming;
mod searching;
mod splitting;
mod text_methods;
mod texts;

pub use arguments::first_of;
pub use mathematics::math;
pub use members::{element_at, member_of_plain};
pub use methods::{method, part_of, text_from};
pub use naming::named;
