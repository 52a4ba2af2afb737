//! The values of the language: what a property holds and what an expression gives. Each rule on them is promised exactly:
//! whole numbers up to 2^53 in magnitude (`specs/Numbers.antt`), which values are the same, how heavy and how deeply
//! nested one is (`specs/Weights.antt`), its text (`specs/Texts.antt`), what counts as true, and fields with distinct
//! names (`specs/Naming.antt`). Want of memory is the only free answer.
#![tactic(auto)]

mod builder;
mod fields;
mod gone;
mod laws;
mod list;
mod number;
mod row;
mod same;
mod scrub;
#[cfg(test)]
mod tests;
mod text;
mod truth;
mod value;
mod weight;

pub use builder::FieldsBuilder;
pub use fields::PutFault;
pub use gone::GoneObjects;
pub use laws::{
    one_value_under_a_name, parts_make_the_whole, puts_one_value, same_values_measure_the_same,
    sameness_goes_by_contents, sameness_is_an_equivalence, scrubbing_changes_what_names_one,
};
pub use list::TooDeep;
pub use number::{Num, PastLimit};
pub use row::Row;
pub use text::TextOfFault;
pub use value::{Field, Fields, Kind, List, Value};
