//! The names of the objects of an instance: so far those that an object has from its built-in type. They are told one after another,
//! as `builtin_names` of `instance_plans`' definitions has them.
#![tactic(auto)]

mod builtin;
mod laws;
#[cfg(test)]
mod tests;

pub use builtin::{change_signal, changed, own_signal, put_builtin, text_of};
pub use laws::names_of_types_are_the_definitions;
