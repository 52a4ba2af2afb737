//! The names that an object as written has, with what each finds: those of its built-in type, of the documents of its type and
//! of its own text, in this order. Exactly those of the definitions (`names_of_row` of `instance_plans`, `names_written` of
//! `machine_model`).
#![tactic(auto)]

mod names;
mod signals;

pub use names::find_name;
pub use signals::{find_signal, is_signal};
