//! The entries of the trace, and the bytes of each. `print_entry` gives exactly the bytes that `specs/Entries.antt` says: an
//! entry is a line of text, which `specs/Shown.antt` puts together from the texts of values, objects and causes, and its
//! bytes are that text in UTF-8 with a line end behind it.
#![tactic(auto)]

mod causes;
mod entry;
mod print;
mod shown;
#[cfg(test)]
mod tests;
mod values;

pub use entry::{Entry, Named, Site, Texts};
pub use print::print_entry;
