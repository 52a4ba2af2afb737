//! What the names of a program mean: paths of files and imports, the objects of a document with their members as rows, the
//! order in which files are read, what an object has, where an alias ends, which objects stand together in a component and
//! what a path of names gives a value to. It holds definitions, a fault with its place, and the law that reading ends in
//! one way.
#![tactic(auto)]

mod fault;
mod laws;

pub use fault::Fault;
pub use laws::{reading_asks_for_no_other_file, reading_ends_one_way};
