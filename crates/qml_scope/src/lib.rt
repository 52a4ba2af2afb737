//! What names find from a home, over the live instances of components: `Shapes` is the table of these and of the types
//! of objects, `resolve` and `member` are the definitions of `specs/Shapes.antt` exactly.
#![tactic(auto)]

mod cell_names;
mod finding;
mod instances;
mod looking;
mod named;
mod resolving;
mod seats;
mod shape;
mod shapes;

pub use name_table::NameTable;
pub use resolving::{is_id, member, resolve};
pub use shape::{Entry, Members, Shape};
pub use shapes::Shapes;
