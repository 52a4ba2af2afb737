//! The names of the instances of a plan, as live names are known: what each object has under which name, ids, and delegate
//! names. Exactly what the definitions of `instance_plans` say (`specs/NamesMade.antt`, `specs/Shaped.antt` there).
#![tactic(auto)]

mod counts;
mod objects;
mod rows;
mod shapes;
mod told;

pub use objects::names_of;
pub use shapes::plan_shapes;
