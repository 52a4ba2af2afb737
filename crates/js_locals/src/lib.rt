//! What a text's tree holds by places, and the locals of a call. Parts in a row are read as what they are parts of
//! (`specs/Laid.antt`); the locals of a call are one list, which stands for its scopes (`specs/Scopes.antt`); the names that
//! statements declare are gathered row by row (`specs/Gathering.antt`), by `var` however deep in their blocks. Each function
//! answers what the definitions of `js_meaning` say, or want of memory.
#![tactic(auto)]

mod gathering;
mod locals;
mod names;
mod parts;

pub use gathering::{DeclaredNames, Inner, first_names, let_names, row_behind, var_names};
pub use locals::{Local, Locals, Writable, bind, declare, find, leave, put, writable_in};
pub use names::{copied, name_of};
pub use parts::{
    first_part, for_parts, is_expression, is_key, is_var, is_var_node, next_part, node_at,
};
