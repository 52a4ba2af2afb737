//! What the handlers that an object is written with have to do at a signal: the deliveries of the handlers of its types'
//! documents and of its own text, in order. Exactly those of `machine_model`'s definitions (`deliveries` of
//! `specs/Dispatch.antt`).
#![tactic(auto)]

mod delivery;
mod handlers;
mod naming;

pub use delivery::{Deed, Delivery, Signal};
pub use handlers::{Emitted, push_own};
pub use naming::{handler_name, handler_of};
