//! Which deliveries a signal of an object brings: its own reaction, its handlers, and those of the live Connections whose target
//! it is. Exactly the list of `machine_model`'s definitions (`deliveries` of `specs/Dispatch.antt`), as it is taken when the
//! signal is emitted, and the test of a delivery at its own turn.
#![tactic(auto)]

mod aimed;
mod connections;
mod copying;
mod delivering;
mod laws;
mod live;

pub use aimed::Heard;
pub use connections::{is_enabled_on, push_connections};
pub use delivering::{deliveries, is_left_out};
pub use laws::deliveries_by_parts;
pub use live::{builtin_in, is_condemned, written_at};
