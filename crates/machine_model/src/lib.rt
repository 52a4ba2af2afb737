//! The machine that a run is compared with, as definitions: its state, the acts that change it one after another up to a
//! stop, and the events of a run, from the rows of the loaded documents to the entries of the trace (`specs/Lines.antt`,
//! `specs/Runs.antt`). It evaluates every binding afresh at each settling and keeps no dependencies. It holds no code that
//! runs. Its laws say that settling as a function is what the tree's relations say, and that every event that comes to its
//! end leaves a fresh tree.
#![tactic(auto)]

pub mod laws;
mod stop;

pub use stop::Stop;
