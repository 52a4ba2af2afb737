//! That a machine which evaluates comes to its end: each move begins a node, of which there are 100,000, or leaves less to be
//! done before the next node is begun (`specs/Work.antt`). It holds no code that runs.
#![tactic(auto)]

pub mod laws;
