//! What a run of the program writes, as definitions: from the bytes of files, a script and the clock's readings to the entries of
//! the trace, their bytes and the ending (`specs/Running.antt`). It holds no code that runs.
#![tactic(auto)]

mod laws;

pub use laws::endings_are_told;
