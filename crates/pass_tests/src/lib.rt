//! Tests of the passes of loading, over programs whose files are held in memory.
#![tactic(auto)]

#[cfg(test)]
mod tests;
