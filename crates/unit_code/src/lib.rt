//! The texts of loaded units, as the code that is evaluated.
#![tactic(auto)]

mod code;
#[cfg(test)]
mod tests;

pub use code::UnitCode;
