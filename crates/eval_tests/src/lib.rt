//! Tests of evaluation: expressions as they are written, each with its outcome and the cells that it reads, over one
//! parsed tree and a view of six cells. It promises nothing of its own and is no part of the product.
#![tactic(auto)]

pub mod plain;
#[cfg(test)]
mod tests;
