//! Tests of trees as nodes in tables: each level of one tree by hand, and 4 MiB of brackets built, walked, compared and
//! dropped. `walk` has two examples of walkers that use nothing but `Tree::open`. It is no part of the product.
#![tactic(auto)]

#[cfg(test)]
mod tests;
pub mod walk;
