//! Tests of what trees are written as and how deep their nodes stand: a tree with each kind of node, and brackets nested
//! as deep as a file of 4 MiB allows. It promises nothing of its own and is no part of the product.
#![tactic(auto)]

#[cfg(test)]
mod tests;
