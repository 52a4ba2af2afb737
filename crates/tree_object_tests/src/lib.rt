//! Tests of the tree of objects, where there is memory: that its calls succeed, and what they tell of small and of deep trees.
#![tactic(auto)]

#[cfg(test)]
mod calls;
#[cfg(test)]
mod deep;
#[cfg(test)]
mod small;
