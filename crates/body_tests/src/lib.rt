//! Tests of the parsers of expressions, statements and bodies over texts: for each production a text that it reads, as the
//! nodes of its tree, and its shortest refusal. It promises nothing of its own and is no part of the product.
#![tactic(auto)]

#[cfg(test)]
mod tests;
