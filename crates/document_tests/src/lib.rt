//! Tests of the parsers of documents and script files over texts: for each production texts that it reads, and refusals. It
//! promises nothing of its own and is no part of the product.
#![tactic(auto)]

#[cfg(test)]
mod limits;
#[cfg(test)]
mod tests;
