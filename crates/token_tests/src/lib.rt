//! Tests of the lexer over the whole table of tokens: every mark and reserved word, every escape, the three line ends
//! behind every kind of token, and inputs that are refused. It promises nothing of its own and is no part of the product.
#![tactic(auto)]

#[cfg(test)]
mod tests;
