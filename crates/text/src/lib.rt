//! Texts of bytes as lines, words and numbers.
#![tactic(auto)]

pub mod lines;
pub mod names;
pub mod numbers;
pub mod split;
#[cfg(test)]
mod tests;
