// Code over any store: whole versions, and calls as values, so that one list of calls can be made at several stores.
#![tactic(auto)]

pub mod calls;
#[cfg(test)]
mod random;
#[cfg(test)]
mod tests;
pub mod versions;
