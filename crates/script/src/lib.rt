//! The scenario format: what one line asks for.
//!
//! `lines` reads a whole line, `deeds` a call at a site, `parts` single arguments, `verbs` the names of the calls.
//! `asks` has what is asked for, `faults` why a line is not understood.
#![tactic(auto)]

pub mod asks;
pub(crate) mod deeds;
pub mod faults;
pub mod lines;
pub mod parts;
#[cfg(test)]
mod tests;
pub(crate) mod verbs;
