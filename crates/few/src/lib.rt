//! Short lists in fixed memory: no call allocates, and a list is copied as its memory is.
//!
//! `list` has the list and the facts that hold of each one, `ops` what it does.
#![tactic(auto)]

pub mod list;
pub mod ops;

pub use list::Few;
pub use ops::Full;
