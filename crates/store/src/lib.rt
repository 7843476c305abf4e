// A store of versions: what it means, the interface, and two layouts of it.
#![tactic(auto)]

pub mod api;
pub mod chains;
pub mod journal;
pub mod known;
pub mod laws;
pub(crate) mod links;
pub(crate) mod moves;
pub mod records;
pub(crate) mod slots;
pub(crate) mod tally;
