// A site's log: what it means, the interface, and two layouts of it.
#![tactic(auto)]

pub mod api;
pub(crate) mod counters;
pub mod flat;
pub mod heads;
pub(crate) mod holder;
pub(crate) mod kept;
pub mod laws;
pub mod packed;
pub(crate) mod page;
pub(crate) mod pages;
pub(crate) mod ring;
pub mod row;
pub(crate) mod table;
