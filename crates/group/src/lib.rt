// A group of sites: calls at any of them, and the law that holds of every run of calls.
//
// `group` has the group and its one call; `any` a site over either store and either log; `laws` the law over runs.
#![tactic(auto)]

pub mod any;
pub mod group;
pub mod laws;
