// That the law over runs says something: wrong ways to act break it, and there are runs that keep it.
//
// `refutations` has the wrong ways, each with the law false of it; `lawful` a run of sites that act as they should.
#![tactic(auto)]

pub mod lawful;
pub mod refutations;
