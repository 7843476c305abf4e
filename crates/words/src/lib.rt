// The word format of Scene Share: messages and pages as 32-bit words, read and written.
//
// `changes` has the writes, `messages` and `pages` read what words say, `encode` writes those of a group and `spell` pages of
// any numbers that words can hold, both by `put`. `bits`, `limits` and `scan` are below these: the layout of one word, how
// large numbers and groups are, and a reader that goes through words.
#![tactic(auto)]

pub mod bits;
pub mod changes;
pub mod encode;
pub mod limits;
pub mod messages;
pub mod pages;
pub(crate) mod put;
pub mod scan;
pub mod spell;
