// The account of a list of messages: what every office decides at each place.
//
// `decisions` has the answers, `accountant` decides one message after another and keeps every commit,
// `certify` tells which writes meet, `scenes` applies commits, and `laws` states what holds of every list.
#![tactic(auto)]

pub mod accountant;
pub mod certify;
pub mod decisions;
pub mod laws;
pub mod scenes;
