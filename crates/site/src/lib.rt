// A site of the group: its slots, its mode, its store and its log, and the calls that can be made at it.
//
// `site` has the calls, a room for each kind. `modes` decides by mode and event together, `refusals` names why a call is
// declined, `handles` has drafts and posted edits, `edits` the writes that an edit gathers, `slots` the eight places where
// edits are held, `home` the site's number. `certify` looks for conflicts, `gather` reads writes, `spelling` writes words.
// `calls` is a site as others see it: one call, by its model.
#![tactic(auto)]

pub mod calls;
pub(crate) mod certify;
pub mod edits;
pub(crate) mod gather;
pub mod handles;
pub mod home;
pub mod modes;
pub mod refusals;
pub mod site;
pub mod slots;
pub(crate) mod spelling;
