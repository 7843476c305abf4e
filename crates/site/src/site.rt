// A site: its store, its log, its mode, its slots and the change under way.
use crate::home::Home;
use crate::modes::Mode;
use crate::slots::Slots;
use logs::api::Log;
use store::api::Store;

pub mod changes;
pub mod drafts;
pub mod making;
pub mod pages;
pub mod places;
pub mod posts;
pub mod upkeep;

#[derive(Drop)]
pub struct Site<S: Store, L: Log> {
    pub(crate) home: Home,
    pub(crate) store: S,
    pub(crate) log: L,
    pub(crate) mode: Mode,
    pub(crate) slots: Slots,
    // How many writes of the next version are staged, where a change is under way.
    pub(crate) change: Option<u32>,
}
