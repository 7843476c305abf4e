// Why a line is not understood.
use script::faults::Fault;
use std::alloc::AllocError;
use thiserror::Error;

#[derive(Clone, Copy, Debug, Error)]
pub enum Reason {
    #[error("{0}")]
    Line(#[from] Fault),
    #[error("a scenario begins with 'group' and the number of sites")]
    NoGroup,
    #[error("'group' stands only in the first line")]
    SecondGroup,
    #[error("that site is not made")]
    NoSite,
    #[error("that site is made already")]
    MadeTwice,
    #[error("that name is no draft")]
    NoDraft,
    #[error("that name is no posted edit")]
    NoPosted,
    #[error("no words have that name")]
    NoWords,
    #[error("no words have that place")]
    NoPlace,
    #[error("no memory is left")]
    NoMemory(#[from(alloc)] AllocError),
}
