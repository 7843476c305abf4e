// Handles: a draft, and a posted edit. Both are moved, so that each can be used up once.

/// A handle in numbers: the site, the slot and the ticket of an edit.
#[derive(Clone, Copy, PartialEq, Eq, Debug)]
pub struct Handle {
    pub site: u32,
    pub slot: u32,
    pub ticket: u32,
}

/// An open edit of a site. It has to be posted or given up: it cannot be let go of otherwise.
pub struct Draft(pub(crate) Handle);

/// An edit that was posted. It can only be asked for its outcome, or let go.
pub struct Posted(pub(crate) Handle);
