// What a line asks for. Names and words are parts of the line.
use words::changes::Change;

/// The two stores that a site can be made over.
#[derive(Clone, Copy, PartialEq, Eq, Debug)]
pub enum StoreKind {
    Journal,
    Chains,
}

/// The two logs that a site can be made over.
#[derive(Clone, Copy, PartialEq, Eq, Debug)]
pub enum LogKind {
    Flat,
    Packed,
}

/// What a site is made over.
#[derive(Clone, Copy)]
pub struct Plan {
    pub store: StoreKind,
    pub records: u32,
    pub log: LogKind,
    pub room: u32,
}

/// How many words the buffer of a call has, and the name that the words written get.
#[derive(Clone, Copy)]
pub struct Buffer<'a> {
    pub room: u32,
    pub name: Option<&'a [u8]>,
}

/// Words to hand in: those under a name, or those that the text spells, at least one.
#[derive(Clone, Copy)]
pub enum Source<'a> {
    Named(&'a [u8]),
    Spelt(&'a [u8]),
}

/// A call at a site.
#[derive(Clone, Copy)]
pub enum Deed<'a> {
    Begin(&'a [u8]),
    Read(&'a [u8], u32),
    Look(u32),
    Write(&'a [u8], u32, Change),
    Post(&'a [u8], Buffer<'a>),
    GiveUp(&'a [u8]),
    LetGo(&'a [u8]),
    Outcome(&'a [u8]),
    Deliver(u32, Option<Source<'a>>),
    Step,
    Report(Buffer<'a>),
    Page(u32, Buffer<'a>),
    Take(Source<'a>),
    Trim,
    Prune,
    Crash,
    Wake,
    Show,
}

/// What a line asks for.
#[derive(Clone, Copy)]
pub enum Ask<'a> {
    Group(u32),
    Site { site: u32, plan: Plan },
    Send(Source<'a>),
    At { site: u32, deed: Deed<'a> },
}
