// One entry of a flat log, in memory for the most writes that an entry has.
use few::Few;
use words::changes::Write;

pub mod ops;

/// The memory of one entry of a flat log.
#[derive(Clone, Copy)]
pub struct FlatEntry {
    home: u32,
    ticket: u32,
    writes: Few<Write, 16>,
}
