// Writes that look random, the same at each run.
use chance::Random;
use words::changes::{Change, Write};

pub(crate) type Numbers = Random<4>;

// What a list of writes is filled with before they are drawn. No library has a blank write public.
pub(crate) const NO_WRITE: Write = Write {
    item: 0,
    change: Change::Remove,
};

// Any value, and a removal one time in 3. The calls of replay draw other changes (small values, one in 4), so this is no copy.
fn draw_change(random: &mut Numbers) -> Change {
    if random.is_time(3) {
        return Change::Remove;
    }
    Change::Set(random.below(268_435_456) as i32 - 134_217_728)
}

pub(crate) fn draw_write(random: &mut Numbers) -> Write {
    Write {
        item: random.below(268_435_456),
        change: draw_change(random),
    }
}
