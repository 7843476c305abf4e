// Numbers that look random, the same at each run.
#![tactic(auto)]

ghost use Rattle.std.specs.Prelude.{◌≡◌, ◌<◌, ◌==◌};
ghost use Rattle.chance.specs.Numbers.{state_of, next_state, number};

/// A source of numbers. A number is made of a state of 32 bits without its lowest `SHIFT` bits, which repeat soon.
#[derive(Drop)]
pub struct Random<const SHIFT: u32> {
    state: u32,
}

impl<const SHIFT: u32> Random<SHIFT> {
    pub fn new(seed: u32) -> Random<SHIFT>
        ensures { state_of result ≡ seed }
    {
        Random { state: seed }
    }

    /// The next number, below `bound`, or 0 where the bound is 0.
    pub fn below(&mut self, bound: u32) -> u32
        ensures below { 0 < bound → result < bound }
        ensures number { result ≡ number SHIFT (state_of self.new) bound }
        ensures state { state_of self.new ≡ next_state (state_of self.old) }
    {
        self.state = self
            .state
            .wrapping_mul(1_664_525)
            .wrapping_add(1_013_904_223);
        self.state
            .wrapping_shr(SHIFT)
            .checked_rem(bound)
            .unwrap_or(0)
    }

    /// Whether the next number says so, as it does once in so many `times`.
    pub fn is_time(&mut self, times: u32) -> bool
        ensures answer { result ≡ (number SHIFT (state_of self.new) times == 0) }
        ensures state { state_of self.new ≡ next_state (state_of self.old) }
    {
        self.below(times) == 0
    }
}
