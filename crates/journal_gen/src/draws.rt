//! Numbers that follow from a number.
//! This project's own.
ghost use Rattle.std.specs.Prelude.{◌≡◌, ◌<◌, ◌^◌, ◌%◌};
ghost use Rattle.journal_gen.specs.Draws.{drawn, next_seed};

// How many seeds there are.
const SEEDS: u64 = 0x8000_0000;

/// A seed, from which numbers are drawn.
#[derive(Drop)]
pub struct Draws {
    seed: u64,
    ghost small: { seed < 2 ^ 31 },
}

impl Draws {
    /// The draws that a number gives.
    pub fn new(number: u64) -> Draws
        ensures { result.seed ≡ number % 2 ^ 31 }
    {
        Draws {
            seed: number % SEEDS,
        }
    }

    /// The next draw.
    #[tactic(auto, unfolding(crate::specs::Draws::next_seed, crate::specs::Draws::drawn))]
    pub fn draw(&mut self) -> u32
        ensures seed { self.new.seed ≡ next_seed self.old.seed }
        ensures drawn { result ≡ drawn self.new.seed }
        ensures small { result < 2 ^ 15 }
    {
        self.seed = (self.seed * 1_103_515_245 + 12_345) % SEEDS;
        (self.seed / 65_536) as u32
    }
}
