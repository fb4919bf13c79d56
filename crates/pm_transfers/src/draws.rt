ghost use Rattle.std.specs.Prelude.{◌≡◌, ◌/◌, ◌^◌, ◌<◌};
ghost use Rattle.pm_transfers.specs.Draws.{next_state};

use crate::counters::COUNTERS;

/// The multiplier of the linear congruential generator.
const MULTIPLIER: u64 = 6_364_136_223_846_793_005;

/// Its increment.
const INCREMENT: u64 = 1_442_695_040_888_963_407;

/// The greatest amount of a transfer.
const MOST: u64 = 1000;

/// Numbers drawn one after another: the high 31 bits of the states of a linear congruential
/// generator.
#[derive(Drop)]
pub struct Draws {
    state: u64,
}

/// A transfer from one counter to another, perhaps the same.
#[derive(Clone, Copy, Drop)]
pub struct Transfer {
    /// The numbers of the counter that gains and of the one that loses.
    pub gains: u64,
    pub loses: u64,
    /// How much, 1 to 1000.
    pub amount: u64,
    pub ghost gains_in: { gains < 64 },
    pub ghost loses_in: { loses < 64 },
}

impl Draws {
    /// The numbers that a seed draws.
    pub fn new(seed: u64) -> Draws
        ensures { result.state ≡ seed }
    {
        Draws { state: seed }
    }

    /// The next number.
    fn next(&mut self) -> u64
        ensures state { self.new.state ≡ next_state self.old.state }
        ensures number { result ≡ next_state self.old.state / 2 ^ 33 }
    {
        self.state = self.state.wrapping_mul(MULTIPLIER).wrapping_add(INCREMENT);
        self.state >> 33
    }

    /// The next transfer.
    pub fn next_transfer(&mut self) -> Transfer {
        let gains = self.next() % COUNTERS;
        let loses = self.next() % COUNTERS;
        let amount = 1 + self.next() % MOST;
        Transfer {
            gains,
            loses,
            amount,
        }
    }
}
