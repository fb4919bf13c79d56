ghost use Rattle.std.specs.Prelude.{◌≡◌, ◌<◌, length, None, Some, replicate, slice_index_or, slice_set};

use std::marker::Model;

/// The most lanes that a pool has: 32.
const MAX_LANES: usize = pm_layout::MAX_LANES as usize;

/// For each lane, 0 to 31, after how many counted calls it stops, or that it doesn't. Contracts see the list of 32.
#[derive(Drop)]
pub struct Stops {
    calls: [Option<u64>; MAX_LANES],
}

impl Model for Stops {
    ghost use Rattle.std.specs.Prelude.{ℕ, List, Option};

    ghost Value = { List (Option ℕ) };

    ghost view = { λ s. s.calls };
}

impl Stops {
    /// No lane stops.
    pub fn none() -> Stops
        ensures { result ≡ replicate 32 None }
    {
        Stops {
            calls: [None; MAX_LANES],
        }
    }

    /// After how many counted calls the lane stops; nothing where it doesn't.
    pub fn of_lane(&self, lane: usize) -> Option<u64>
        requires { lane < 32 }
        ensures { result ≡ slice_index_or self.now lane None }
    {
        self.calls[lane]
    }

    /// Lets the lane stop after so many counted calls.
    pub fn set(&mut self, lane: usize, calls: u64)
        requires { lane < 32 }
        ensures { self.new ≡ slice_set self.old lane (Some calls) }
    {
        self.calls[lane] = Some(calls);
    }
}
