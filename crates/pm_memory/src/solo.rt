ghost use Rattle.std.specs.Prelude.{◌≡◌, ◌<◌, [], ◌∷◌, length, slice_index, IfOk};

use crate::changes::Changes;
use crate::survivors::{Kept, take_back};
use pm_layout::{LINE_WORDS, MAX_ZONES, PAGE_WORDS};
use std::alloc::{AllocError, Global};
use std::marker::Model;

/// Zones of a pool at most.
const ZONES: usize = MAX_ZONES as usize;

/// The memory of lane 0 where no other lane runs, over the words themselves. The volatile words
/// begin as 0, unless whoever opens the pool gives its occupancy words. Contracts see all of it as
/// `Solo`.
#[derive(Drop)]
pub struct SoloMem {
    pub(crate) words: Vec<u64>,
    pub(crate) changes: Changes,
    pub(crate) calls: u64,
    pub(crate) stop: Option<u64>,
    pub(crate) number: u64,
    pub(crate) stopped: bool,
    pub(crate) locks: Vec<u64>,
    pub(crate) runs: Vec<u64>,
    pub(crate) zones: Vec<u64>,
    pub(crate) zone_locks: Vec<bool>,
}

impl Model for SoloMem {
    ghost use Rattle.pm_memory.specs.Solo.{Solo};

    ghost Value = { Solo };

    ghost view = { λ m. record {
      words = m.words.items;
      changes = m.changes;
      calls = m.calls;
      stop = m.stop;
      number = m.number;
      stopped = m.stopped;
      locks = m.locks.items;
      runs = m.runs.items;
      zones = m.zones.items;
      zone_locks = m.zone_locks.items;
    } };
}

impl SoloMem {
    ghost use Rattle.pm_memory.specs.Solo.{Solo, opened};
    ghost use Rattle.pm_memory.specs.Keep.{IsKeptImage};
    ghost use Rattle.pm_memory.specs.Survivors.{Survives};

    /// The memory of these words, before lane 0's first call, with its stop number if it has one.
    /// It takes the room of every change and volatile word.
    pub fn new(alloc: Global, words: Vec<u64>, stop: Option<u64>) -> Result<SoloMem, AllocError>
        ensures { IfOk result (λ m. m ≡ opened words.items stop) }
    {
        let lines = words.len() / LINE_WORDS as usize;
        let pages = words.len() / PAGE_WORDS as usize;
        let changes = Changes::new(alloc)?;
        let locks = vec![in alloc; 0; lines]?;
        let runs = vec![in alloc; 0; pages]?;
        let zones = vec![in alloc; 0; ZONES]?;
        let zone_locks = vec![in alloc; false; ZONES]?;
        Ok(SoloMem {
            words,
            changes,
            calls: 0,
            stop,
            number: 0,
            stopped: false,
            locks,
            runs,
            zones,
            zone_locks,
        })
    }

    /// The memory with these occupancy words: `runs` has one a page of 512 words, `zones` one a
    /// zone, 32 of them. They are volatile, and whoever opens a pool knows them from its words.
    pub fn with_occupancy(self, runs: Vec<u64>, zones: Vec<u64>) -> SoloMem
        ensures { result ≡ record self { runs = runs.items; zones = zones.items } }
    {
        SoloMem {
            runs,
            zones,
            ..self
        }
    }

    /// A word as it stands, by its number; to ask for it is no call of the lane.
    pub fn word(&self, index: u64) -> u64
        requires { index < length self.now.words }
        ensures { result ≡ slice_index self.now.words index }
    {
        self.words[index as usize]
    }

    /// The words that a power failure leaves, where of the changes of a word as many are kept as
    /// `keep` says: 0 none, 1 all, else by numbers that follow it.
    pub fn survive(&self, alloc: Global, keep: u64) -> Result<Vec<u64>, AllocError>
        ensures kept { IfOk result
            (λ image. IsKeptImage keep self.now.words (self.now.changes ∷ []) image.items) }
        ensures survives { IfOk result
            (λ image. Survives self.now.words (self.now.changes ∷ []) image.items) }
    {
        let mut left = self.words.to_vec(alloc)?;
        let mut kept = Kept::of(keep);
        take_back(&mut left, self.changes.as_slice(), &mut kept);
        Ok(left)
    }
}
