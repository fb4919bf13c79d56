ghost use Rattle.std.specs.Prelude.{◌≡◌, ℕ, [], ◌∷◌, IfOk};
ghost use Rattle.pm_memory.specs.Keep.{IsKeptImage};
ghost use Rattle.pm_view.specs.View.{idle};
ghost use Rattle.pm_world.specs.SoloLanes.{StandsAs, SurvivesInWorlds, only_lane};

use crate::{LawfulMem, LentOperation, LentValue, bare_words};
use pm_layout::{MAX_ZONES, PAGE_WORDS, Shape};
use pm_memory::{LaneMem, LaneSync, SoloMem, Stopped};
use pm_view::Occ;
use std::alloc::{AllocError, Global};
use std::marker::Model;

/// Lane 0 over its own memory, where no other lane runs. It may be seen as a view with which the
/// memory stands in a world, and each step that such a view allows leads to the world after it.
/// Contracts see the memory.
#[derive(Drop)]
pub struct SoloLane {
    memory: SoloMem,
}

impl Model for SoloLane {
    ghost use Rattle.pm_memory.specs.Solo.{Solo};

    ghost Value = { Solo };

    ghost view = { λ l. l.memory };
}

impl SoloLane {
    /// The lane over this memory. It may be seen as the views with which the memory stands in a
    /// world: of a pool's words before the first call `solo_memory_stands_in_its_world` says which.
    pub fn new(memory: SoloMem) -> SoloLane
        ensures { result ≡ memory }
    {
        SoloLane { memory }
    }

    /// Lane 0 of a pool of this shape without objects, before its first call: a lane to test an
    /// engine on. It stops after `stop` counted calls, if there is a number.
    ///
    /// # Errors
    ///
    /// `AllocError`: there is no memory for the words.
    pub fn on_bare_pool(
        alloc: Global,
        shape: Shape,
        stop: Option<u64>,
    ) -> Result<SoloLane, AllocError>
        ensures { IfOk result
            (λ lane. (pool : ℕ) → StandsAs lane (idle (only_lane shape pool stop) 1)) }
    {
        let words = bare_words(alloc, shape)?;
        let runs = vec![in alloc; u64::MAX; words.len() / PAGE_WORDS as usize]?;
        let zones = vec![in alloc; 0; MAX_ZONES as usize]?;
        let memory = SoloMem::new(alloc, words, stop)?.with_occupancy(runs, zones);
        Ok(SoloLane::new(memory))
    }

    /// The memory.
    pub fn memory(&self) -> &SoloMem
        ensures { result.now ≡ self.now }
    {
        &self.memory
    }

    /// The words that a power failure leaves, where of the changes of a word as many are kept as
    /// `keep` says: 0 none, 1 all, else by numbers that follow it. They may be left of each world
    /// in which the memory stands.
    ///
    /// # Errors
    ///
    /// `AllocError`: there is no memory for the words; the lane is as it was.
    pub fn survive(&self, alloc: Global, keep: u64) -> Result<Vec<u64>, AllocError>
        ensures kept { IfOk result
            (λ image. IsKeptImage keep self.now.words (self.now.changes ∷ []) image.items) }
        ensures survives { IfOk result (λ image. SurvivesInWorlds self.now image.items) }
    {
        self.memory.survive(alloc, keep)
    }
}

impl LaneMem for SoloLane {
    ghost use Rattle.pm_memory.specs.Solo.{CanStep};
    ghost use Rattle.pm_world.specs.Lawful.{Allowed};
    ghost use Rattle.pm_world.specs.SoloLanes.{StandsAs};

    ghost at = { StandsAs };

    ghost can = { CanStep };

    ghost may = { Allowed };

    fn lane(&self) -> u64 {
        self.memory.lane()
    }

    fn words(&self) -> u64 {
        self.memory.words()
    }

    fn calls(&self) -> u64 {
        self.memory.calls()
    }

    fn undrained(&self) -> u64 {
        self.memory.undrained()
    }

    fn unflushed(&self) -> Option<u64> {
        self.memory.unflushed()
    }

    fn load(&mut self, word: u64) -> u64 {
        self.memory.load(word)
    }

    fn store(&mut self, word: u64, value: u64) -> Result<(), Stopped> {
        self.memory.store(word, value)
    }

    fn or(&mut self, word: u64, bits: u64) -> Result<u64, Stopped> {
        self.memory.or(word, bits)
    }

    fn and(&mut self, word: u64, bits: u64) -> Result<u64, Stopped> {
        self.memory.and(word, bits)
    }

    fn flush(&mut self, line: u64) -> Result<(), Stopped> {
        self.memory.flush(line)
    }

    fn drain(&mut self) -> Result<(), Stopped> {
        self.memory.drain()
    }
}

impl LaneSync for SoloLane {
    fn take_write(&mut self, line: u64) -> bool {
        self.memory.take_write(line)
    }

    fn take_read(&mut self, line: u64) -> bool {
        self.memory.take_read(line)
    }

    fn raise(&mut self, line: u64) -> bool {
        self.memory.raise(line)
    }

    fn give(&mut self, line: u64) {
        self.memory.give(line);
    }

    fn zone_try(&mut self, zone: u64) -> bool {
        self.memory.zone_try(zone)
    }

    fn zone_give(&mut self, zone: u64) {
        self.memory.zone_give(zone);
    }

    fn occupied(&mut self, at: Occ) -> u64 {
        self.memory.occupied(at)
    }

    fn occupy(&mut self, at: Occ, bits: u64) -> bool {
        self.memory.occupy(at, bits)
    }

    fn vacate(&mut self, at: Occ, bits: u64) {
        self.memory.vacate(at, bits);
    }

    fn draw(&mut self) -> u64 {
        self.memory.draw()
    }

    fn number_seen(&mut self) -> u64 {
        self.memory.number_seen()
    }

    fn stop_seen(&mut self) -> bool {
        self.memory.stop_seen()
    }

    fn set_stop(&mut self) {
        self.memory.set_stop();
    }
}

/// To tell an operation changes nothing of the memory.
impl LawfulMem for SoloLane {
    ghost use Rattle.pm_world.specs.Solo.{meets_standing, grants_allowed};

    fn see(&mut self, word: u64) -> u64 {
        self.memory.load(word)
    }

    fn tell(&mut self, _operation: LentOperation<'_>, _reply: Option<LentValue<'_>>) {}

    ghost meets = { meets_standing };

    ghost grants = { grants_allowed };
}
