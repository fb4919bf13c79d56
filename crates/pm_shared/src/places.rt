ghost use Rattle.std.specs.Prelude.{◌≡◌, ◌/◌, ◌<◌};
ghost use Rattle.pm_layout.specs.Areas.{page_bytes, page_words};
ghost use Rattle.pm_layout.specs.Chunks.{words_of};
ghost use Rattle.pm_shared.specs.Placing.{place, pulse_place, run_place, start_of};
ghost use Rattle.pm_world.specs.Memory.{PoolWord, LockWord, RunWord, ZoneWord, ZoneLock, CommitCounter, StopWord};

use crate::SharedMem;
use pm_layout::{LINE_WORDS, PAGE_BYTES, PAGE_WORDS};

impl SharedMem {
    /// Where a pool word lies in the table.
    pub(crate) fn word_at(&self, word: u64) -> usize
        requires { word < words_of self.now.shape }
        ensures { result ≡ place self.now.shape (PoolWord word) }
    {
        word as usize
    }

    /// Where the lock word of a line lies.
    pub(crate) fn lock_at(&self, line: u64) -> usize
        requires { line < words_of self.now.shape / 8 }
        ensures { result ≡ place self.now.shape (LockWord line) }
    {
        (self.words + line) as usize
    }

    /// Where the occupancy words of pages begin.
    fn runs_at(&self) -> u64
        ensures { result ≡ start_of self.now.shape 2 }
    {
        self.words + self.words / LINE_WORDS
    }

    /// Where the occupancy words of zones begin.
    fn zones_at(&self) -> u64
        ensures { result ≡ start_of self.now.shape 3 }
    {
        self.runs_at() + self.words / PAGE_WORDS
    }

    /// Where the occupancy word of a run lies, by the place of its chunk in bytes.
    pub(crate) fn run_at(&self, place: u64) -> usize
        requires { place / page_bytes < words_of self.now.shape / page_words }
        ensures { result ≡ run_place self.now.shape place }
    {
        (self.runs_at() + place / PAGE_BYTES) as usize
    }

    /// Where the occupancy word of a zone lies.
    pub(crate) fn zone_at(&self, zone: u64) -> usize
        requires { zone < self.now.shape.zones }
        ensures { result ≡ place self.now.shape (ZoneWord zone) }
    {
        (self.zones_at() + zone) as usize
    }

    /// Where the lock of a zone lies.
    pub(crate) fn zone_lock_at(&self, zone: u64) -> usize
        requires { zone < self.now.shape.zones }
        ensures { result ≡ place self.now.shape (ZoneLock zone) }
    {
        (self.zones_at() + self.shape.zones + zone) as usize
    }

    /// Where the counter of commit numbers lies.
    pub(crate) fn counter_at(&self) -> usize
        ensures { result ≡ place self.now.shape CommitCounter }
    {
        (self.zones_at() + 2 * self.shape.zones) as usize
    }

    /// Where the stop word lies.
    pub(crate) fn stop_at(&self) -> usize
        ensures { result ≡ place self.now.shape StopWord }
    {
        (self.zones_at() + 2 * self.shape.zones + 1) as usize
    }

    /// Where a lane's own word lies.
    pub(crate) fn pulse_at(&self, lane: u64) -> usize
        requires { lane < self.now.shape.lanes }
        ensures { result ≡ pulse_place self.now.shape lane }
    {
        (self.zones_at() + 2 * self.shape.zones + 2 + lane) as usize
    }
}
