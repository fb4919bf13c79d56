ghost use Rattle.std.specs.Prelude.{◌≡◌, ◌<◌, false, length, slice_index, slice_index_or};
ghost use Rattle.pm_memory.specs.Solo.{SetsLock, HasWord, occ_word, with_lock, with_zone_lock, with_occ};

use crate::lock_word::{given, raised, read_taken, write_taken};
use crate::{LaneMem, LaneSync, SoloMem};
use pm_layout::PAGE_BYTES;
use pm_view::Occ;

/// The only lane's number.
const LANE: u64 = 0;

impl SoloMem {
    /// The line's lock word.
    pub(crate) fn lock_word(&self, line: u64) -> u64
        requires { line < length self.now.locks }
        ensures { result ≡ slice_index self.now.locks line }
    {
        self.locks[line as usize]
    }

    /// Makes the line's lock word this one.
    fn set_lock(&mut self, line: u64, word: u64)
        requires { line < length self.old.locks }
        ensures { self.new ≡ with_lock self.old line word }
    {
        self.locks[line as usize] = word;
    }

    /// Makes the line's lock word this one, if there is one, and tells whether there is.
    fn try_set_lock(&mut self, line: u64, word: Option<u64>) -> bool
        requires { line < length self.old.locks }
        ensures { SetsLock self.old self.new line word result }
    {
        match word {
            Some(word) => {
                self.set_lock(line, word);
                true
            }
            None => false,
        }
    }

    /// Whether the zone's lock is taken.
    pub(crate) fn zone_lock(&self, zone: u64) -> bool
        requires { zone < length self.now.zone_locks }
        ensures { result ≡ slice_index_or self.now.zone_locks zone false }
    {
        self.zone_locks[zone as usize]
    }

    /// Makes the zone's lock taken or free.
    fn set_zone_lock(&mut self, zone: u64, taken: bool)
        requires { zone < length self.old.zone_locks }
        ensures { self.new ≡ with_zone_lock self.old zone taken }
    {
        self.zone_locks[zone as usize] = taken;
    }

    /// The occupancy word.
    fn occupancy(&self, at: Occ) -> u64
        requires { HasWord self.now.runs self.now.zones at }
        ensures { result ≡ occ_word self.now.runs self.now.zones at }
    {
        match at {
            Occ::Run(place) => self.runs[(place / PAGE_BYTES) as usize],
            Occ::Zone(zone) => self.zones[zone as usize],
        }
    }

    /// Makes the occupancy word this one.
    fn set_occupancy(&mut self, at: Occ, word: u64)
        requires { HasWord self.old.runs self.old.zones at }
        ensures { self.new ≡ with_occ self.old at word }
    {
        match at {
            Occ::Run(place) => self.runs[(place / PAGE_BYTES) as usize] = word,
            Occ::Zone(zone) => self.zones[zone as usize] = word,
        }
    }
}

impl LaneSync for SoloMem {
    ghost use Rattle.std.specs.Prelude.{◌+◌, ◌^◌, ◌↔◌, true, IsTrue, bit_and, bit_or};
    ghost use Rattle.std.specs.Bool.{OnTrue, OnFalse};
    ghost use Rattle.std.specs.Int.{bit_not, w64};
    ghost use Rattle.pm_view.specs.Steps.Step.{TakeWrite, TakeRead, Raise, Give, ZoneTry, ZoneGive, Occupied, Occupy, Vacate, Draw, NumberSeen, StopSeen, SetStop};
    ghost use Rattle.pm_view.specs.LockWords.{reader_bit, writer_bit, without_lane};
    ghost use Rattle.pm_memory.specs.Runs.{AnyStep, Made};
    ghost use Rattle.pm_memory.specs.Solo.{Sees, says_stopped};

    fn take_write(&mut self, line: u64) -> bool
        requires line { line < length self.old.locks }
        requires free { slice_index self.old.locks line ≡ 0 }
        ensures made { Made AnyStep (Sees self.old) (Sees self.new) (TakeWrite line result) }
        ensures won { IsTrue result }
        ensures taken { self.new ≡ with_lock self.old line (writer_bit 0) }
    {
        self.try_set_lock(line, write_taken(LANE, self.lock_word(line)))
    }

    fn take_read(&mut self, line: u64) -> bool
        requires line { line < length self.old.locks }
        requires free { slice_index self.old.locks line ≡ 0 }
        ensures made { Made AnyStep (Sees self.old) (Sees self.new) (TakeRead line result) }
        ensures won { IsTrue result }
        ensures taken { self.new ≡ with_lock self.old line (reader_bit 0) }
    {
        self.try_set_lock(line, read_taken(LANE, self.lock_word(line)))
    }

    fn raise(&mut self, line: u64) -> bool
        requires line { line < length self.old.locks }
        requires reads { slice_index self.old.locks line ≡ reader_bit 0 }
        ensures made { Made AnyStep (Sees self.old) (Sees self.new) (Raise line result) }
        ensures won { IsTrue result }
        ensures taken { self.new ≡ with_lock self.old line (writer_bit 0) }
    {
        self.try_set_lock(line, raised(LANE, self.lock_word(line)))
    }

    fn give(&mut self, line: u64)
        requires { line < length self.old.locks }
        ensures made { Made AnyStep (Sees self.old) (Sees self.new) (Give line) }
        ensures given { self.new
            ≡ with_lock self.old line (without_lane 0 (slice_index self.old.locks line)) }
    {
        self.set_lock(line, given(LANE, self.lock_word(line)));
    }

    fn zone_try(&mut self, zone: u64) -> bool
        requires zone { zone < length self.old.zone_locks }
        requires free { slice_index_or self.old.zone_locks zone false ≡ false }
        ensures made { Made AnyStep (Sees self.old) (Sees self.new) (ZoneTry zone result) }
        ensures won { IsTrue result }
        ensures taken { self.new ≡ with_zone_lock self.old zone true }
    {
        let taken = self.zone_lock(zone);
        self.set_zone_lock(zone, true);
        !taken
    }

    fn zone_give(&mut self, zone: u64)
        requires { zone < length self.old.zone_locks }
        ensures made { Made AnyStep (Sees self.old) (Sees self.new) (ZoneGive zone) }
        ensures given { self.new ≡ with_zone_lock self.old zone false }
    {
        self.set_zone_lock(zone, false);
    }

    fn occupied(&mut self, at: Occ) -> u64
        requires { HasWord self.old.runs self.old.zones at }
        ensures made { Made AnyStep (Sees self.old) (Sees self.new) (Occupied at result) }
        ensures found { result ≡ occ_word self.old.runs self.old.zones at }
        ensures same { self.new ≡ self.old }
    {
        self.occupancy(at)
    }

    fn occupy(&mut self, at: Occ, bits: u64) -> bool
        requires { HasWord self.old.runs self.old.zones at }
        ensures made { Made AnyStep (Sees self.old) (Sees self.new) (Occupy at bits result) }
        ensures won { IsTrue result ↔ (bit_and (occ_word self.old.runs self.old.zones at) bits ≡ 0) }
        ensures taken { OnTrue result
            (self.new ≡ with_occ self.old at (bit_or (occ_word self.old.runs self.old.zones at) bits)) }
        ensures refused { OnFalse result (self.new ≡ self.old) }
    {
        let found = self.occupancy(at);
        if found & bits != 0 {
            return false;
        }
        self.set_occupancy(at, found | bits);
        true
    }

    fn vacate(&mut self, at: Occ, bits: u64)
        requires { HasWord self.old.runs self.old.zones at }
        ensures made { Made AnyStep (Sees self.old) (Sees self.new) (Vacate at bits) }
        ensures given { self.new
            ≡ with_occ self.old at (bit_and (occ_word self.old.runs self.old.zones at) (bit_not w64 bits)) }
    {
        let found = self.occupancy(at);
        self.set_occupancy(at, found & !bits);
    }

    fn draw(&mut self) -> u64
        requires { self.old.number < 2 ^ 62 + 32 }
        ensures made { Made AnyStep (Sees self.old) (Sees self.new) (Draw result) }
        ensures before { result ≡ self.old.number }
        ensures counted { self.new ≡ record self.old { number = self.old.number + 1 } }
    {
        let before = self.number;
        self.number = before + 1;
        before
    }

    fn number_seen(&mut self) -> u64
        ensures made { Made AnyStep (Sees self.old) (Sees self.new) (NumberSeen result) }
        ensures drawn { result ≡ self.old.number }
        ensures same { self.new ≡ self.old }
    {
        self.number
    }

    fn stop_seen(&mut self) -> bool
        ensures made { Made AnyStep (Sees self.old) (Sees self.new) (StopSeen result) }
        ensures said { result ≡ self.old.stopped }
        ensures same { self.new ≡ self.old }
    {
        self.stopped
    }

    fn set_stop(&mut self)
        ensures made { Made AnyStep (Sees self.old) (Sees self.new) SetStop }
        ensures said { self.new ≡ says_stopped self.old }
    {
        self.stopped = true;
    }
}
