ghost use Rattle.std.specs.Prelude.{◌≡◌, ◌+◌, ◌^◌, ◌<◌, length, slice_index, OnOk, OnErr};
ghost use Rattle.std.specs.Option.{ForSome};
ghost use Rattle.pm_memory.specs.Changes.{CanAdd};
ghost use Rattle.pm_memory.specs.Solo.{counted, IsDue, IsSpent, says_stopped, with_change};

use crate::memory::{and_made, or_made, stored};
use crate::{LaneMem, SoloMem, Stopped};
use pm_view::Change;

impl SoloMem {
    /// Counts a call, or says that the lane stopped.
    fn count(&mut self) -> Result<(), Stopped>
        ensures ok { OnOk result (self.new ≡ counted self.old) }
        ensures more { OnOk result (IsDue self.old) }
        ensures fits { OnOk result (ForSome self.old.stop (λ stop. stop < 2 ^ 64)) }
        ensures err { OnErr result (self.new ≡ says_stopped self.old) }
        ensures stop { OnErr result (IsSpent self.old) }
    {
        // A copy, of whose number the prover knows that it is a u64.
        let last = self.stop;
        if let Some(stop) = last
            && stop <= self.calls
        {
            self.stopped = true;
            return Err(Stopped);
        }
        self.calls = self.calls.wrapping_add(1);
        Ok(())
    }

    /// The word's value.
    fn found(&self, word: u64) -> u64
        requires { word < length self.now.words }
        ensures { result ≡ slice_index self.now.words word }
    {
        self.words[word as usize]
    }

    /// Makes the change's word this value, and keeps the change.
    fn make(&mut self, change: Change, value: u64)
        requires word { change.word < length self.old.words }
        requires room { CanAdd self.old.changes }
        ensures { self.new ≡ with_change self.old change value }
    {
        self.changes.add(change);
        self.words[change.word as usize] = value;
    }
}

impl LaneMem for SoloMem {
    ghost use Rattle.std.specs.Prelude.{ℕ, ◌%◌, IfOk};
    ghost use Rattle.pm_layout.specs.Chunks.{words_of};
    ghost use Rattle.pm_view.specs.Counts.{IsFirstUnflushed};
    ghost use Rattle.pm_memory.specs.Changes.{CanFlush, CanDrain, IsLeastUnflushed};
    ghost use Rattle.pm_view.specs.View.{View};
    ghost use Rattle.pm_view.specs.Steps.Step.{Load, Store, Or, And, Flush, Drain};
    ghost use Rattle.pm_memory.specs.Runs.{AnyStep, Made, MadeOrStopped};
    ghost use Rattle.pm_memory.specs.Solo.{Sees, CanStep, after_store, after_or, after_and, after_flush, after_drain};

    ghost at = { Sees };

    ghost can = { CanStep };

    ghost may = { AnyStep };

    fn lane(&self) -> u64
        ensures seen { (v : View) → Sees self.now v → result ≡ v.fixed.lane }
        ensures first { result ≡ 0 }
    {
        0
    }

    fn words(&self) -> u64
        ensures seen { (v : View) → Sees self.now v → result ≡ words_of v.fixed.shape }
        ensures all { result ≡ length self.now.words }
    {
        self.words.len() as u64
    }

    fn calls(&self) -> u64
        ensures seen { (v : View) → Sees self.now v → result ≡ length v.calls % 2 ^ 64 }
        ensures made { result ≡ self.now.calls }
    {
        self.calls
    }

    fn undrained(&self) -> u64
        ensures seen { (v : View) → Sees self.now v → result ≡ length v.changes }
        ensures all { result ≡ length self.now.changes }
    {
        self.changes.as_slice().len() as u64
    }

    fn unflushed(&self) -> Option<u64>
        ensures seen { (v : View) → Sees self.now v → IsFirstUnflushed v.changes result }
        ensures least { IsLeastUnflushed self.now.changes result }
    {
        self.changes.first_unflushed()
    }

    fn load(&mut self, word: u64) -> u64
        requires { word < length self.old.words }
        ensures made { Made AnyStep (Sees self.old) (Sees self.new) (Load word result) }
        ensures found { result ≡ slice_index self.old.words word }
        ensures same { self.new ≡ self.old }
    {
        self.found(word)
    }

    fn store(&mut self, word: u64, value: u64) -> Result<(), Stopped>
        requires word { word < length self.old.words }
        requires room { CanAdd self.old.changes }
        ensures made { MadeOrStopped AnyStep (Sees self.old) (Sees self.new) (λ _. Store word value) result }
        ensures done { OnOk result (self.new ≡ after_store self.old word value) }
        ensures due { OnOk result (IsDue self.old) }
        ensures said { OnErr result (self.new ≡ says_stopped self.old) }
        ensures stop { OnErr result (IsSpent self.old) }
    {
        self.count()?;
        self.make(stored(word, self.found(word), value), value);
        Ok(())
    }

    fn or(&mut self, word: u64, bits: u64) -> Result<u64, Stopped>
        requires word { word < length self.old.words }
        requires room { CanAdd self.old.changes }
        ensures made { MadeOrStopped AnyStep (Sees self.old) (Sees self.new) (Or word bits) result }
        ensures found { IfOk result (λ found. found ≡ slice_index self.old.words word) }
        ensures done { OnOk result (self.new ≡ after_or self.old word bits) }
        ensures due { OnOk result (IsDue self.old) }
        ensures said { OnErr result (self.new ≡ says_stopped self.old) }
        ensures stop { OnErr result (IsSpent self.old) }
    {
        self.count()?;
        let found = self.found(word);
        self.make(or_made(word, bits, found), found | bits);
        Ok(found)
    }

    fn and(&mut self, word: u64, bits: u64) -> Result<u64, Stopped>
        requires word { word < length self.old.words }
        requires room { CanAdd self.old.changes }
        ensures made { MadeOrStopped AnyStep (Sees self.old) (Sees self.new) (And word bits) result }
        ensures found { IfOk result (λ found. found ≡ slice_index self.old.words word) }
        ensures done { OnOk result (self.new ≡ after_and self.old word bits) }
        ensures due { OnOk result (IsDue self.old) }
        ensures said { OnErr result (self.new ≡ says_stopped self.old) }
        ensures stop { OnErr result (IsSpent self.old) }
    {
        self.count()?;
        let found = self.found(word);
        self.make(and_made(word, bits, found), found & bits);
        Ok(found)
    }

    fn flush(&mut self, line: u64) -> Result<(), Stopped>
        requires { CanFlush line self.old.changes }
        ensures made { MadeOrStopped AnyStep (Sees self.old) (Sees self.new) (λ _. Flush line) result }
        ensures done { OnOk result (self.new ≡ after_flush self.old line) }
        ensures due { OnOk result (IsDue self.old) }
        ensures said { OnErr result (self.new ≡ says_stopped self.old) }
        ensures stop { OnErr result (IsSpent self.old) }
    {
        self.count()?;
        self.changes.flush(line);
        Ok(())
    }

    fn drain(&mut self) -> Result<(), Stopped>
        requires { CanDrain self.old.changes }
        ensures made { MadeOrStopped AnyStep (Sees self.old) (Sees self.new) (λ _. Drain) result }
        ensures done { OnOk result (self.new ≡ after_drain self.old) }
        ensures due { OnOk result (IsDue self.old) }
        ensures said { OnErr result (self.new ≡ says_stopped self.old) }
        ensures stop { OnErr result (IsSpent self.old) }
    {
        self.count()?;
        self.changes.drain();
        Ok(())
    }
}
