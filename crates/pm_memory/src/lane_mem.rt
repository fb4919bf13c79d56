ghost use Rattle.std.specs.Prelude.{◌≡◌, ℕ, ◌%◌, ◌^◌, length};
ghost use Rattle.pm_layout.specs.Chunks.{words_of};
ghost use Rattle.pm_view.specs.View.{View};
ghost use Rattle.pm_view.specs.Steps.{Step};
ghost use Rattle.pm_view.specs.Steps.Step.{Load, Store, Or, And, Flush, Drain};
ghost use Rattle.pm_view.specs.Counts.{IsFirstUnflushed};
ghost use Rattle.pm_memory.specs.Runs.{Made, MadeOrStopped};

/// The lane is at its stop number: it made as many counted calls as that, and makes none any more.
#[derive(Clone, Copy, Debug, PartialEq, Eq)]
pub struct Stopped;

/// A lane's memory. Each call is one step of the lane: whatever view the memory may be seen as
/// that allows the step, it is then seen as that view after the step. A counted call, any but a
/// load, answers `Stopped` exactly at the lane's stop number; the stop word is then set in its
/// place. Words and lines are given by their numbers.
pub trait LaneMem {
    /// The memory may be seen so.
    ghost at: { Self → View → Type 0 };

    /// What the memory asks of a step.
    ghost can: { Self → Step → Type 0 };

    /// The view allows the step, so that what is promised of the step holds.
    ghost may: { View → Step → Type 0 };

    /// The lane's number.
    fn lane(&self) -> u64
        ensures { (v : View) → at self.now v → result ≡ v.fixed.lane };

    /// How many words the pool has.
    fn words(&self) -> u64
        ensures { (v : View) → at self.now v → result ≡ words_of v.fixed.shape };

    /// How many counted calls the lane made, modulo 2^64; exactly so many where it has a stop
    /// number.
    fn calls(&self) -> u64
        ensures { (v : View) → at self.now v → result ≡ length v.calls % 2 ^ 64 };

    /// How many changes of the lane are undrained.
    fn undrained(&self) -> u64
        ensures { (v : View) → at self.now v → result ≡ length v.changes };

    /// The least line in which the lane has an unflushed change.
    fn unflushed(&self) -> Option<u64>
        ensures { (v : View) → at self.now v → IsFirstUnflushed v.changes result };

    /// The word's value.
    fn load(&mut self, word: u64) -> u64
        requires { (found : ℕ) → can self.old (Load word found) }
        ensures { Made may (at self.old) (at self.new) (Load word result) };

    /// Makes the word this value.
    fn store(&mut self, word: u64, value: u64) -> Result<(), Stopped>
        requires { can self.old (Store word value) }
        ensures { MadeOrStopped may (at self.old) (at self.new) (λ _. Store word value) result };

    /// Sets these bits of the word, and tells the word before.
    fn or(&mut self, word: u64, bits: u64) -> Result<u64, Stopped>
        requires { (found : ℕ) → can self.old (Or word bits found) }
        ensures { MadeOrStopped may (at self.old) (at self.new) (Or word bits) result };

    /// Clears the other bits of the word, and tells the word before.
    fn and(&mut self, word: u64, bits: u64) -> Result<u64, Stopped>
        requires { (found : ℕ) → can self.old (And word bits found) }
        ensures { MadeOrStopped may (at self.old) (at self.new) (And word bits) result };

    /// Begins the writing back of a line.
    fn flush(&mut self, line: u64) -> Result<(), Stopped>
        requires { can self.old (Flush line) }
        ensures { MadeOrStopped may (at self.old) (at self.new) (λ _. Flush line) result };

    /// Waits until flushed lines are persistent.
    fn drain(&mut self) -> Result<(), Stopped>
        requires { can self.old Drain }
        ensures { MadeOrStopped may (at self.old) (at self.new) (λ _. Drain) result };
}
