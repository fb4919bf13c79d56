ghost use Rattle.std.specs.Prelude.{ℕ, Bool};
ghost use Rattle.pm_view.specs.Steps.Step.{TakeWrite, TakeRead, Raise, Give, ZoneTry, ZoneGive, Occupied, Occupy, Vacate, Draw, NumberSeen, StopSeen, SetStop};
ghost use Rattle.pm_memory.specs.Runs.{Made};

use crate::LaneMem;
use pm_view::Occ;

/// A lane's locks, occupancy words, commit counter and stop word: each call is one step of the
/// lane, and none waits. These words are volatile, and no call is counted.
pub trait LaneSync: LaneMem {
    /// Tries once to take a line's lock for writing.
    fn take_write(&mut self, line: u64) -> bool
        requires { (won : Bool) → Self.can self.old (TakeWrite line won) }
        ensures { Made Self.may (Self.at self.old) (Self.at self.new) (TakeWrite line result) };

    /// Tries once to take a line's lock for reading.
    fn take_read(&mut self, line: u64) -> bool
        requires { (won : Bool) → Self.can self.old (TakeRead line won) }
        ensures { Made Self.may (Self.at self.old) (Self.at self.new) (TakeRead line result) };

    /// Tries once to hold a line for writing that is held for reading.
    fn raise(&mut self, line: u64) -> bool
        requires { (won : Bool) → Self.can self.old (Raise line won) }
        ensures { Made Self.may (Self.at self.old) (Self.at self.new) (Raise line result) };

    /// Gives a line's lock back.
    fn give(&mut self, line: u64)
        requires { Self.can self.old (Give line) }
        ensures { Made Self.may (Self.at self.old) (Self.at self.new) (Give line) };

    /// Tries once to take a zone's lock.
    fn zone_try(&mut self, zone: u64) -> bool
        requires { (won : Bool) → Self.can self.old (ZoneTry zone won) }
        ensures { Made Self.may (Self.at self.old) (Self.at self.new) (ZoneTry zone result) };

    /// Gives a zone's lock back.
    fn zone_give(&mut self, zone: u64)
        requires { Self.can self.old (ZoneGive zone) }
        ensures { Made Self.may (Self.at self.old) (Self.at self.new) (ZoneGive zone) };

    /// An occupancy word.
    fn occupied(&mut self, at: Occ) -> u64
        requires { (found : ℕ) → Self.can self.old (Occupied at found) }
        ensures { Made Self.may (Self.at self.old) (Self.at self.new) (Occupied at result) };

    /// Sets these bits of an occupancy word where all of them are clear.
    fn occupy(&mut self, at: Occ, bits: u64) -> bool
        requires { (won : Bool) → Self.can self.old (Occupy at bits won) }
        ensures { Made Self.may (Self.at self.old) (Self.at self.new) (Occupy at bits result) };

    /// Clears these bits of an occupancy word.
    fn vacate(&mut self, at: Occ, bits: u64)
        requires { Self.can self.old (Vacate at bits) }
        ensures { Made Self.may (Self.at self.old) (Self.at self.new) (Vacate at bits) };

    /// Draws the next commit number, and tells how many were drawn before it: the number is one
    /// more.
    fn draw(&mut self) -> u64
        requires { (number : ℕ) → Self.can self.old (Draw number) }
        ensures { Made Self.may (Self.at self.old) (Self.at self.new) (Draw result) };

    /// How many commit numbers were drawn.
    fn number_seen(&mut self) -> u64
        requires { (number : ℕ) → Self.can self.old (NumberSeen number) }
        ensures { Made Self.may (Self.at self.old) (Self.at self.new) (NumberSeen result) };

    /// Whether some lane is at its stop number and has said so.
    fn stop_seen(&mut self) -> bool
        requires { (stopped : Bool) → Self.can self.old (StopSeen stopped) }
        ensures { Made Self.may (Self.at self.old) (Self.at self.new) (StopSeen result) };

    /// Says that the lane is at its stop number.
    fn set_stop(&mut self)
        requires { Self.can self.old SetStop }
        ensures { Made Self.may (Self.at self.old) (Self.at self.new) SetStop };
}
