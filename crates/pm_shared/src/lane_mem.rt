ghost use Rattle.std.specs.Prelude.{◌≡◌};
ghost use Rattle.pm_shared.specs.Seats.{IsSeen};
ghost use Rattle.pm_view.specs.Counts.{IsAtStop};
ghost use Rattle.pm_view.specs.Steps.Step.{SetStop};
ghost use Rattle.pm_view.specs.View.{View};
ghost use Rattle.pm_view.specs.Views.{after};

use crate::{SharedLane, TableName};
use pm_memory::{LaneMem, Stopped};

impl<'a, N: TableName> SharedLane<'a, N> {
    /// Sets the stop word in place of a counted call: the lane is at its stop number.
    fn stop(&mut self) -> Stopped
        requires { (v : View) × IsSeen self.old v × IsAtStop v }
        ensures { (v : View) → IsSeen self.old v → IsSeen self.new (after v SetStop) × IsAtStop v }
    {
        self.memory.sets_stop(&mut self.seat, self.lane);
        Stopped
    }
}

impl<'a, N: TableName> LaneMem for SharedLane<'a, N> {
    ghost use Rattle.pm_memory.specs.Runs.{AnyStep};
    ghost use Rattle.pm_shared.specs.Seats.{IsSeen, IsAllowed};

    ghost at = { IsSeen };

    ghost can = { IsAllowed };

    ghost may = { AnyStep };

    fn lane(&self) -> u64 {
        self.lane
    }

    fn words(&self) -> u64 {
        self.memory.words
    }

    fn calls(&self) -> u64 {
        self.tally.calls()
    }

    fn undrained(&self) -> u64 {
        self.tally.changes().len() as u64
    }

    fn unflushed(&self) -> Option<u64> {
        self.tally.unflushed()
    }

    fn load(&mut self, word: u64) -> u64 {
        self.memory.loads(&mut self.seat, self.lane, word)
    }

    fn store(&mut self, word: u64, value: u64) -> Result<(), Stopped> {
        if !self.tally.goes_on() {
            return Err(self.stop());
        }
        let found = self.memory.stores(&mut self.seat, self.lane, word, value);
        self.tally.stored(word, found, value);
        Ok(())
    }

    fn or(&mut self, word: u64, bits: u64) -> Result<u64, Stopped> {
        if !self.tally.goes_on() {
            return Err(self.stop());
        }
        let found = self.memory.ors(&mut self.seat, self.lane, word, bits);
        self.tally.or_made(word, bits, found);
        Ok(found)
    }

    fn and(&mut self, word: u64, bits: u64) -> Result<u64, Stopped> {
        if !self.tally.goes_on() {
            return Err(self.stop());
        }
        let found = self.memory.ands(&mut self.seat, self.lane, word, bits);
        self.tally.and_made(word, bits, found);
        Ok(found)
    }

    fn flush(&mut self, line: u64) -> Result<(), Stopped> {
        if !self.tally.goes_on() {
            return Err(self.stop());
        }
        self.memory.flushes(&mut self.seat, self.lane, line);
        self.tally.flushed(line);
        Ok(())
    }

    fn drain(&mut self) -> Result<(), Stopped> {
        if !self.tally.goes_on() {
            return Err(self.stop());
        }
        self.memory.drains(&mut self.seat, self.lane);
        self.tally.drained();
        Ok(())
    }
}
