ghost use Rattle.std.specs.Prelude.{◌≡◌, List, ◌∷◌, ◌++◌, [], length, IfOk};
ghost use Rattle.std.specs.Bool.{OnTrue, OnFalse};
ghost use Rattle.pm_memory.specs.Changes.{change_flushed, changes_flushed, changes_drained, CanAdd, IsLeastUnflushed};
ghost use Rattle.pm_shared.specs.Tallies.{IsTally, untallied, tallied, with_change};
ghost use Rattle.pm_view.specs.Changes.{store_change, or_change, and_change};
ghost use Rattle.pm_view.specs.Counts.{MayCount, IsAtStop};
ghost use Rattle.pm_view.specs.View.{View};
ghost use Rattle.pm_view.specs.declared.change.Change.{Change};

use pm_layout::LINE_WORDS;
use pm_view::{Change, MAX_CHANGES};
use std::alloc::{AllocError, Global};
use std::marker::Model;

/// A lane's own tally of its memory calls: after how many counted calls it stops, how many it made,
/// modulo 2^64, and its undrained changes, the oldest first, with room for all that there may be.
#[derive(Drop)]
pub struct Tally {
    stop: Option<u64>,
    calls: u64,
    changes: Vec<Change>,
}

impl Model for Tally {
    ghost use Rattle.std.specs.Prelude.{◌≤◌, vec_capacity};
    ghost use Rattle.pm_shared.specs.Tallies.{Tallied};

    ghost Value = { Tallied };

    ghost view = { λ t. record { stop = t.stop; calls = t.calls; changes = t.changes.items } };

    ghost invariant = { λ t. 512 ≤ vec_capacity t.changes };
}

impl Tally {
    /// The tally of a lane that made no call.
    pub(crate) fn new(alloc: Global, stop: Option<u64>) -> Result<Tally, AllocError>
        ensures { IfOk result (λ t. t ≡ untallied stop) }
    {
        Ok(Tally {
            stop,
            calls: 0,
            changes: Vec::with_capacity(alloc, MAX_CHANGES)?,
        })
    }

    /// The undrained changes.
    pub(crate) fn changes(&self) -> &[Change]
        ensures { result.now ≡ self.now.changes }
    {
        self.changes.as_slice()
    }

    /// The undrained changes, in the room that they have.
    pub(crate) fn into_changes(self) -> Vec<Change>
        ensures { result.items ≡ self.changes }
    {
        self.changes
    }

    /// How many counted calls were made, modulo 2^64.
    pub(crate) fn calls(&self) -> u64
        ensures { result ≡ self.now.calls }
    {
        self.calls
    }

    /// Whether the lane is not at its stop number.
    pub(crate) fn goes_on(&self) -> bool
        ensures more { OnTrue result ((v : View) → IsTally self.now v → MayCount v) }
        ensures stop { OnFalse result ((v : View) → IsTally self.now v → IsAtStop v) }
    {
        // A copy, of whose number the prover knows that it is a u64.
        let last = self.stop;
        match last {
            Some(stop) => self.calls < stop,
            None => true,
        }
    }

    /// The least line with an unflushed change.
    pub(crate) fn unflushed(&self) -> Option<u64>
        ensures { IsLeastUnflushed self.now.changes result }
    {
        let mut first = None;
        for change in self.changes.iter() {
            first = lesser(first, *change);
        }
        first
    }

    /// A store of `value` was made, where the word was `found`.
    pub(crate) fn stored(&mut self, word: u64, found: u64, value: u64)
        requires { CanAdd self.old.changes }
        ensures { self.new ≡ with_change (store_change word found value) self.old }
    {
        self.add(Change {
            word,
            mask: u64::MAX,
            old: found,
            new: value,
            flushed: false,
        });
    }

    /// An OR of `bits` was made into the word `found`.
    pub(crate) fn or_made(&mut self, word: u64, bits: u64, found: u64)
        requires { CanAdd self.old.changes }
        ensures { self.new ≡ with_change (or_change word bits found) self.old }
    {
        self.add(Change {
            word,
            mask: bits,
            old: found & bits,
            new: bits,
            flushed: false,
        });
    }

    /// An AND of `bits` was made into the word `found`.
    pub(crate) fn and_made(&mut self, word: u64, bits: u64, found: u64)
        requires { CanAdd self.old.changes }
        ensures { self.new ≡ with_change (and_change word bits found) self.old }
    {
        self.add(Change {
            word,
            mask: !bits,
            old: found & !bits,
            new: 0,
            flushed: false,
        });
    }

    /// A call made this change.
    fn add(&mut self, change: Change)
        requires { CanAdd self.old.changes }
        ensures { self.new ≡ with_change change self.old }
    {
        self.calls = self.calls.wrapping_add(1);
        let pushed = self.changes.push(change);
        prove!(pushed.is_ok());
    }

    /// The line was flushed.
    pub(crate) fn flushed(&mut self, line: u64)
        ensures { self.new ≡ tallied (changes_flushed line self.old.changes) self.old }
    {
        self.calls = self.calls.wrapping_add(1);
        for change in self.changes.iter_mut() {
            mark(change, line);
        }
    }

    /// The flushed lines were drained.
    pub(crate) fn drained(&mut self)
        ensures { self.new ≡ tallied (changes_drained self.old.changes) self.old }
    {
        self.calls = self.calls.wrapping_add(1);
        self.changes.retain(|change| !change.flushed);
    }
}

/// The least line with an unflushed change among some changes and one more.
fn lesser(first: Option<u64>, change: Change) -> Option<u64>
    ensures { (changes : List Change) → IsLeastUnflushed changes first → IsLeastUnflushed (changes ++ change ∷ []) result }
{
    let line = change.word / LINE_WORDS;
    match first {
        _ if change.flushed => first,
        Some(least) if least <= line => first,
        _ => Some(line),
    }
}

/// The line is flushed: marks the change where it is of this line. Only the mark is written: a whole
/// change that is copied costs more than the store that made it.
fn mark(change: &mut Change, line: u64)
    ensures { change.exit.now ≡ change_flushed line change.entry.now }
{
    if change.word / LINE_WORDS == line {
        change.flushed = true;
    }
}
