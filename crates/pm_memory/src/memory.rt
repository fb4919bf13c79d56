ghost use Rattle.std.specs.Prelude.{◌≡◌, ℕ, ◌<◌, ◌≤◌, [], length, IfOk, slice_index, replicate};
ghost use Rattle.pm_memory.specs.Changes.{CanAdd, CanFlush, CanDrain};
ghost use Rattle.pm_view.specs.Changes.{store_change, or_change, and_change};

use crate::changes::Changes;
use crate::survivors::{Kept, take_back};
use pm_view::Change;
use std::alloc::{AllocError, Global};
use std::marker::Model;

/// A memory that loses what is not drained: words, and for each lane the changes that it has not
/// drained. Contracts see both.
#[derive(Drop)]
pub struct Memory {
    words: Vec<u64>,
    lanes: Vec<Changes>,
}

impl Model for Memory {
    ghost use Rattle.pm_memory.specs.Calls.{Contents};

    ghost Value = { Contents };

    ghost view = { λ m. record { words = m.words.items; changes = m.lanes.items } };
}

impl Memory {
    ghost use Rattle.pm_memory.specs.Calls.{Contents, changes_by, after_store, after_or, after_and, after_flush, after_drain};
    ghost use Rattle.pm_memory.specs.Keep.{IsKeptImage};
    ghost use Rattle.pm_memory.specs.Survivors.{Survives};

    /// A memory of these words and so many lanes, 1 to 32, with nothing undrained. It takes the
    /// room of every change.
    pub fn new(alloc: Global, words: Vec<u64>, lanes: u64) -> Result<Memory, AllocError>
        requires some { 1 ≤ lanes }
        requires most { lanes ≤ 32 }
        ensures { IfOk result (λ m. m ≡ record { words = words.items; changes = replicate lanes [] }) }
    {
        let mut each = Vec::with_capacity(alloc, 32)?;
        for _ in 0..lanes {
            each.push(Changes::new(alloc)?)?;
        }
        Ok(Memory { words, lanes: each })
    }

    /// The word's value.
    pub fn load(&self, lane: u64, word: u64) -> u64
        requires lane { lane < length self.now.changes }
        requires word { word < length self.now.words }
        ensures { result ≡ slice_index self.now.words word }
    {
        let _ = lane;
        self.words[word as usize]
    }

    /// Makes the word this value.
    pub fn store(&mut self, lane: u64, word: u64, value: u64)
        requires lane { lane < length self.old.changes }
        requires word { word < length self.old.words }
        requires room { CanAdd (changes_by self.old lane) }
        ensures { self.new ≡ after_store self.old lane word value }
    {
        let change = stored(word, self.words[word as usize], value);
        self.lanes[lane as usize].add(change);
        self.words[word as usize] = value;
    }

    /// Sets these bits of the word, and tells the word before.
    pub fn or(&mut self, lane: u64, word: u64, bits: u64) -> u64
        requires lane { lane < length self.old.changes }
        requires word { word < length self.old.words }
        requires room { CanAdd (changes_by self.old lane) }
        ensures before { result ≡ slice_index self.old.words word }
        ensures after { self.new ≡ after_or self.old lane word bits }
    {
        let found = self.words[word as usize];
        self.lanes[lane as usize].add(or_made(word, bits, found));
        self.words[word as usize] = found | bits;
        found
    }

    /// Clears the other bits of the word, and tells the word before.
    pub fn and(&mut self, lane: u64, word: u64, bits: u64) -> u64
        requires lane { lane < length self.old.changes }
        requires word { word < length self.old.words }
        requires room { CanAdd (changes_by self.old lane) }
        ensures before { result ≡ slice_index self.old.words word }
        ensures after { self.new ≡ after_and self.old lane word bits }
    {
        let found = self.words[word as usize];
        self.lanes[lane as usize].add(and_made(word, bits, found));
        self.words[word as usize] = found & bits;
        found
    }

    /// Marks the lane's changes in a line.
    pub fn flush(&mut self, lane: u64, line: u64)
        requires lane { lane < length self.old.changes }
        requires idle { CanFlush line (changes_by self.old lane) }
        ensures { self.new ≡ after_flush self.old lane line }
    {
        self.lanes[lane as usize].flush(line);
    }

    /// Drops the lane's marked changes.
    pub fn drain(&mut self, lane: u64)
        requires lane { lane < length self.old.changes }
        requires idle { CanDrain (changes_by self.old lane) }
        ensures { self.new ≡ after_drain self.old lane }
    {
        self.lanes[lane as usize].drain();
    }

    /// The words that a power failure leaves, where of each lane's changes of a word as many are
    /// kept as `keep` says: 0 none, 1 all, else by numbers that follow it.
    pub fn survive(&self, alloc: Global, keep: u64) -> Result<Vec<u64>, AllocError>
        ensures kept { IfOk result (λ image. IsKeptImage keep self.now.words self.now.changes image.items) }
        ensures survives { IfOk result (λ image. Survives self.now.words self.now.changes image.items) }
    {
        let mut left = self.words.to_vec(alloc)?;
        let mut kept = Kept::of(keep);
        for changes in &self.lanes {
            take_back(&mut left, changes.as_slice(), &mut kept);
        }
        Ok(left)
    }
}

/// The change that a store makes.
pub fn stored(word: u64, old: u64, value: u64) -> Change
    ensures { result ≡ store_change word old value }
{
    Change {
        word,
        mask: u64::MAX,
        old,
        new: value,
        flushed: false,
    }
}

/// The change that an OR makes of the word found.
pub fn or_made(word: u64, bits: u64, found: u64) -> Change
    ensures { result ≡ or_change word bits found }
{
    Change {
        word,
        mask: bits,
        old: found & bits,
        new: bits,
        flushed: false,
    }
}

/// The change that an AND makes of the word found.
pub fn and_made(word: u64, bits: u64, found: u64) -> Change
    ensures { result ≡ and_change word bits found }
{
    Change {
        word,
        mask: !bits,
        old: found & !bits,
        new: 0,
        flushed: false,
    }
}
