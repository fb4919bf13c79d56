//! A set of lines of a pool, for objects whose headers they hold.

ghost use Rattle.std.specs.Prelude.{◌≡◌, ℕ, ◌||◌, ◌==◌, false, length, IfOk};
ghost use Rattle.solo_made.specs.Made.{IsOffsetIn, has_object};

use pm_layout::{LINE_BYTES, LINES_PER_CHUNK};
use std::alloc::{AllocError, Global};
use std::marker::Model;

/// A set of lines: a word for each page of 64 lines, with a bit for each line. An object is in it by the line of its header, which ends where the
/// object begins. Contracts see the words.
#[derive(Drop)]
pub(crate) struct LineSet {
    words: Vec<u64>,
    /// Whether a line was put in since all was cleared.
    used: bool,
}

impl Model for LineSet {
    ghost use Rattle.std.specs.Prelude.{◌≡◌, ℕ, List, false, slice_index};

    ghost Value = { List ℕ };

    ghost view = { λ s. s.words.items };

    ghost invariant = { λ s. s.used ≡ false → (i : ℕ) → slice_index s.words.items i ≡ 0 };
}

impl LineSet {
    /// No line of a pool of so many pages. The error says that memory is lacking.
    pub(crate) fn new(alloc: Global, pages: usize) -> Result<LineSet, AllocError>
        ensures pages { IfOk result (λ set. length set ≡ pages) }
        ensures empty { IfOk result (λ set. (off : ℕ) → has_object set off ≡ false) }
    {
        Ok(LineSet {
            words: vec![in alloc; 0; pages]?,
            used: false,
        })
    }

    /// Whether the object at the offset is in the set, in bytes; no object's offset is in none.
    pub(crate) fn contains(&self, off: u64) -> bool
        ensures { result ≡ has_object self.now off }
    {
        if off % LINE_BYTES != 0 || off < LINE_BYTES {
            return false;
        }
        let line = off / LINE_BYTES - 1;
        match self.words.get((line / LINES_PER_CHUNK) as usize) {
            Some(word) => *word >> line % LINES_PER_CHUNK & 1 == 1,
            None => false,
        }
    }

    /// Puts in the object at the offset, in bytes.
    pub(crate) fn insert(&mut self, off: u64)
        requires { IsOffsetIn (length self.old) off }
        ensures pages { length self.new ≡ length self.old }
        ensures put { (other : ℕ) → has_object self.new other ≡ (has_object self.old other || other == off) }
    {
        let line = off / LINE_BYTES - 1;
        self.words[(line / LINES_PER_CHUNK) as usize] |= 1 << line % LINES_PER_CHUNK;
        self.used = true;
    }

    /// Takes all out; it looks at no word where none was put in.
    pub(crate) fn clear(&mut self)
        ensures pages { length self.new ≡ length self.old }
        ensures empty { (off : ℕ) → has_object self.new off ≡ false }
    {
        if self.used {
            self.words.fill(0);
            self.used = false;
        }
    }
}
