//! The image of a pool in memory: one block of 64-bit words, in lines of eight words.
//!
//! `RawImage` promises the layers above it a block of a fixed number of words, which are zero at
//! first, and that a read or a write of a word or a line reaches those words and no other.
//! Contracts see an image as the list of its words. It stands on `Vec` and on `pm_layout` for
//! the words of a line, and starts no thread.
#![tactic(auto)]

ghost use Rattle.std.specs.Prelude.{◌≡◌, ◌+◌, ◌*◌, ◌<◌, ◌≤◌, ◌↔◌, [], length, replicate, slice_index, slice_range, slice_set, IsTrue, IfOk};
ghost use Rattle.std.specs.Borrow.{sem};
ghost use Rattle.pm_raw.specs.LentLine.{LendsLine};

use std::alloc::{AllocError, Global};
use std::marker::Model;

#[cfg(test)]
mod tests;

/// The words of a line, 8, as an index counts them.
const LINE_WORDS: usize = pm_layout::LINE_WORDS as usize;

/// The words of a pool. How many there are never changes.
#[derive(Drop)]
pub struct RawImage {
    words: Vec<u64>,
}

impl Model for RawImage {
    ghost use Rattle.std.specs.Prelude.{ℕ, List};

    ghost Value = { List ℕ };

    ghost view = { λ image. image.words.items };
}

impl RawImage {
    /// An image of this many words, each of them zero. The error says that memory is lacking, as
    /// it is for any number of words whose bytes no address space holds, and leaves nothing behind.
    pub fn new(alloc: Global, words: u64) -> Result<RawImage, AllocError>
        ensures { IfOk result (λ image. image ≡ replicate words 0) }
    {
        Ok(RawImage {
            words: vec![in alloc; 0; words as usize]?,
        })
    }

    /// An image of these words. The error says that memory is lacking, and leaves nothing behind.
    pub fn from_words(alloc: Global, words: &[u64]) -> Result<RawImage, AllocError>
        ensures { IfOk result (λ image. image ≡ words.now) }
    {
        Ok(RawImage {
            words: Vec::from_slice(alloc, words)?,
        })
    }

    /// The image of these words, in the memory that they have.
    pub fn from_vec(words: Vec<u64>) -> RawImage
        ensures { result ≡ words.items }
    {
        RawImage { words }
    }

    /// The words of the image, in the memory that they have.
    pub fn into_vec(self) -> Vec<u64>
        ensures { result.items ≡ self }
    {
        self.words
    }

    /// A further image with the same words. The error says that memory is lacking, and leaves nothing behind.
    pub fn copy(&self, alloc: Global) -> Result<RawImage, AllocError>
        ensures { IfOk result (λ image. image ≡ self.now) }
    {
        RawImage::from_words(alloc, &self.words)
    }

    /// How many words there are.
    pub fn len(&self) -> u64
        ensures { result ≡ length self.now }
    {
        self.words.len() as u64
    }

    /// Whether there is no word at all.
    pub fn is_empty(&self) -> bool
        ensures { IsTrue result ↔ (self.now ≡ []) }
    {
        self.words.is_empty()
    }

    /// The word at place `i`, counted in words from 0 and below `len`.
    pub fn word(&self, i: u64) -> u64
        requires { i < length self.now }
        ensures { result ≡ slice_index self.now i }
    {
        self.words[i as usize]
    }

    /// Writes the word at place `i`, counted in words from 0 and below `len`.
    pub fn set(&mut self, i: u64, value: u64)
        requires { i < length self.old }
        ensures { self.new ≡ slice_set self.old i value }
    {
        self.words[i as usize] = value;
    }

    /// The eight words of line `i`, counted in lines from 0: those at the places `8 * i` to
    /// `8 * i + 7`, all of them below `len`.
    pub fn line(&self, i: u64) -> &[u64]
        requires { 8 * i + 8 ≤ length self.now }
        ensures { result.now ≡ slice_range self.now (8 * i) (8 * i + 8) }
    {
        let words = &self.words;
        let start = LINE_WORDS * i as usize;
        &words[start..start + LINE_WORDS]
    }

    /// The `count` words from place `from` on, both counted in words; all of them below `len`.
    pub fn words(&self, from: u64, count: u64) -> &[u64]
        requires { from + count ≤ length self.now }
        ensures { result.now ≡ slice_range self.now from (from + count) }
    {
        let words = &self.words;
        let start = from as usize;
        &words[start..start + count as usize]
    }

    /// The eight words of line `i`, as `line` gives them, to be written. What the caller leaves in
    /// them is line `i` from then on.
    #[tactic(auto, unfolding(crate::specs::Line::with_line))]
    pub fn line_mut(&mut self, i: u64) -> &mut [u64]
        requires { 8 * i + 8 ≤ length self.old }
        ensures value { result.now ≡ slice_range self.old (8 * i) (8 * i + 8) }
        ensures* writes_back { sem 𝓛 (LendsLine self.entry i result) }
    {
        let words = &mut self.words;
        let start = LINE_WORDS * i as usize;
        words.slice_mut(start..start + LINE_WORDS)
    }
}
