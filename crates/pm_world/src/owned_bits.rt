ghost use Rattle.std.specs.Prelude.{◌≡◌, ◌≢◌, ◌^◌, ◌<◌, IfOk, IfSome, IfNone, slice_index, length};
ghost use Rattle.pm_memory.specs.Solo.{HasWord, occ_word};
ghost use Rattle.pm_world.specs.OwnedBits.{none_owned, owned_with, AreClear, AreClearFrom, AreFlagged};

use pm_layout::{MAX_ZONES, PAGE_BYTES};
use pm_view::Occ;
use std::alloc::{AllocError, Global};
use std::marker::Model;

/// So many pages share a flag.
const GROUP: usize = 64;

/// Zones of a pool at most.
const ZONES: usize = MAX_ZONES as usize;

/// Bits of occupancy words that a lane owns, by word: of blocks that it reserved, or freed. The
/// room is taken at the opening, and no call takes more. Contracts see the bits.
#[derive(Drop)]
pub struct OwnedBits {
    runs: Vec<u64>,
    zones: Vec<u64>,
    /// Whether a group of pages may have bits, so that few pages are looked at.
    groups: Vec<bool>,
}

impl Model for OwnedBits {
    ghost use Rattle.pm_world.specs.OwnedBits.{Owned, AreFlagged};

    ghost Value = { Owned };

    ghost view = { λ b. record { runs = b.runs.items; zones = b.zones.items } };

    ghost invariant = { λ b. AreFlagged b.runs.items b.groups.items };
}

impl OwnedBits {
    /// No bits, with room for so many pages and 32 zones.
    pub fn new(alloc: Global, pages: usize) -> Result<OwnedBits, AllocError>
        requires { pages < 2 ^ 32 }
        ensures { IfOk result (λ bits. bits ≡ none_owned pages) }
    {
        Ok(OwnedBits {
            runs: vec![in alloc; 0; pages]?,
            zones: vec![in alloc; 0; ZONES]?,
            groups: vec![in alloc; false; pages / GROUP + 1]?,
        })
    }

    /// The bits of an occupancy word.
    pub fn of(&self, at: Occ) -> u64
        requires { HasWord self.now.runs self.now.zones at }
        ensures { result ≡ occ_word self.now.runs self.now.zones at }
    {
        match at {
            Occ::Run(place) => self.runs[(place / PAGE_BYTES) as usize],
            Occ::Zone(zone) => self.zones[zone as usize],
        }
    }

    /// Makes the bits of an occupancy word these.
    pub fn set(&mut self, at: Occ, bits: u64)
        requires { HasWord self.old.runs self.old.zones at }
        ensures { self.new ≡ owned_with self.old at bits }
    {
        match at {
            Occ::Run(place) => {
                let page = (place / PAGE_BYTES) as usize;
                self.runs[page] = bits;
                self.groups[page / GROUP] = true;
            }
            Occ::Zone(zone) => self.zones[zone as usize] = bits,
        }
    }

    /// An occupancy word of which it has bits, if there is one.
    pub fn first(&self) -> Option<Occ>
        ensures there { IfSome result (HasWord self.now.runs self.now.zones) }
        ensures some { IfSome result (λ at. occ_word self.now.runs self.now.zones at ≢ 0) }
        ensures none { IfNone result (AreClear self.now.runs × AreClear self.now.zones) }
    {
        if let Some(zone) = first_set(self.zones.as_slice(), 0, self.zones.len()) {
            return Some(Occ::Zone(zone as u64));
        }
        match first_page(self.runs.as_slice(), self.groups.as_slice()) {
            Some(page) => Some(Occ::Run(PAGE_BYTES * page as u64)),
            None => None,
        }
    }
}

/// A page that has bits, where a page with bits is in a flagged group.
#[tactic(auto, using(crate::proofs::OwnedWords::clear_start, crate::proofs::OwnedWords::group_looked, crate::proofs::OwnedWords::group_unflagged, crate::proofs::OwnedWords::all_looked))]
fn first_page(runs: &[u64], groups: &[bool]) -> Option<usize>
    requires { AreFlagged runs.now groups.now }
    ensures there { IfSome result (λ page. page < length runs.now) }
    ensures some { IfSome result (λ page. slice_index runs.now page ≢ 0) }
    ensures none { IfNone result (AreClear runs.now) }
{
    let mut from = 0;
    while from < runs.len() {
        if groups[from / GROUP] {
            let found = first_set(runs, from, from + GROUP);
            if found.is_some() {
                return found;
            }
        }
        from += GROUP;
    }
    None
}

/// The first word that is not 0 from `from` on and below `to`.
#[tactic(auto, using(crate::proofs::OwnedWords::clear_start, crate::proofs::OwnedWords::clear_more, crate::proofs::OwnedWords::clear_to))]
fn first_set(words: &[u64], from: usize, to: usize) -> Option<usize>
    ensures there { IfSome result (λ i. i < length words.now) }
    ensures some { IfSome result (λ i. slice_index words.now i ≢ 0) }
    ensures none { IfNone result (AreClearFrom words.now from to) }
{
    let end = to.min(words.len());
    let mut i = from;
    while i < end {
        if words[i] != 0 {
            return Some(i);
        }
        i += 1;
    }
    None
}
