//! The shape of a pool, and the places that it gives.

ghost use Rattle.std.specs.Prelude.{◌≡◌, ◌≢◌, ℕ, ◌+◌, ◌*◌, ◌<◌, ◌≤◌, ◌↔◌, ◌⊎◌, IsOk, IsErr, IfOk, IfSome, IfNone, IsSomeAnd};
ghost use Rattle.pm_layout.specs.Layout.{IsShape, IsOutside, lane_place, zone_place, chunk_place, pool_size, IsChunkPlace};

use crate::kind::PlaceKind;
use crate::numbers::{
    CHUNK_BYTES, CHUNKS_PER_ZONE, ENTRIES_AT, ENTRY_WORDS, GENERATION_AT, LANE_BYTES, LANE_LINES,
    LANE_WORDS, MAX_LANES, MAX_POOL_BYTES, MAX_ZONES, OLD_WORDS, PAGE_BYTES, PAGE_LINES,
    PAGE_WORDS, REDO_ENTRIES, ROOT_PLACE, SEAL_AT, SLOT_WORDS, SLOTS_AT, UNDO_SLOTS, VERSION,
    WORD_BYTES, ZONE_BYTES,
};
use std::error::Error;
use std::fmt;

/// The version of a pool's layout, and how many lanes and zones it has: 1 to 32 of each.
#[derive(Clone, Copy, Debug, PartialEq, Eq)]
pub struct Shape {
    /// The version of the layout: 1 is the only one.
    pub version: u64,
    /// How many lanes there are.
    pub lanes: u64,
    /// How many zones there are.
    pub zones: u64,
    pub ghost version_from: { 1 ≤ version },
    pub ghost version_to: { version ≤ 1 },
    pub ghost lanes_from: { 1 ≤ lanes },
    pub ghost lanes_to: { lanes ≤ 32 },
    pub ghost zones_from: { 1 ≤ zones },
    pub ghost zones_to: { zones ≤ 32 },
}

/// A number of lanes or of zones is outside 1 to 32.
#[derive(Clone, Copy, Debug, PartialEq, Eq)]
pub struct BadShape;

impl fmt::Display for BadShape {
    ghost use Rattle.std.specs.Prelude.{Some};
    ghost use Rattle.pm_layout.specs.Texts.{bad_shape_text};

    ghost output = { λ _. Some bad_shape_text };

    fn fmt<W: fmt::Write>(&self, f: &mut fmt::Formatter<W>) -> fmt::Result {
        f.write_str("BadShape")
    }
}

impl Error for BadShape {}

impl Shape {
    ghost use Rattle.pm_layout.specs.Kinds.{IsKind};
    ghost use Rattle.pm_layout.specs.Areas.{undo_slots, slot_words, old_words, redo_entries, word_of_generation, word_of_seal, word_of_entry, line_of_slot};

    /// The shape of these numbers of lanes and zones. `BadShape` says that one of them is outside 1
    /// to 32, and there is no such shape.
    pub fn new(lanes: u64, zones: u64) -> Result<Shape, BadShape>
        ensures accepted { IsOk result ↔ IsShape lanes zones }
        ensures refused { IsErr result ↔ (IsOutside lanes ⊎ IsOutside zones) }
        ensures lanes { IfOk result (λ shape. shape.lanes ≡ lanes) }
        ensures zones { IfOk result (λ shape. shape.zones ≡ zones) }
    {
        if (1..=MAX_LANES).contains(&lanes) && (1..=MAX_ZONES).contains(&zones) {
            Ok(Shape {
                version: VERSION,
                lanes,
                zones,
            })
        } else {
            Err(BadShape)
        }
    }

    /// The shape of a pool of so many bytes, any number: one length has at most one shape. `None`
    /// says that no shape has that length.
    pub fn of_bytes(bytes: u64) -> Option<Shape>
        ensures some { IfSome result (λ shape. pool_size shape.lanes shape.zones ≡ bytes) }
        ensures none { IfNone result
            ((lanes zones : ℕ) → IsShape lanes zones → pool_size lanes zones ≢ bytes) }
        ensures only { (lanes zones : ℕ) → IsShape lanes zones → pool_size lanes zones ≡ bytes
            → IsSomeAnd result (λ shape. (shape.lanes ≡ lanes) × (shape.zones ≡ zones)) }
    {
        let pages = bytes.checked_sub(PAGE_BYTES)? / PAGE_BYTES;
        let zone_pages = ZONE_BYTES / PAGE_BYTES;
        let lane_pages = LANE_BYTES / PAGE_BYTES;
        let shape = Shape::new(pages % zone_pages / lane_pages, pages / zone_pages).ok()?;
        if shape.size() == bytes {
            Some(shape)
        } else {
            None
        }
    }

    /// The bytes of the pool: 278,528 to 8,785,920.
    pub fn size(&self) -> u64
        ensures value { result ≡ pool_size self.now.lanes self.now.zones }
        ensures at_most { result ≤ MAX_POOL_BYTES }
    {
        PAGE_BYTES + LANE_BYTES * self.lanes + ZONE_BYTES * self.zones
    }

    /// The place in bytes at which the area of a lane begins, 8192 bytes within the pool. Lanes count
    /// from 0.
    pub fn lane_at(&self, lane: u64) -> u64
        requires { lane < self.now.lanes }
        ensures value { result ≡ lane_place lane }
        ensures within_pool { result + LANE_BYTES ≤ pool_size self.now.lanes self.now.zones }
    {
        PAGE_BYTES + LANE_BYTES * lane
    }

    /// The place in bytes at which a zone begins, 266,240 bytes within the pool. Zones count from 0.
    pub fn zone_at(&self, zone: u64) -> u64
        requires { zone < self.now.zones }
        ensures value { result ≡ zone_place self.now.lanes zone }
        ensures within_pool { result + ZONE_BYTES ≤ pool_size self.now.lanes self.now.zones }
    {
        PAGE_BYTES + LANE_BYTES * self.lanes + ZONE_BYTES * zone
    }

    /// The place in bytes at which a chunk of a zone begins, 4096 bytes within the pool. Zones count
    /// from 0, and the chunks of each from 0 to 63.
    pub fn chunk_at(&self, zone: u64, chunk: u64) -> u64
        requires zone { zone < self.now.zones }
        requires chunk { chunk < CHUNKS_PER_ZONE }
        ensures value { result ≡ chunk_place self.now.lanes zone chunk }
        ensures within_pool { result + CHUNK_BYTES ≤ pool_size self.now.lanes self.now.zones }
        ensures is_chunk { IsChunkPlace result }
    {
        self.zone_at(zone) + PAGE_BYTES + CHUNK_BYTES * chunk
    }

    /// What stands at a word, given by its number: word w begins at place 8 * w. Any number is
    /// allowed, and a word past the pool's end is `Other`.
    pub fn place_kind(&self, word: u64) -> PlaceKind
        ensures { IsKind self.now.lanes self.now.zones word result }
    {
        if word == ROOT_PLACE / WORD_BYTES {
            PlaceKind::Root
        } else if word < PAGE_BYTES / WORD_BYTES {
            PlaceKind::Other
        } else if word < self.zone_at(0) / WORD_BYTES {
            PlaceKind::Lane((word - PAGE_BYTES / WORD_BYTES) / (LANE_BYTES / WORD_BYTES))
        } else {
            self.kind_behind_lanes(word)
        }
    }

    /// What stands at a word behind the lanes: in a zone, or past the last.
    fn kind_behind_lanes(&self, word: u64) -> PlaceKind
        requires { zone_place self.now.lanes 0 ≤ 8 * word }
        ensures { IsKind self.now.lanes self.now.zones word result }
    {
        let word_in_zones = word - self.zone_at(0) / WORD_BYTES;
        let zone = word_in_zones / (ZONE_BYTES / WORD_BYTES);
        let word_in_zone = word_in_zones % (ZONE_BYTES / WORD_BYTES);
        let page_words = PAGE_BYTES / WORD_BYTES;
        if zone >= self.zones {
            PlaceKind::Other
        } else if word_in_zone < CHUNKS_PER_ZONE {
            PlaceKind::Descriptor(zone, word_in_zone)
        } else if word_in_zone < page_words {
            PlaceKind::Other
        } else {
            let word_in_chunks = word_in_zone - page_words;
            PlaceKind::Chunk(zone, word_in_chunks / (CHUNK_BYTES / WORD_BYTES))
        }
    }

    /// How many undo slots each lane has.
    pub fn undo_slots(&self) -> u64
        ensures { result ≡ undo_slots self.now }
    {
        UNDO_SLOTS
    }

    /// How many words an undo slot has.
    pub fn slot_words(&self) -> u64
        ensures { result ≡ slot_words self.now }
    {
        SLOT_WORDS
    }

    /// How many old words an undo record has room for.
    pub fn old_words(&self) -> u64
        ensures { result ≡ old_words self.now }
    {
        OLD_WORDS
    }

    /// How many redo entries each lane has room for.
    pub fn redo_entries(&self) -> u64
        ensures { result ≡ redo_entries self.now }
    {
        REDO_ENTRIES
    }

    /// The number of the word that has a lane's generation.
    pub fn word_of_generation(&self, lane: u64) -> u64
        requires { lane < self.now.lanes }
        ensures { result ≡ word_of_generation self.now lane }
    {
        PAGE_WORDS + LANE_WORDS * lane + GENERATION_AT
    }

    /// The number of the word that has a lane's seal.
    pub fn word_of_seal(&self, lane: u64) -> u64
        requires { lane < self.now.lanes }
        ensures { result ≡ word_of_seal self.now lane }
    {
        PAGE_WORDS + LANE_WORDS * lane + SEAL_AT
    }

    /// The number of the first word of a lane's redo entry. Entries count from 0.
    pub fn word_of_entry(&self, lane: u64, entry: u64) -> u64
        requires lane { lane < self.now.lanes }
        requires entry { entry < redo_entries self.now }
        ensures { result ≡ word_of_entry self.now lane entry }
    {
        PAGE_WORDS + LANE_WORDS * lane + ENTRIES_AT + ENTRY_WORDS * entry
    }

    /// The number of the line of a lane's undo slot. Slots count from 0.
    pub fn line_of_slot(&self, lane: u64, slot: u64) -> u64
        requires lane { lane < self.now.lanes }
        requires slot { slot < undo_slots self.now }
        ensures { result ≡ line_of_slot self.now lane slot }
    {
        PAGE_LINES + LANE_LINES * lane + SLOTS_AT + slot
    }
}
