//! The places of a pool of persistent memory, by docs/FORMAT.md: shapes, places and size classes.
//! It promises to each crate above where a part of a pool stands, what stands at a word, and what
//! an object takes: exact numbers, and places within the pool. Places are byte offsets from the
//! pool's start; a word has 8 bytes, a line 64 bytes, a chunk 64 lines.
//! It stands on std alone, allocates nothing, and reads no pool.
#![tactic(auto)]

mod class;
mod kind;
mod laws;
mod numbers;
mod run;
mod shape;

pub use class::{Class, class_of, descriptor_of, usable};
pub use kind::PlaceKind;
pub use laws::{one_kind_per_word, one_shape_per_length};
pub use numbers::{
    CHUNK_BYTES, CHUNK_WORDS, CHUNKS_PER_ZONE, CLASSES, DESCRIPTOR_UNIT, ENTRIES_AT, ENTRY_WORDS,
    FIRST_AT, GENERATION_AT, HUGE, KIND_AT, LANE_BYTES, LANE_LINES, LANE_WORDS, LINE_BYTES,
    LINE_WORDS, LINES_PER_CHUNK, LIST_AT, MAX_GENERATION, MAX_LANES, MAX_NAME, MAX_POOL_BYTES,
    MAX_SIZE, MAX_ZONES, NEXT_AT, OLD_WORDS, PAGE_BYTES, PAGE_LINES, PAGE_WORDS, PREV_AT,
    REDO_ENTRIES, ROOT_PLACE, ROOT_WORD, RUN, SEAL_AT, SIZE_AT, SLOT_WORDS, SLOTS_AT, UNDO_SLOTS,
    UNUSED_AT, VERSION, WORD_BYTES, ZONE_BYTES, ZONE_PAGES, ZONE_WORDS,
};
pub use run::{block_at, blocks_of};
pub use shape::{BadShape, Shape};

#[cfg(test)]
mod tests;
