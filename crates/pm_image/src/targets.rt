//! Which words logs may change.

ghost use Rattle.std.specs.Prelude.{◌≡◌, ◌+◌, ◌^◌, ◌<◌, ◌≤◌};
ghost use Rattle.std.specs.List.{range_with_len, list_all};
ghost use Rattle.pm_image.specs.LogFaults.{in_chunk, in_descriptors, is_target};

use pm_layout::{CHUNKS_PER_ZONE, PAGE_WORDS, ROOT_WORD, Shape, WORD_BYTES, ZONE_WORDS};

/// Whether a redo entry may change the word: the root's word, a descriptor, or a word in a chunk.
pub fn is_target(shape: Shape, word: u64) -> bool
    ensures { result ≡ is_target shape.lanes shape.zones word }
{
    word == ROOT_WORD || is_in_descriptors(shape, word) || is_in_chunk(shape, word)
}

/// Whether the word is a descriptor.
fn is_in_descriptors(shape: Shape, word: u64) -> bool
    ensures { result ≡ in_descriptors shape.lanes shape.zones word }
{
    let from = shape.zone_at(0) / WORD_BYTES;
    from <= word
        && (word - from) / ZONE_WORDS < shape.zones
        && (word - from) % ZONE_WORDS < CHUNKS_PER_ZONE
}

/// Whether so many words from this one on are in chunks.
pub fn are_in_chunks(shape: Shape, first: u64, count: u64) -> bool
    requires first { first < 2 ^ 61 }
    requires count { count ≤ 4 }
    ensures { result ≡ list_all (λ k. in_chunk shape.lanes shape.zones (first + k)) (range_with_len 0 count) }
{
    for k in 0..count {
        if !is_in_chunk(shape, first + k) {
            return false;
        }
    }
    true
}

/// Whether the word is in a chunk.
fn is_in_chunk(shape: Shape, word: u64) -> bool
    ensures { result ≡ in_chunk shape.lanes shape.zones word }
{
    let from = shape.zone_at(0) / WORD_BYTES;
    from <= word
        && (word - from) / ZONE_WORDS < shape.zones
        && PAGE_WORDS <= (word - from) % ZONE_WORDS
}
