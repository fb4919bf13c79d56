//! The blocks of a run: a chunk whose first line is a bitmap, and then blocks of one class.

ghost use Rattle.std.specs.Prelude.{◌≡◌, ◌+◌, ◌*◌, ◌<◌, ◌≤◌, ◌↔◌, Contains};
ghost use Rattle.pm_layout.specs.Layout.{IsChunkPlace};
ghost use Rattle.pm_layout.specs.Sizes.{classes, blocks_of, block_place};

use crate::numbers::{CHUNK_BYTES, LINE_BYTES, LINES_PER_CHUNK};

/// The number of blocks in a run of the class of `lines` lines, 2 to 31; 0 where there is no such
/// class.
pub fn blocks_of(lines: u64) -> u64
    ensures value { result ≡ blocks_of lines }
    ensures of_classes { 0 < result ↔ Contains classes lines }
    ensures within_chunk { 1 + lines * result ≤ LINES_PER_CHUNK }
{
    match lines {
        2 => 31,
        3 => 21,
        4 => 15,
        5 => 12,
        7 => 9,
        9 => 7,
        15 => 4,
        31 => 2,
        _ => 0,
    }
}

/// The place in bytes at which a block begins: the one with this index, counted from 0, in the run
/// of the class of `lines` lines whose chunk begins at the place `chunk_place`. All of the block's
/// lines are in that chunk, behind the bitmap.
pub fn block_at(chunk_place: u64, lines: u64, index: u64) -> u64
    requires chunk { IsChunkPlace chunk_place }
    requires class { Contains classes lines }
    requires index { index < blocks_of lines }
    ensures value { result ≡ block_place chunk_place lines index }
    ensures behind_bitmap { chunk_place + LINE_BYTES ≤ result }
    ensures within_chunk { result + LINE_BYTES * lines ≤ chunk_place + CHUNK_BYTES }
{
    chunk_place + LINE_BYTES * (1 + lines * index)
}
