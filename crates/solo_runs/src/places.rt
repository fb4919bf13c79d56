//! Where the chunks of a pool stand, counted in one row from 0 over all zones.

ghost use Rattle.std.specs.Prelude.{◌≡◌, ◌*◌, ◌<◌};
ghost use Rattle.pm_layout.specs.Layout.{IsChunkPlace};
ghost use Rattle.solo_runs.specs.Runs.{descriptor_at, page_of};

use pm_layout::{CHUNKS_PER_ZONE, Shape, WORD_BYTES};

/// The place in bytes at which a chunk of the pool begins.
pub fn run_place(shape: Shape, chunk: u64) -> u64
    requires { chunk < 64 * shape.zones }
    ensures value { result ≡ 4096 * page_of shape.lanes chunk }
    ensures is_chunk { IsChunkPlace result }
{
    shape.chunk_at(chunk / CHUNKS_PER_ZONE, chunk % CHUNKS_PER_ZONE)
}

/// The word of the chunk's descriptor.
pub fn descriptor_at(shape: Shape, chunk: u64) -> u64
    requires { chunk < 64 * shape.zones }
    ensures { result ≡ descriptor_at shape.lanes chunk }
{
    shape.zone_at(chunk / CHUNKS_PER_ZONE) / WORD_BYTES + chunk % CHUNKS_PER_ZONE
}
