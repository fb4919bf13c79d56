ghost use Rattle.std.specs.Prelude.{◌≡◌, ◌<◌, ◌==◌, ◌&&◌, ◌%◌, ◌/◌, nat_lt};
ghost use Rattle.pm_model.specs.Places.{can_begin, can_begin_at_line};
ghost use Rattle.pm_lock.specs.Objects.{line_of};

use pm_layout::{CHUNK_BYTES, LINE_BYTES, Shape, ZONE_BYTES};
use pm_objects::Oid;

/// Whether a block begins so many lines after a run's first block, where the run has so many blocks
/// of so many lines.
fn begins(before: u64, lines: u64, blocks: u64) -> bool
    requires { 0 < lines }
    ensures { result ≡ (before % lines == 0 && nat_lt (before / lines) blocks) }
{
    before % lines == 0 && before / lines < blocks
}

/// Whether a block can begin at a line of a chunk: whole chunks do at line 0, and blocks of each
/// class of runs after the bitmap's line.
fn can_begin_at_line(line: u64) -> bool
    ensures { result ≡ can_begin_at_line line }
{
    if line == 0 {
        return true;
    }
    let before = line - 1;
    begins(before, 2, 31)
        | begins(before, 3, 21)
        | begins(before, 4, 15)
        | begins(before, 5, 12)
        | begins(before, 7, 9)
        | begins(before, 9, 7)
        | begins(before, 15, 4)
        | begins(before, 31, 2)
}

/// Whether the block of an object can begin 64 bytes before the offset, in a pool of this shape.
fn can_begin(shape: Shape, off: u64) -> bool
    ensures { result ≡ can_begin shape.lanes shape.zones off }
{
    let first = shape.zone_at(0);
    if off < first + LINE_BYTES {
        return false;
    }
    let place = off - LINE_BYTES - first;
    let begins = can_begin_at_line(place % CHUNK_BYTES / LINE_BYTES);
    (place / ZONE_BYTES < shape.zones)
        & (place % ZONE_BYTES >= CHUNK_BYTES)
        & (place % LINE_BYTES == 0)
        & begins
}

/// The line whose lock is that of an object with this id, in the pool of this id and shape: the
/// header's, right before its first byte. Nothing says that the id has not the form of an
/// object's there: another pool's, or an offset at which no block can begin.
pub fn line_of(shape: Shape, pool: u64, id: Oid) -> Option<u64>
    ensures { result ≡ line_of shape pool id }
{
    if id.pool == pool && can_begin(shape, id.off) {
        Some(id.off / LINE_BYTES - 1)
    } else {
        None
    }
}
