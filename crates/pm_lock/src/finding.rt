ghost use Rattle.std.specs.Prelude.{◌≡◌, ◌<◌, ◌/◌, ◌%◌, true};
ghost use Rattle.std.specs.List.{AllByRecursion};
ghost use Rattle.pm_layout.specs.Chunks.{is_chunk_page, word_of_chunk, word_of_descriptor};
ghost use Rattle.pm_view.specs.View.{View};
ghost use Rattle.pm_lock.specs.Acquiring.{CanLookAll, FoundAll};
ghost use Rattle.pm_lock.specs.Objects.{CanLook, Looked, chunk_of_line, is_chunk_line, shows_small};

use pm_layout::{
    CHUNK_WORDS, DESCRIPTOR_UNIT, HUGE, PAGE_BYTES, PAGE_WORDS, RUN, Shape, ZONE_PAGES,
};
use pm_world::{HeldLock, LawfulMem};

/// Lines of a page.
const PAGE_LINES: u64 = 64;

/// The word of the descriptor of the chunk that a line is in.
fn descriptor_word(shape: Shape, line: u64) -> u64
    requires { is_chunk_line shape line ≡ true }
    ensures { result ≡ word_of_descriptor shape (chunk_of_line shape line) }
{
    let first = shape.zone_at(0) / PAGE_BYTES;
    let page = line / PAGE_LINES;
    let zone = (page - first) / ZONE_PAGES;
    let chunk = (page - first) % ZONE_PAGES - 1;
    PAGE_WORDS * (first + ZONE_PAGES * zone) + chunk
}

/// Whether an allocated block of a run with blocks of so many lines begins at a line of its chunk.
fn shows_small(lines: u64, bitmap: u64, at: u64) -> bool
    requires { at < 64 }
    ensures { result ≡ shows_small lines bitmap at }
{
    if lines == 0 || at == 0 {
        return false;
    }
    let before = at - 1;
    (before % lines == 0) & (bitmap >> (before / lines) & 1 == 1)
}

/// Looks under the lock of a line, which the lane holds, whether an object stands there: at the
/// descriptor of the line's chunk, and at the bitmap where that is a run's.
pub fn find_object<M: LawfulMem>(mem: &mut M, shape: Shape, line: u64) -> bool
    requires { (v : View) × M.at mem.old v × CanLook v shape line }
    ensures { Looked M.at shape line mem.old mem.new result }
{
    let at = line % PAGE_LINES;
    let descriptor = mem.see(descriptor_word(shape, line));
    if descriptor % DESCRIPTOR_UNIT != RUN {
        return (descriptor % DESCRIPTOR_UNIT == HUGE) & (at == 0);
    }
    let lines = descriptor / DESCRIPTOR_UNIT;
    if lines == 0 {
        return false;
    }
    let bitmap = mem.see(CHUNK_WORDS * (line / PAGE_LINES));
    shows_small(lines, bitmap, at)
}

/// Looks under each of these locks, which the lane holds, whether an object stands there, until one
/// has none.
pub fn find_all<M: LawfulMem>(mem: &mut M, shape: Shape, locks: &[HeldLock]) -> bool
    requires { (v : View) × M.at mem.old v × CanLookAll v shape locks.now }
    ensures { FoundAll M.at shape locks.now mem.old mem.new result }
{
    for held in locks {
        if !find_object(mem, shape, held.line) {
            return false;
        }
    }
    true
}
