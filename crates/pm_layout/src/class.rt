//! What an object takes.

ghost use Rattle.std.specs.Prelude.{◌≡◌, ℕ, ◌*◌, ◌<◌, ◌≤◌, All, Contains, find, nat_le};
ghost use Rattle.pm_layout.specs.Sizes.{lines_for, classes, class_of, descriptor_of, IfLines, IfChunks, usable};

use crate::numbers::{
    CHUNK_BYTES, CLASSES, DESCRIPTOR_UNIT, HUGE, LINE_BYTES, LINES_PER_CHUNK, MAX_SIZE, RUN,
};

/// What an object takes.
#[derive(Clone, Copy, Debug, PartialEq, Eq)]
pub enum Class {
    /// A block of so many lines, in a run.
    Lines(u64),
    /// So many whole chunks, one after the other in a zone.
    Chunks(u64),
}

/// The lines that an object of `size` bytes needs: one for its header, and those of its bytes.
fn lines_for(size: u64) -> u64
    ensures { result ≡ lines_for size }
{
    1 + size.div_ceil(LINE_BYTES)
}

/// What an object of `size` bytes, 0 to `MAX_SIZE`, takes: a block of the least class that holds
/// it, or else the fewest whole chunks.
pub fn class_of(size: u64) -> Class
    requires { size ≤ MAX_SIZE }
    ensures value { result ≡ class_of size }

    ensures in_table { IfLines result (λ lines. Contains classes lines) }
    ensures holds { IfLines result (λ lines. lines_for size ≤ lines) }
    ensures least { IfLines result (λ lines.
        All (λ other. lines_for size ≤ other → lines ≤ other) classes) }

    ensures beyond_classes { IfChunks result (λ _. 31 < lines_for size) }
    ensures chunks_hold { IfChunks result (λ chunks. lines_for size ≤ 64 * chunks) }
    ensures fewest_chunks { IfChunks result (λ chunks.
        (other : ℕ) → lines_for size ≤ 64 * other → chunks ≤ other) }
    ensures chunks_from { IfChunks result (λ chunks. 1 ≤ chunks) }
    ensures chunks_to { IfChunks result (λ chunks. chunks ≤ 64) }
{
    let lines = lines_for(size);
    match first_that_holds(&CLASSES, lines) {
        Some(class) => Class::Lines(class),
        None => Class::Chunks(lines.div_ceil(LINES_PER_CHUNK)),
    }
}

/// The first of these classes that has so many lines or more.
fn first_that_holds(classes: &[u64], lines: u64) -> Option<u64>
    ensures { result ≡ find (λ class. nat_le lines class) classes.now }
{
    classes.iter().copied().find(|class| lines <= *class)
}

/// The bytes that fit into what an object of `size` bytes, 0 to `MAX_SIZE`, takes: all but the
/// line of the header.
pub fn usable(size: u64) -> u64
    requires { size ≤ MAX_SIZE }
    ensures value { result ≡ usable size }
    ensures fits { size ≤ result }
    ensures at_most { result ≤ MAX_SIZE }
{
    match class_of(size) {
        Class::Lines(lines) => (lines - 1) * LINE_BYTES,
        Class::Chunks(chunks) => chunks * CHUNK_BYTES - LINE_BYTES,
    }
}

/// The descriptor of a chunk with such blocks: 1 + 256 b for a run of blocks of b lines, and 2 + 256 n for the first of
/// n chunks that are one block. A class has at most 31 lines, and a block at most 64 chunks.
pub fn descriptor_of(class: Class) -> u64
    requires lines { IfLines class (λ lines. lines ≤ 31) }
    requires chunks { IfChunks class (λ chunks. chunks ≤ 64) }
    ensures { result ≡ descriptor_of class }
{
    match class {
        Class::Lines(lines) => RUN + DESCRIPTOR_UNIT * lines,
        Class::Chunks(chunks) => HUGE + DESCRIPTOR_UNIT * chunks,
    }
}
