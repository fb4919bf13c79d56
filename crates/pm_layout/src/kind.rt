//! What stands at a word of a pool.

/// What a word of a pool belongs to.
#[derive(Clone, Copy, Debug, PartialEq, Eq)]
pub enum PlaceKind {
    /// The root's offset.
    Root,
    /// The area of a lane.
    Lane(u64),
    /// The descriptor of a chunk: the zone, and the chunk in it.
    Descriptor(u64, u64),
    /// A chunk: the zone, and the chunk in it.
    Chunk(u64, u64),
    /// None of these: the rest of a page, or outside the pool.
    Other,
}
