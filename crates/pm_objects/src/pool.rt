use crate::sequence::Sequence;

/// What stands at an offset of a pool.
#[derive(Drop)]
pub struct Object {
    /// The type number that the user gave it.
    pub kind: u64,
    /// Its data, 1 to 262,080 bytes.
    pub bytes: Sequence<u8>,
    /// The offsets of the members of its list, from the first on.
    pub members: Sequence<u64>,
}

/// What a pool means: docs/MODEL.md, "A pool".
#[derive(Drop)]
pub struct PoolView {
    /// The pool's id, 1 or more.
    pub id: u64,
    /// The layout name.
    pub name: Sequence<u8>,
    /// Lanes, 1 to 32.
    pub lanes: u64,
    /// Zones, 1 to 32.
    pub zones: u64,
    /// The objects with their offsets, in rising offsets: a finite map.
    pub objects: Sequence<(u64, Object)>,
    /// The root's offset, where there is a root.
    pub root: Option<u64>,
}
