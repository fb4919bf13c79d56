//! What a call lists of an object.

/// An object that the call made.
#[derive(Clone, Copy, Debug, PartialEq, Eq, Default, Drop)]
pub struct Made {
    /// Where it begins in the pool, in bytes.
    pub off: u64,
    /// Its type.
    pub kind: u64,
    /// Its size in bytes, 1 to 262,080.
    pub size: u64,
}

/// An object that the call found and freed.
#[derive(Clone, Copy, Debug, PartialEq, Eq, Default, Drop)]
pub struct Freed {
    /// Where it begins in the pool, in bytes.
    pub off: u64,
    /// The lines of its block, of 64 bytes each.
    pub lines: u64,
}
