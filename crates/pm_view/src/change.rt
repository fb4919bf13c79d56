/// So many changes of a lane may be undrained.
pub const MAX_CHANGES: usize = 512;

/// One undrained change of a word by a lane: of the bits under a mask.
#[derive(Clone, Copy, Debug, PartialEq, Eq)]
pub struct Change {
    /// The word's number; word w is at byte 8 w.
    pub word: u64,
    /// The bits that the change is of: all of a store, the set bits of an OR, the clear bits of an AND.
    pub mask: u64,
    /// These bits before the change; 0 elsewhere.
    pub old: u64,
    /// These bits after the change; 0 elsewhere.
    pub new: u64,
    /// Whether the line was flushed since.
    pub flushed: bool,
}
