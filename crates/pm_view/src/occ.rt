/// An occupancy word: volatile bits that say which blocks of a place are taken.
#[derive(Clone, Copy, Debug, PartialEq, Eq)]
pub enum Occ {
    /// The blocks of a run, by the place of its chunk in bytes.
    Run(u64),
    /// The chunks of a zone, by its number.
    Zone(u64),
}
