//! Words of eight bytes, as a pool file has them, and the checksum over them.
//!
//! Promises every crate that reads or writes a pool: bytes become exactly the little endian words that
//! stand in them and words exactly their bytes, so that each way leads back; `patch` replaces exactly the bytes
//! that it is given; `sum64` is Fletcher's sum over the halves of the words; `mask` has exactly the bits that it names.
//! It stands on `byteorder`. The definitions are in specs/ and docs/FORMAT.md, "Words and sums".
#![tactic(auto)]

mod laws;
mod masks;
mod places;
mod sums;
mod words;

pub use laws::words_and_bytes_agree;
pub use masks::mask;
pub use places::{line_of, word_of};
pub use sums::sum64;
pub use words::{bytes_of, patch, words_of};

#[cfg(test)]
mod tests;
