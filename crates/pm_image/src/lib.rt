//! What an image of a pool means: which of its words count, after a power failure at any moment.
//!
//! Promises whoever opens or shows a pool the recovered word at each place, by its definition: what sealed
//! lanes' redo entries make of the image's word, else what a valid undo record restores, else the word as
//! it stands. It reads and changes nothing. It stands on `pm_raw` for the words, `pm_record` for the
//! logs' spelling and `pm_layout` for the shape; the definitions are in specs/Logs.antt.
#![tactic(auto)]

mod block;
mod chunks;
mod clashes;
mod fault;
mod lanes;
mod laws;
mod log_faults;
mod meaning;
mod objects;
mod recovering;
mod redo_faults;
mod restoring;
mod targets;

pub use block::Block;
pub use fault::{ImageFault, MeansFault, text_of_fault};
pub use lanes::{generation, generation_word, is_sealed, record_in_slot, valid_record};
pub use laws::{
    agreement_goes_back, contents_are_local, heaps_are_local, meanings_are_local,
    meanings_are_pools, meanings_read_the_heap, one_meaning_per_image, recovered_words_are_local,
    recovered_words_in_place,
};
pub use meaning::{blocks, means};
pub use recovering::recovered;
pub use restoring::sealed_entries;

#[cfg(test)]
mod tests;
