//! Recovery: what the opening of a pool does with the logs that a power failure left.
//!
//! Promises whoever opens a pool that its words become the recovered words, that no lane is sealed any more, that each lane has
//! the generation that it goes on with and no record that a later one might be taken for, and that the image means what it meant. An image with a fault stays as
//! it is. It stands
//! on `pm_image` for meaning and faults, `pm_record` for records and entries and `pm_raw` for the words; the definitions are in
//! specs/Recovery.antt.
#![tactic(auto)]

mod applying;
mod clearing;
mod fault;
mod laws;
mod recovering;
mod restoring;
mod settling;

pub use fault::RecoverFault;
pub use laws::{
    recovery_again_raises_generations_alone, recovery_keeps_the_meaning,
    recovery_leaves_clean_logs, recovery_leaves_no_record, recovery_without_torn_slots_is_final,
};
pub use recovering::recover;

#[cfg(test)]
mod tests;
