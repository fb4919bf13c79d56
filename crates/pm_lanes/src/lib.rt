//! The opening of a pool for lanes, and what it is left as: from an image to what lanes begin on,
//! and from the words with which their table closed to an image.
//!
//! Promises whoever runs lanes that `open` gives the recovered words of the image, the occupancy
//! words that they take, and the shape and id of the header, where the image means a pool of the
//! layout name that has as many lanes as are asked for; else it tells the first of these that is
//! not so, and gives the image back as it was; `open_in_place` needs no second room for the words,
//! and gives nothing back. `open_solo` does the same for lane 0 with no other
//! lane beside it, over a memory of its own, on which engines are tested. `crash` gives the image
//! that a power failure leaves once all lanes came back, and `closed_pools_mean_their_histories`
//! says what it means: the calls that it does not lose, one whole call after another, from the
//! pool that was opened.
//!
//! It stands on `pm_image` for what an image means, on `pm_recover` for recovery, on `pm_shared`
//! for the occupancy words and for what lanes begin on and close with, on `pm_world` for the world
//! of lane 0 and for runs, on `pm_memory` for what is kept of undrained changes, and on `pm_crash`
//! for what images mean. The definitions are in specs/Opens.antt and specs/Closed.antt.
#![tactic(auto)]

mod fault;
mod laws;
mod opening;
mod solo;

pub use fault::OpenFault;
pub use laws::{
    busy_calls_have_causes, calls_are_listed, closed_pools_mean_their_histories, headers_are_kept,
    missed_calls_have_causes, numbers_are_shown, open_calls_are_judged, stops_are_reached,
    turns_are_of_worlds,
};
pub use opening::{open, open_in_place};
pub use solo::open_solo;

#[cfg(test)]
mod tests;
