//! Locks: of lines, taken in rising place, by waiting for each or by one try, raised, and given back;
//! and of objects, by what a call wants, with a look under each for its object.
//!
//! Promises the calls of a lane, over any lawful memory and whatever other lanes do, exactly which
//! steps a part makes, and that the lane's list and its view have the locks then. A wait ends where
//! the lock is got, or where it is not free and the stop word is set; that it ends is not promised.
//! A look tells by the words whether an object stands at a line: the lane has found its block, or
//! has missed each block that would begin there; what it had and knew before stays. The one other
//! outcome is a chunk whose descriptor tells of a run of blocks without lines, which no pool
//! without a fault has.
//! It stands on `pm_world` for lawful steps; docs/FORMAT.md, "Sequences".
#![tactic(auto)]

mod acquiring;
mod finding;
mod giving;
mod laws;
mod places;
mod planning;
mod raising;
mod root_lock;
mod size;
mod taking;
mod wants;

pub use acquiring::{lock_objects, try_objects};
pub use finding::{find_all, find_object};
pub use giving::give_back;
pub use laws::{
    held_locks_stand, locks_are_held_once_taken, locks_keep_blocks, locks_may_be_given_back,
    looks_tell, misses_are_new, objects_have_headers, plans_are_the_models, plans_rise,
    raised_locks_are_held, sights_fit, wanted_locks_may_be_taken,
};
pub use places::line_of;
pub use planning::plan_lock;
pub use raising::raise_wanted;
pub use root_lock::lock_root;
pub use size::size_of;
pub use taking::{lock, lock_all, raise, try_all, try_lock};
pub use wants::plan_wants;

#[cfg(test)]
mod tests;
