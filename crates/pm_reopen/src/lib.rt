//! Recovery as memory calls: what the opening of a pool does with the logs that a power failure
//! left, each store, flush and drain in its place, so that a power failure may cut it off anywhere.
//!
//! Promises whoever opens a pool that exactly the calls of a plan are made, in their order, up to a
//! stop number; that the whole of them leaves the recovered image; and that recovery stopped after
//! any number of them leaves an image of the same meaning, which can be recovered again, whichever
//! of the undrained changes survive. It stands on `pm_memory` for the calls and for what survives,
//! on `pm_image` for logs, meaning and faults, and on `pm_recover` for what recovery makes of an
//! image. The calls are the list `plan` in specs/Plan.antt; docs/FORMAT.md, "Recovery".
#![tactic(auto)]

mod clearing;
mod end;
mod ending;
mod generation;
mod lane;
mod laws;
mod recovering;
mod writing;

pub use end::RecoverEnd;
pub use laws::{
    images_without_strays_are_recoverable, stopped_recovery_keeps_the_meaning,
    whole_recovery_leaves_the_recovered_image,
};
pub use pm_recover::RecoverFault;
pub use recovering::{recover, recover_stop};

#[cfg(test)]
mod tests;
