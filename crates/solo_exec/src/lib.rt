//! To go: this crate is proved for a single lane with no other beside it, and the crates for any number of lanes replace it.
//!
//! The run of a script on a pool, from the image that is read to the image that a power failure leaves.
//!
//! Promises whoever runs a script that the history tells of the script's calls, and that the image left means the pool which
//! those of them make that are not lost, for every stop and every choice of what survives; and that no call is idle, so that the script
//! bounds how many are made. It stands on `pm_recover` for the opening, on `solo_transaction` and `solo_tx` for transactions over one lane's memory, which
//! make and free objects too, on `solo_action` for the calls outside of any, and on `solo_crash` for what images mean;
//! docs/MODEL.md, "A run".
#![tactic(auto)]

mod acting;
mod actions;
mod bounds;
mod calls;
mod ending;
mod executing;
mod letters;
mod lines;
mod opening;
mod outcome;
mod running;

pub use bounds::a_line_makes_few_stores;
pub use executing::exec;
pub use outcome::{OpenFault, Outcome};
