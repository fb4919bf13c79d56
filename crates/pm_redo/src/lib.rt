//! Redo logging: the changes of a call are entered in a log, take effect all at once as the log is
//! sealed, and are applied then.
//!
//! Promises the calls of a lane, over any lawful memory and whatever other lanes do, that each part
//! makes exactly the memory calls of its plan, or the first of them up to the lane's stop; and laws
//! of plans: from which views of a lane each may be carried out, and what it leaves. No part takes
//! memory. It stands on `pm_plan` for plans, on `pm_world` for lawful steps; docs/FORMAT.md,
//! "Sequences".
#![tactic(auto)]

mod effects;
mod entries;
mod laws;
mod pairs;
mod seals;

pub use effects::{apply_all, perform};
pub use entries::put;
pub use laws::{
    entries_may_be_applied, logs_may_be_performed, logs_may_be_sealed, logs_may_be_written,
    numbered_logs_may_be_sealed, seals_may_be_cleared,
};
pub use pairs::log;
pub use seals::{retire, seal};

#[cfg(test)]
mod tests;
