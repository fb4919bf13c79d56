//! To go: this crate is proved for a single lane with no other beside it, and the crates for any number of lanes replace it.
//!
//! What a lane has pending: pmemobj_reserve(3), pmemobj_defer_free(3), pmemobj_set_value(3) and their kin.
//!
//! Promises whoever keeps a lane's pending actions that the lists take one more, refuse one and are emptied exactly as the plain model does, kind by kind, and
//! that the entries which are listed for a redo log are those of the set-values, in their order. What these entries make of a pool is a law of
//! `solo_crash`, `entries_perform_actions`. It stands on `solo_model` for what is pending, on `solo_crash` for the refusals, and on `solo_world` for a lane's
//! entries; docs/MODEL.md, "Actions".
#![tactic(auto)]

mod actions;
mod pending;

pub use actions::{MAX_ACTIONS, SetAction, list_entries};
pub use pending::{PendingActions, Reserved};

#[cfg(test)]
mod tests;
