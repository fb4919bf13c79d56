//! The pool's root: its id, for a lane between two calls, whatever other lanes do; pmemobj_root(3).
//!
//! Promises what was found under the lock of the root word, which is given back at once, and that the
//! lane may open a call after it, with the history that it had. It stands on `pm_lock` for the lock,
//! and on `pm_call` for what a lane between two calls stands with. The definitions are in
//! specs/Root.antt.
#![tactic(auto)]

mod laws;
mod root;

pub use laws::lanes_stand;
pub use root::root_id;

#[cfg(test)]
mod tests;
