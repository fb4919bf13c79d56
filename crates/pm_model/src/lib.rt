//! The plain model of a pool in use: what one call of a lane may reply and what it leaves, one
//! whole call after another, for every call of the library.
//!
//! No memory, lane at work or lock word stands here, and almost no code. Whoever proves an engine
//! or a world has from it one definition of a call, the order in which refusals are looked for,
//! the pool after a history, and which parts of a pool a call reads and writes, with the laws
//! that follow.
//!
//! Ten definitions carry it (folder `specs`):
//!
//! 1. `PlainPool`: a pool's id, shape, root and a map from offsets to items. An item is an object
//!     with the list that it is a member of.
//! 2. `Transaction`: a call inside of a transaction as data: the pool as it began, the copy of
//!     its objects, level, stage, locks, records, pending actions, and what it made and freed.
//! 3. `Seen`: what a lane may see whatever the pool is: a lock that is another lane's, an offset
//!     at which it found no object, no free block.
//! 4. `tests` and `tests_outside`: for each operation the list of its refusals in the order in
//!     which they are looked for; `first_of` gives the one that it replies.
//! 5. `IsReply` and `IsReplyOutside`: what an operation replies that is done. `IsFree` says where
//!     a new object's block may be.
//! 6. `after` and `after_outside`: what an operation leaves, by `Edit`s of single items.
//! 7. `CallStep`: one call, a whole transaction or one call outside of one, from a state to a
//!     state.
//! 8. `Parts`: the objects that a call locks and finds, the root word, and the blocks that it
//!     makes, reserves or frees.
//! 9. `content`, `writes` and `touches`: a state read name by name, and the names that are a
//!     call's parts. Two calls are `Apart` where neither writes what the other touches.
//! 10. `Replays` and `ReplaysEntries`: the state after calls, and the pool after a history's
//!     entries.
//!
//! The main laws: `calls_have_parts` (each call reads and changes its parts alone),
//! `apart_calls_change_places`, `apart_calls_may_be_left_out` and `calls_keep_pools_sound`. Not
//! said here: that a lock is got, and why a lane saw what it saw; that is a world's.
//!
//! It stands on `pm_objects` for pools and calls, and on `pm_layout` for places; docs/MODEL.md,
//! "The plain model".
#![tactic(auto)]

mod examples;
mod laws;
mod stage;

pub use examples::{
    a_call_by_example, calls_outside_by_example, operations_by_example, refusals_by_example,
};
pub use laws::{
    aborted_calls_change_nothing, apart_calls_change_places, apart_calls_come_last,
    apart_calls_may_be_left_out, blocks_begin_at_chunks_and_in_runs, calls_have_parts,
    calls_keep_pools_sound, late_calls_stand_earlier, pools_are_known_by_their_items,
    pools_are_sound, replies_fix_the_next_state, states_are_known_by_names,
    transactions_grow_at_their_end,
};
pub use stage::Stage;

#[cfg(test)]
mod tests;
