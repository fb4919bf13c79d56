//! Which steps a lane of a pool may make, the world that lanes share, and its laws: each lawful
//! step of a lane keeps the world, whatever the other lanes hold, and every crash image of a
//! world has the settled words with the calls that it does not lose.
//!
//! It speaks of places and bits, and of the calls by what they make final; what they mean is
//! said above. Docs/MODEL.md, "The world of any number of lanes".
//!
//! It is proved that what recovery leaves of an image that means a pool opens a world, and so do
//! the words of a pool without objects; of all twenty kinds of step that they keep the world; of
//! each world that every crash image keeps the decided calls, means what the kept calls do and has
//! no fault in its logs; that two lanes own no common bit; that two blocks, allocated or a lane's
//! own, share no line; that a run stays a run of its class; that each object fits its block; that
//! what each call held, knew and found as it took its number agrees with the kept words before it;
//! that numbers do not run out, a stop word that is set shows a lane at its stop number and
//! occupancy bits are exact; that each `Busy`, `NoObject` and `NoSpace` that a lane's view keeps
//! has its cause in the history; and which steps, wrong ones, are not lawful.
//!
//! `LawfulMem` is what an engine steps on: any memory that takes each step that the lane's view
//! allows, and that shows it a word of its world. `Lane` has such a memory and the lane's lists.
//! `SoloLane` is lane 0 over its own memory, where no other lane runs: it stands in a world, each
//! lawful call leads to the world after its step, and what survives of the memory survives of the
//! world.
#![tactic(auto)]

mod adds;
mod block_laws;
mod crash_laws;
mod history;
mod in_world;
mod lane;
mod lawful_mem;
mod laws;
mod lent;
mod opening;
mod owned_bits;
mod report_laws;
mod sizes;
mod solo;
mod solo_laws;
mod wrong_steps;

pub use adds::Adds;
pub use block_laws::{a_run_stays_a_run, blocks_share_no_line};
pub use crash_laws::crash_keeps_decided_calls;
pub use history::history_stands;
pub use in_world::lanes_see_their_world;
pub use lane::{HeldLock, KeptRecord, Lane, PendingAction, UndoLog};
pub use lawful_mem::LawfulMem;
pub use laws::{lawful_steps_keep_the_world, no_bit_is_owned_twice, runs_keep_worlds};
pub use lent::{LentOperation, LentValue};
pub use opening::{
    bare_words, bare_words_open_a_world, recovered_words_open_a_world, recovery_opens_a_world,
};
pub use owned_bits::OwnedBits;
pub use report_laws::{answers_have_causes, steps_show_causes, worlds_bear_reports};
pub use sizes::objects_fit_their_blocks;
pub use solo::SoloLane;
pub use solo_laws::{
    memory_survivors_survive_in_worlds, solo_calls_keep_worlds, solo_memory_stands_in_its_world,
};
pub use wrong_steps::wrong_steps_are_not_lawful;

#[cfg(test)]
mod tests;
