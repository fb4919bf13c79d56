//! To go: this crate is proved for a single lane with no other beside it, and the crates for any number of lanes replace it.
//!
//! Transactions: pmemobj_tx_begin(3) and its kin, over any lawful memory of a lane.
//!
//! Promises the calls of an outermost transaction (`begin`, `add_range`, `write`, `read`, `commit`, `abort`, `end`). Each makes exactly the
//! stated sequence of memory calls, or the first of them up to the lane's stop, and what it makes of the call is the plain model's: a refusal
//! is the model's reason, takes back what was done and gives the transaction up. The parts stand beside them: checks (`check_range`,
//! `check_words`, `check_write`), and the work (`do_add`, `do_write`, `do_read`, `cancel_call`, and `commit_call`, which also performs entries
//! that allocate and free blocks). They stand on `solo_lock` for a begin's locks, on `solo_undo` for the records without which no word is stored,
//! and on `solo_crash` for what a call comes to.
#![tactic(auto)]

mod aborting;
mod adding;
mod beginning;
mod bounds;
mod canceling;
mod checking;
mod committing;
mod ending;
mod ending_level;
mod generations;
mod giving_up;
mod laws;
mod learning;
mod publishing;
mod reading;
mod refusing;
mod stages;
mod starting;
mod taking_back;
mod words;
mod writing;

pub use aborting::abort;
pub use adding::{add_range, do_add};
pub use beginning::{begin, open_call, refuse_call};
pub use bounds::a_call_makes_few_stores;
pub use canceling::cancel_call;
pub use checking::{check_range, check_words, check_write};
pub use committing::{commit, commit_call, commit_inner};
pub use ending::{draw_number, end_call};
pub use ending_level::end;
pub use generations::{
    a_call_given_up_ends_one_generation, a_commit_ends_one_generation,
    a_first_generation_is_the_openings, a_generation_lasts_while_a_call_works,
    a_generation_rises_with_its_stores, steps_that_may_be_made_lead_on,
};
pub use giving_up::give_up;
pub use laws::{a_call_may_be_committed, a_call_may_be_taken_back};
pub use learning::learn;
pub use publishing::{a_log_may_be_published, publish_log};
pub use reading::{do_read, read};
pub use refusing::{refuse, refuse_write};
pub use stages::check_work;
pub use starting::start;
pub use taking_back::take_back;
pub use words::{read_words, write_words};
pub use writing::{do_write, write};
