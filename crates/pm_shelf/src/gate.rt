//! What each script line of a lane passes.

use std::sync::atomic::{AtomicBool, Ordering};
use std::thread;

/// The most turns for which a `MeetingGate` holds a lane.
pub const MOST_TURNS: u64 = 1_000_000_000;

/// A gate is passed before each script line of a lane. It tells nothing and answers nothing.
pub trait Gate {
    /// Passes a lane on to a script line, and may hold it before that line for a while.
    fn pass(&self, lane: u64, line: u64);
}

/// A gate that holds no lane.
#[derive(Debug, Drop)]
pub struct IdleGate;

impl Gate for IdleGate {
    /// Does nothing.
    fn pass(&self, _lane: u64, _line: u64) {}
}

/// A script line of a lane.
#[derive(Clone, Copy, Debug, PartialEq, Eq)]
pub struct Place {
    pub lane: u64,
    pub line: u64,
}

/// A lane is held before a line until another lane has come to a line of its own.
#[derive(Debug, Drop)]
struct Hold {
    held: Place,
    until: Place,
    has_come: AtomicBool,
}

impl Hold {
    /// Nobody came yet.
    fn new(held: Place, until: Place) -> Self {
        Hold {
            held,
            until,
            has_come: AtomicBool::new(false),
        }
    }

    /// Notes who came, before anybody is held.
    fn note(&self, place: Place) {
        if place == self.until {
            self.has_come.store(true, Ordering::SeqCst);
        }
    }

    /// Holds who came to the held line, for at most so many turns. Tells whether they were enough.
    fn hold(&self, place: Place, turns: u64) -> bool {
        if place != self.held {
            return true;
        }
        for _ in 0..turns {
            if self.has_come.load(Ordering::SeqCst) {
                return true;
            }
            thread::yield_now();
        }
        self.has_come.load(Ordering::SeqCst)
    }
}

/// A gate for tests with two threads. It holds one lane before a line until another lane has come
/// to a line, and that lane likewise, each for a number of turns at most. A lane has come to a line
/// where it is about to pass to it, whether it is held there or not.
#[derive(Debug, Drop)]
pub struct MeetingGate {
    one: Hold,
    other: Hold,
    turns: u64,
    ran_out: AtomicBool,
}

impl MeetingGate {
    /// A gate that holds who comes to the first place of a pair until somebody has come to its
    /// second place, for at most `turns` turns, and at most `MOST_TURNS`.
    pub fn new(one: (Place, Place), other: (Place, Place), turns: u64) -> Self {
        MeetingGate {
            one: Hold::new(one.0, one.1),
            other: Hold::new(other.0, other.1),
            turns: turns.min(MOST_TURNS),
            ran_out: AtomicBool::new(false),
        }
    }

    /// Whether a lane was let go because its turns ran out.
    pub fn ran_out(&self) -> bool {
        self.ran_out.load(Ordering::SeqCst)
    }
}

impl Gate for MeetingGate {
    /// Holds the lane where the gate is to hold it before this line.
    fn pass(&self, lane: u64, line: u64) {
        let place = Place { lane, line };
        self.one.note(place);
        self.other.note(place);
        if !(self.one.hold(place, self.turns) && self.other.hold(place, self.turns)) {
            self.ran_out.store(true, Ordering::SeqCst);
        }
    }
}
