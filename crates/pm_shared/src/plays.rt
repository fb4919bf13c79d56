ghost use Rattle.pm_shared.specs.Plays.{loads, stores, ors, ands, flushes, drains, takes_write, takes_read, raises, gives_or_looks, gives, tries_zone, gives_zone, sees_run, sees_zone, occupies_run, looks_at_zone, occupies_zone, vacates_run, vacates_zone, draws, sees_number, sees_stop, sets_stop, adds};

use crate::rule::Knows;
use atomic_table::Play;
use pm_world::Adds;
use std::marker::PhantomData;

/// A pool word is loaded.
pub struct Loads;

impl Play<u8, Knows> for Loads {
    ghost then = { loads };
}

/// A pool word is stored.
pub struct Stores;

impl Play<u8, Knows> for Stores {
    ghost then = { stores };
}

/// Bits of a pool word are set.
pub struct Ors;

impl Play<u8, Knows> for Ors {
    ghost then = { ors };
}

/// Bits of a pool word are cleared.
pub struct Ands;

impl Play<u8, Knows> for Ands {
    ghost then = { ands };
}

/// A line is flushed.
pub struct Flushes;

impl Play<u8, Knows> for Flushes {
    ghost then = { flushes };
}

/// The lane's flushed lines are drained.
pub struct Drains;

impl Play<u8, Knows> for Drains {
    ghost then = { drains };
}

/// A line's lock is tried for writing.
pub struct TakesWrite;

impl Play<u8, Knows> for TakesWrite {
    ghost then = { takes_write };
}

/// A line's lock is tried for reading.
pub struct TakesRead;

impl Play<u8, Knows> for TakesRead {
    ghost then = { takes_read };
}

/// A line's lock is tried for writing by a reader.
pub struct Raises;

impl Play<u8, Knows> for Raises {
    ghost then = { raises };
}

/// A line's lock is given back where its word has the writer's bit alone; else the lane looks how it
/// holds the line.
pub struct GivesOrLooks;

impl Play<u8, Knows> for GivesOrLooks {
    ghost then = { gives_or_looks };
}

/// A line's lock is given back.
pub struct Gives;

impl Play<u8, Knows> for Gives {
    ghost then = { gives };
}

/// A zone's lock is tried.
pub struct TriesZone;

impl Play<u8, Knows> for TriesZone {
    ghost then = { tries_zone };
}

/// A zone's lock is given back.
pub struct GivesZone;

impl Play<u8, Knows> for GivesZone {
    ghost then = { gives_zone };
}

/// A run's occupancy word is loaded.
pub struct SeesRun;

impl Play<u8, Knows> for SeesRun {
    ghost then = { sees_run };
}

/// A zone's occupancy word is loaded.
pub struct SeesZone;

impl Play<u8, Knows> for SeesZone {
    ghost then = { sees_zone };
}

/// A bit of a run is taken where it is clear.
pub struct OccupiesRun;

impl Play<u8, Knows> for OccupiesRun {
    ghost then = { occupies_run };
}

/// Bits of a zone are looked at, and refused where one is set.
pub struct LooksAtZone;

impl Play<u8, Knows> for LooksAtZone {
    ghost then = { looks_at_zone };
}

/// Clear bits of a zone are taken.
pub struct OccupiesZone;

impl Play<u8, Knows> for OccupiesZone {
    ghost then = { occupies_zone };
}

/// Bits of a run are given back.
pub struct VacatesRun;

impl Play<u8, Knows> for VacatesRun {
    ghost then = { vacates_run };
}

/// Bits of a zone are given back.
pub struct VacatesZone;

impl Play<u8, Knows> for VacatesZone {
    ghost then = { vacates_zone };
}

/// A commit number is drawn.
pub struct Draws;

impl Play<u8, Knows> for Draws {
    ghost then = { draws };
}

/// The counter of commit numbers is loaded.
pub struct SeesNumber;

impl Play<u8, Knows> for SeesNumber {
    ghost then = { sees_number };
}

/// The stop word is loaded.
pub struct SeesStop;

impl Play<u8, Knows> for SeesStop {
    ghost then = { sees_stop };
}

/// The stop word is set.
pub struct SetsStop;

impl Play<u8, Knows> for SetsStop {
    ghost then = { sets_stop };
}

/// An operation is told, which A names.
pub struct Tells<A: Adds> {
    names: PhantomData<A>,
}

impl<A: Adds> Play<u8, Knows> for Tells<A> {
    ghost then = { adds A.operation A.reply };
}
