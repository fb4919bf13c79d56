ghost use Rattle.std.specs.Prelude.{◌≡◌, ◌<◌};

use crate::{BLOCK, Failure, ROUND};
use atomic_table::{Play, Seat, Table, TableRule};
use std::alloc::Global;
use std::time::{Duration, Instant};

/// The rule of a table whose words may be anything, and the play of steps that tell nothing.
struct Anything;

impl TableRule<u8, (), ()> for Anything {
    ghost holds = { λ _ _. Unit {0} };

    ghost first = { λ _. tt };
}

impl Play<u8, ()> for Anything {
    ghost then = { λ _ _ _ _. Unit {0} };
}

/// A table of words without a rule.
type Words = Table<u8, (), (), Anything, Global>;

/// Stores the table's word in each step.
pub fn stores(alloc: Global, rounds: u64) -> Result<(), Failure> {
    let (table, mut seat) = Words::of_words(alloc, &[0], &())?;
    for _ in 0..rounds {
        store_round(&table, &mut seat);
    }
    Ok(())
}

fn store_round(table: &Words, seat: &mut Seat<u8, ()>)
    requires table { seat.old.table_id ≡ table.now.shared.table_id }
    requires word { 0 < table.now.shared.table_id.words }
    ensures { seat.new.table_id ≡ seat.old.table_id }
{
    for value in 0..ROUND {
        table.shared.store::<Anything>(seat, 0, value);
    }
}

/// Sets bits of the table's word in each step, and tells how long that took with the readings of
/// the clock.
pub fn ors(rt: &HostRuntime, rounds: u64) -> Result<Duration, Failure> {
    let (table, mut seat) = Words::of_words(rt.alloc(), &[0], &())?;
    let mut took = Duration::ZERO;
    for _ in 0..rounds {
        let more = or_round(rt, &table, &mut seat)?;
        took = took.checked_add(more).ok_or(Failure)?;
    }
    Ok(took)
}

fn or_round(rt: &HostRuntime, table: &Words, seat: &mut Seat<u8, ()>) -> Result<Duration, Failure>
    requires table { seat.old.table_id ≡ table.now.shared.table_id }
    requires word { 0 < table.now.shared.table_id.words }
    ensures { seat.new.table_id ≡ seat.old.table_id }
{
    let mut took = Duration::ZERO;
    for _ in 0..ROUND / BLOCK {
        let start = Instant::now(rt)?;
        or_block(table, seat);
        took = took.checked_add(start.elapsed(rt)?).ok_or(Failure)?;
    }
    Ok(took)
}

fn or_block(table: &Words, seat: &mut Seat<u8, ()>)
    requires table { seat.old.table_id ≡ table.now.shared.table_id }
    requires word { 0 < table.now.shared.table_id.words }
    ensures { seat.new.table_id ≡ seat.old.table_id }
{
    let mut all = 0;
    for value in 0..BLOCK {
        all |= table.shared.fetch_or::<Anything>(seat, 0, value);
    }
    prove!(all <= u64::MAX);
}
