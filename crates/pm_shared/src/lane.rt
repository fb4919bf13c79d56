use crate::SharedMem;
use crate::mem::LaneSeat;
use crate::tally::Tally;
use std::marker::{Brand, Model, PhantomData};

/// Which table it is, as a type: lanes of one name are of one table. Contracts alone see it, and the
/// caller that makes lanes picks it.
pub trait TableName {
    ghost use Rattle.atomic_table.specs.Seated.{TableId};

    /// The table.
    ghost table: { TableId };
}

/// Stands for what a call picks.
impl TableName for Brand {
    ghost use Rattle.pm_shared.specs.Seats.{no_table};

    ghost table = { no_table };
}

/// A lane over a seat of the table: each of its memory calls is one step of the table, or two where
/// a lock is given back or bits of a zone are taken, and one lawful step of the lane. None waits,
/// and none takes memory. Contracts see what its seat knows, with its tally.
#[derive(Drop)]
pub struct SharedLane<'a, N: TableName> {
    pub(crate) seat: LaneSeat,
    pub(crate) memory: &'a SharedMem,
    pub(crate) lane: u64,
    pub(crate) tally: Tally,
    pub(crate) of: PhantomData<N>,
}

impl<'a, N: TableName> Model for SharedLane<'a, N> {
    ghost use Rattle.std.specs.Prelude.{◌≡◌, ◌<◌};
    ghost use Rattle.pm_shared.specs.Seats.{Seated};

    ghost Value = { Seated };

    ghost view = { λ l. record {
      shape = l.memory.now.shape;
      lane = l.lane;
      tally = l.tally;
      me = l.seat.me;
    } };

    ghost invariant = { λ l.
        (l.seat.table_id ≡ N.table)
        × (l.memory.now.table.shared.table_id ≡ N.table)
        × (l.lane < l.memory.now.shape.lanes) };
}
