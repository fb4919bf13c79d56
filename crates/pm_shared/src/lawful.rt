ghost use Rattle.std.specs.Prelude.{◌≡◌};
ghost use Rattle.pm_shared.specs.Rule.{SeatAsks, SeatMade};
ghost use Rattle.pm_view.specs.Steps.Step.{Tell};

use crate::mem::LaneSeat;
use crate::{SharedLane, SharedMem, TableName, plays};
use pm_world::{Adds, LawfulMem, LentOperation, LentValue};
use std::marker::Brand;

/// The first word of the pool: an operation is told by a load of it.
const FIRST_WORD: usize = 0;

impl SharedMem {
    /// Adds the operation that A names to the lane's open call. The values are there for the caller
    /// to pick A by.
    fn tells<A: Adds>(
        &self,
        seat: &mut LaneSeat,
        lane: u64,
        _operation: LentOperation<'_>,
        _reply: Option<LentValue<'_>>,
    )
        requires table { seat.old.table_id ≡ self.now.table.shared.table_id }
        requires asks { SeatAsks self.now.shape lane seat.old.me (λ r. Tell A.operation A.reply) }
        ensures table { seat.new.table_id ≡ seat.old.table_id }
        ensures made { SeatMade seat.old.me seat.new.me (Tell A.operation A.reply) }
    {
        self.load::<plays::Tells<A>>(seat, FIRST_WORD);
    }
}

impl<'a, N: TableName> LawfulMem for SharedLane<'a, N> {
    ghost use Rattle.pm_shared.specs.Seats.{meets_shared, grants_shared};

    fn see(&mut self, word: u64) -> u64 {
        self.memory.loads(&mut self.seat, self.lane, word)
    }

    fn tell(&mut self, operation: LentOperation<'_>, reply: Option<LentValue<'_>>) {
        self.memory
            .tells::<Brand>(&mut self.seat, self.lane, operation, reply);
    }

    ghost meets = { meets_shared };

    ghost grants = { grants_shared };
}
