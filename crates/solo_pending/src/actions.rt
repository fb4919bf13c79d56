ghost use Rattle.std.specs.Prelude.{◌≡◌, ◌+◌, ◌^◌, ◌<◌, ◌≤◌, ◌++◌, map, length, All};
ghost use Rattle.solo_pending.specs.declared.actions.SetAction.{SetAction};
ghost use Rattle.solo_pending.specs.Pending.{redo_for};

use pm_objects::Oid;
use pm_record::{Op, Redo};
use solo_world::Lane;

/// Pending actions of a lane at most: a redo log has 64 entries, one of them that of the generation.
pub const MAX_ACTIONS: usize = 63;

/// A pending action: eight bytes of an object that are to become a number. pmemobj_set_value(3).
#[derive(Clone, Copy, Debug, PartialEq, Eq, Default, Drop)]
pub struct SetAction {
    pub id: Oid,
    /// Where in the object they begin, in bytes.
    pub off: u64,
    /// The number.
    pub value: u64,
}

impl SetAction {
    /// The redo entry that performs the action. The place of what it changes is one of the pool's.
    pub fn entry(self) -> Redo
        requires { self.id.off + self.off < 2 ^ 64 }
        ensures { result ≡ redo_for self }
    {
        Redo {
            place: self.id.off + self.off,
            op: Op::Set,
            value: self.value,
        }
    }
}

/// Lists the entries of the actions, in their order, behind those that the lane has. The one that ends its generation still fits behind them.
pub fn list_entries<M>(lane: &mut Lane<M>, actions: &[SetAction])
    requires few { length lane.old.entries.items + length actions.now ≤ 63 }
    requires places { All (λ (a : SetAction). a.id.off + a.off < 2 ^ 64) actions.now }
    ensures listed { lane.new.entries.items ≡ lane.old.entries.items ++ map redo_for actions.now }
    ensures else_same { lane.new ≡ record lane.old { entries = lane.new.entries } }
{
    for action in actions {
        lane.entries.push(action.entry());
    }
}
