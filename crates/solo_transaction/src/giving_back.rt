//! Blocks of what is reserved, given back one after another.

ghost use Rattle.std.specs.Prelude.{◌≡◌, map};
ghost use Rattle.solo_epoch.specs.GivingBack.{with_given_back};
ghost use Rattle.solo_model.specs.Actions.{none_pending};
ghost use Rattle.solo_pending.specs.AllPending.{IsPendingAs, object_of};
ghost use Rattle.solo_view.specs.View.{View};
ghost use Rattle.solo_transaction.specs.GivingInTurn.{MayGiveInTurn};

use solo_blocks::give_back;
use solo_pending::{PendingActions, Reserved};
use solo_world::{Lane, LawfulMem};

/// Gives back the block of each of these, in their order.
fn give_back_each<M: LawfulMem>(lane: &mut Lane<M>, reserved: &[Reserved])
    requires may { (v : View) × (M.at lane.old.memory v × MayGiveInTurn v lane.old.shape (map object_of reserved.now)) }
    ensures given { (v : View) → M.at lane.old.memory v → v.lanes ≡ lane.old.shape.lanes → M.at lane.new.memory (with_given_back v (map object_of reserved.now)) }
    ensures else_same { lane.new ≡ record lane.old { memory = lane.new.memory } }
{
    for one in reserved {
        give_back(lane, one.block());
    }
}

/// Gives back the block of each object that is reserved, in the order of their reservations, and then nothing is pending any more: what a cancel of all that
/// is pending leaves (pmemobj_cancel(3)), and the end of a lane's work.
pub fn give_up_pending<M: LawfulMem>(lane: &mut Lane<M>, pending: &mut PendingActions)
    requires may { (v : View) × (M.at lane.old.memory v × MayGiveInTurn v lane.old.shape (map object_of pending.old.reserved.items)) }
    ensures given { (v : View) → M.at lane.old.memory v → v.lanes ≡ lane.old.shape.lanes → M.at lane.new.memory (with_given_back v (map object_of pending.old.reserved.items)) }
    ensures none { IsPendingAs pending.new none_pending }
    ensures else_same { lane.new ≡ record lane.old { memory = lane.new.memory } }
{
    give_back_each(lane, pending.reserved.as_slice());
    pending.clear();
}
