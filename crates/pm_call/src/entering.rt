ghost use Rattle.std.specs.Prelude.{◌≡◌, ◌+◌, ◌≤◌, ◌++◌, [], length};
ghost use Rattle.std.specs.List.{AllByRecursion};
ghost use Rattle.pm_call.specs.Entering.{HasPlace, entries_of};

use arrayvec::ArrayVec;
use pm_record::{Op, Redo};
use pm_world::PendingAction;

/// Makes the pending words entries of the call, after those that are there; none is pending then.
pub fn enter_words(pending: &mut ArrayVec<PendingAction, 63>, entries: &mut ArrayVec<Redo, 64>)
    requires room { length entries.old.items + length pending.old.items ≤ 64 }
    requires places { AllByRecursion HasPlace pending.old.items }
    ensures entries { entries.new.items ≡ entries.old.items ++ entries_of pending.old.items }
    ensures pending { pending.new.items ≡ [] }
{
    for action in pending.as_slice() {
        if let PendingAction::Set { id, off, value } = *action {
            let place = id.off + off;
            entries.push(Redo {
                place,
                op: Op::Set,
                value,
            });
        }
    }
    pending.clear();
}
