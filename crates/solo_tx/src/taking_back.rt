ghost use Rattle.std.specs.Prelude.{◌≡◌, [], OnOk};
ghost use Rattle.std.specs.List.{All};
ghost use Rattle.solo_undo.specs.Spans.{IsSpan};
ghost use Rattle.solo_world.specs.Sequences.{Runs};
ghost use Rattle.solo_tx.specs.Ending.{IsWorkingLane};
ghost use Rattle.solo_tx.specs.Sequences.{takes_back, undoes};

use solo_memory::Stopped;
use solo_undo::{restore, retire};
use solo_world::{Lane, LawfulMem, settle};

/// Puts every recorded word back, and ends the records.
#[tactic(auto, using(solo_world::proofs::Sequencing::runs_then, solo_world::proofs::Sequencing::runs_err), unfolding(crate::specs::Sequences::undoes))]
fn undo<M: LawfulMem>(lane: &mut Lane<M>) -> Result<(), Stopped>
    requires spans { All IsSpan lane.old.records.items }
    requires working { IsWorkingLane M.at lane.old }
    ensures ran { Runs (M.at lane.old.memory) (M.at lane.new.memory) (undoes lane.old.records.items) result }
    ensures none { OnOk result (lane.new.records.items ≡ []) }
    ensures else_same { lane.new ≡ record lane.old { memory = lane.new.memory; records = lane.new.records } }
{
    restore(lane)?;
    retire(lane)
}

/// Takes back what the open call did: its recorded words become what they were, that is made persistent, and the records are ended. Makes
/// exactly the memory calls of `takes_back`, or the first of them up to the lane's stop.
pub fn take_back<M: LawfulMem>(lane: &mut Lane<M>) -> Result<(), Stopped>
    requires spans { All IsSpan lane.old.records.items }
    requires working { IsWorkingLane M.at lane.old }
    ensures ran { Runs (M.at lane.old.memory) (M.at lane.new.memory) (takes_back lane.old.records.items) result }
    ensures none { OnOk result (lane.new.records.items ≡ []) }
    ensures else_same { lane.new ≡ record lane.old { memory = lane.new.memory; records = lane.new.records } }
{
    if lane.records.is_empty() {
        settle(&mut lane.memory)
    } else {
        undo(lane)
    }
}
