ghost use Rattle.std.specs.Prelude.{◌≡◌, ◌*◌, ◌+◌, ◌^◌, ◌<◌};
ghost use Rattle.pm_redo.specs.Entries.{ending};
ghost use Rattle.pm_redo.specs.Calls.{HasPut};

use pm_layout::{REDO_ENTRIES, Shape, WORD_BYTES};
use pm_objects::Refusal;
use pm_record::{Op, Redo};
use pm_world::Lane;

/// Puts an entry on the lane's list, after those that are there: the log that is written next has
/// it. Makes no memory call.
///
/// # Errors
///
/// `ActionsFull`: the list has 63 entries, as many as a log has room for beside the one that ends
/// the generation; nothing is done.
pub fn put<M>(lane: &mut Lane<M>, entry: Redo) -> Result<(), Refusal>
    ensures { HasPut entry lane.old lane.new result }
{
    if lane.entries.len() as u64 + 1 >= REDO_ENTRIES {
        return Err(Refusal::ActionsFull);
    }
    lane.entries.push(entry);
    Ok(())
}

/// The entry that ends a generation of a lane: it makes the lane's generation the next one.
pub fn end(shape: Shape, lane: u64, generation: u64) -> Redo
    requires lane { lane < shape.lanes }
    requires more { generation < 2 ^ 62 }
    ensures { result ≡ ending shape lane generation }
{
    Redo {
        place: WORD_BYTES * shape.word_of_generation(lane),
        op: Op::Set,
        value: generation + 1,
    }
}
