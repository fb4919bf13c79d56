ghost use Rattle.std.specs.Prelude.{◌≡◌, ◌+◌, ◌<◌, ◌≤◌, ◌^◌, length};
ghost use Rattle.std.specs.List.{All};
ghost use Rattle.solo_world.specs.Sequences.{IsReady, Runs};
ghost use Rattle.solo_undo.specs.Sequences.{puts_back, restores_word, restores_record, restores_all, restores};
ghost use Rattle.solo_undo.specs.Spans.{IsSpan};
ghost use Rattle.solo_undo.specs.Working.{IsSeenWithArea};

use crate::places::{LINE_WORDS, slot_line};
use solo_memory::Stopped;
use solo_world::{Lane, LawfulMem, Span, settle, store};

/// The word of a slot at which the old words begin.
const OLD_AT: u64 = 3;

/// Makes word i of a record what its slot says that it was.
fn restore_word<M: LawfulMem>(
    mem: &mut M,
    lane: u64,
    slot: u64,
    word: u64,
    i: u64,
) -> Result<(), Stopped>
    requires lane { lane < 32 }
    requires slot { slot < 64 }
    requires low { word < 2 ^ 60 }
    requires few { i < 4 }
    requires ready { IsReady (M.at mem.old) (restores_word lane slot word i) }
    ensures { Runs (M.at mem.old) (M.at mem.new) (restores_word lane slot word i) result }
{
    let old = mem.load(LINE_WORDS * slot_line(lane, slot) + OLD_AT + i);
    store(mem, word + i, old)
}

/// Makes the words of a record what its slot says that they were.
fn restore_record<M: LawfulMem>(
    mem: &mut M,
    lane: u64,
    slot: u64,
    span: Span,
) -> Result<(), Stopped>
    requires lane { lane < 32 }
    requires slot { slot < 64 }
    requires span { IsSpan span }
    requires ready { IsReady (M.at mem.old) (restores_record lane slot span) }
    ensures { Runs (M.at mem.old) (M.at mem.new) (restores_record lane slot span) result }
{
    for i in 0..span.count {
        restore_word(mem, lane, slot, span.word, i)?;
    }
    Ok(())
}

/// Makes every recorded word what it was, in the order of the records.
fn put_back<M: LawfulMem>(mem: &mut M, lane: u64, spans: &[Span]) -> Result<(), Stopped>
    requires lane { lane < 32 }
    requires slots { length spans.now ≤ 64 }
    requires spans { All IsSpan spans.now }
    requires ready { IsReady (M.at mem.old) (puts_back spans.now lane) }
    ensures { Runs (M.at mem.old) (M.at mem.new) (puts_back spans.now lane) result }
{
    for (slot, span) in spans.iter().enumerate() {
        restore_record(mem, lane, slot as u64, *span)?;
    }
    Ok(())
}

/// Makes every recorded word what it was, and all of that persistent.
#[tactic(auto, using(solo_world::proofs::Sequencing::runs_then, solo_world::proofs::Sequencing::runs_err, solo_world::proofs::Sequencing::ready_first, solo_world::proofs::Sequencing::ready_then), unfolding(crate::specs::Sequences::restores_all))]
fn restore_all<M: LawfulMem>(mem: &mut M, lane: u64, spans: &[Span]) -> Result<(), Stopped>
    requires lane { lane < 32 }
    requires slots { length spans.now ≤ 64 }
    requires spans { All IsSpan spans.now }
    requires ready { IsReady (M.at mem.old) (restores_all spans.now lane) }
    ensures { Runs (M.at mem.old) (M.at mem.new) (restores_all spans.now lane) result }
{
    put_back(mem, lane, spans)?;
    settle(mem)
}

/// Makes every recorded word what it was, and all of that persistent.
fn restore_spans<M: LawfulMem>(mem: &mut M, spans: &[Span]) -> Result<(), Stopped>
    requires area { IsSeenWithArea (M.at mem.old) }
    requires slots { length spans.now ≤ 64 }
    requires spans { All IsSpan spans.now }
    requires ready { IsReady (M.at mem.old) (restores spans.now) }
    ensures { Runs (M.at mem.old) (M.at mem.new) (restores spans.now) result }
{
    let lane = mem.lane();
    restore_all(mem, lane, spans)
}

/// Puts every recorded word back to what it was when it was recorded, in the order of the records, and makes that persistent. The records
/// stay until they are retired. Makes exactly the memory calls of `restores`, or the first of them up to the lane's stop.
pub fn restore<M: LawfulMem>(lane: &mut Lane<M>) -> Result<(), Stopped>
    requires area { IsSeenWithArea (M.at lane.old.memory) }
    requires spans { All IsSpan lane.old.records.items }
    requires ready { IsReady (M.at lane.old.memory) (restores lane.old.records.items) }
    ensures ran { Runs (M.at lane.old.memory) (M.at lane.new.memory) (restores lane.old.records.items) result }
    ensures else_same { lane.new ≡ record lane.old { memory = lane.new.memory } }
{
    restore_spans(&mut lane.memory, lane.records.as_slice())
}
