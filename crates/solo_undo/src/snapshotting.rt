ghost use Rattle.std.specs.Prelude.{◌≡◌, ◌+◌, ◌^◌, ◌<◌, ◌≤◌, ◌⊎◌, ◌++◌, length, sum_by, Err, IfOk, IfErr, OnOk};
ghost use Rattle.std.specs.List.{All};
ghost use Rattle.solo_model.specs.Bytes.{covered_words, new_words};
ghost use Rattle.pm_objects.specs.declared.refusal.Refusal.TheVariants as refusal;
ghost use Rattle.solo_world.specs.Sequences.{IsMade, IsReady, IsStopped, Runs};
ghost use Rattle.solo_undo.specs.Sequences.{logs_any, snapshots};
ghost use Rattle.solo_undo.specs.Spans.{IsSpan, plan_of, words_in};
ghost use Rattle.solo_undo.specs.Working.{IsSeenWithArea};

use crate::plan::plan;
use crate::record::log;
use arrayvec::ArrayVec;
use pm_objects::Refusal;
use solo_memory::Stopped;
use solo_world::{Lane, LawfulMem, Span};

/// Writes the records of some spans, if there are any, behind so many that there are.
fn log_any<M: LawfulMem>(mem: &mut M, slot: u64, spans: &[Span]) -> Result<(), Stopped>
    requires area { IsSeenWithArea (M.at mem.old) }
    requires slots { slot + length spans.now ≤ 64 }
    requires spans { All IsSpan spans.now }
    requires ready { IsReady (M.at mem.old) (logs_any slot spans.now) }
    ensures { Runs (M.at mem.old) (M.at mem.new) (logs_any slot spans.now) result }
{
    if spans.is_empty() {
        Ok(())
    } else {
        log(mem, slot, spans)
    }
}

/// Records the words of a range of bytes that have no record yet, so that they can be put back, and makes the records persistent: how many
/// words. Makes exactly the memory calls of `snapshots`. `LogFull` where more records are needed than are free of 64, which changes nothing;
/// `Stopped` where the lane came to its stop, the first of the calls being made.
pub fn snapshot<M: LawfulMem>(lane: &mut Lane<M>, place: u64, len: u64) -> Result<u64, Refusal>
    requires range { place + len < 2 ^ 60 }
    requires area { IsSeenWithArea (M.at lane.old.memory) }
    requires ready { length lane.old.records.items + length (plan_of lane.old.records.items place len) ≤ 64
        → IsReady (M.at lane.old.memory) (snapshots lane.old.records.items place len) }
    ensures made { OnOk result (IsMade (M.at lane.old.memory) (M.at lane.new.memory) (snapshots lane.old.records.items place len)) }
    ensures words { IfOk result (λ count. count ≡ length (new_words (words_in lane.old.records.items) (covered_words place len))) }
    ensures recorded { OnOk result (lane.new.records.items ≡ lane.old.records.items ++ plan_of lane.old.records.items place len) }
    ensures room { OnOk result (length lane.old.records.items + length (plan_of lane.old.records.items place len) ≤ 64) }
    ensures stopped_room { result ≡ Err refusal.Stopped → length lane.old.records.items + length (plan_of lane.old.records.items place len) ≤ 64 }
    ensures full { result ≡ Err refusal.LogFull → 64 < length lane.old.records.items + length (plan_of lane.old.records.items place len) }
    ensures unchanged { result ≡ Err refusal.LogFull → lane.new ≡ lane.old }
    ensures stopped { result ≡ Err refusal.Stopped → IsStopped (M.at lane.old.memory) (M.at lane.new.memory) (snapshots lane.old.records.items place len) }
    ensures causes { IfErr result (λ r. (r ≡ refusal.LogFull) ⊎ (r ≡ refusal.Stopped)) }
    ensures else_same { lane.new ≡ record lane.old { memory = lane.new.memory; records = lane.new.records } }
{
    let Some(spans) = plan(lane.records.as_slice(), place, len) else {
        return Err(Refusal::LogFull);
    };
    let slot = lane.records.len() as u64;
    match log_any(&mut lane.memory, slot, spans.as_slice()) {
        Ok(()) => Ok(keep(&mut lane.records, spans.as_slice())),
        Err(Stopped) => Err(Refusal::Stopped),
    }
}

/// How many words some records have.
fn count(spans: &[Span]) -> u64
    requires few { length spans.now ≤ 64 }
    requires spans { All IsSpan spans.now }
    ensures { result ≡ sum_by (λ s. s.count) spans.now }
{
    let mut count = 0;
    for span in spans {
        count += span.count;
    }
    count
}

/// Keeps further records, and tells how many words they have.
fn keep(records: &mut ArrayVec<Span, 64>, new: &[Span]) -> u64
    requires room { length records.old.items + length new.now ≤ 64 }
    requires spans { All IsSpan new.now }
    ensures kept { records.new.items ≡ records.old.items ++ new.now }
    ensures count { result ≡ sum_by (λ s. s.count) new.now }
{
    let kept = records.try_extend_from_slice(new);
    prove!(kept.is_ok());
    count(new)
}
