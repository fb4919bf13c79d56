ghost use Rattle.std.specs.Prelude.{◌≡◌, ◌+◌, ◌^◌, ◌<◌, ◌≤◌, ◌++◌, length, sum_by};
ghost use Rattle.std.specs.List.{All};
ghost use Rattle.pm_undo.specs.Spans.{IsSpan};
ghost use Rattle.pm_undo.specs.Undoing.{LoggedSpans, MayLog, Snapshotted, Stands, needed};
ghost use Rattle.pm_undo.specs.Working.{CanSnapshot};

use crate::reading::read_all;
use crate::recording::write_new;
use crate::spans::{Span, plan};
use arrayvec::ArrayVec;
use pm_memory::Stopped;
use pm_objects::Refusal;
use pm_world::{KeptRecord, Lane, LawfulMem};

/// Records the words of a range of bytes that have no record yet, so that they can be put back, and
/// makes the records persistent: how many words. Makes exactly the memory calls of `snapshots`.
///
/// # Errors
///
/// - `LogFull`: more records are needed than are free of 64; nothing is done.
/// - `Stopped`: the lane came to its stop; the first of the calls are made, and the log stays.
pub fn snapshot<M: LawfulMem>(lane: &mut Lane<M>, place: u64, len: u64) -> Result<u64, Refusal>
    requires range { place + len < 2 ^ 60 }
    requires stands { Stands M.at lane.old (λ v. CanSnapshot v (needed v place len)) }
    ensures { Snapshotted M.at place len lane.old lane.new result }
{
    let Some(spans) = plan(lane.log.records.as_slice(), place, len) else {
        return Err(Refusal::LogFull);
    };
    match log_spans(lane, spans.as_slice()) {
        Ok(()) => Ok(count(spans.as_slice())),
        Err(Stopped) => Err(Refusal::Stopped),
    }
}

/// Looks at the words of some spans, records them after the records that there are, and keeps their
/// records.
fn log_spans<M: LawfulMem>(lane: &mut Lane<M>, spans: &[Span]) -> Result<(), Stopped>
    requires room { length lane.old.log.records.items + length spans.now ≤ 64 }
    requires spans { All IsSpan spans.now }
    requires stands { Stands M.at lane.old (λ v. MayLog v spans.now) }
    ensures { LoggedSpans M.at spans.now lane.old lane.new result }
{
    let slot = lane.log.records.len() as u64;
    let kept = read_all(&mut lane.memory, spans);
    write_new(
        &mut lane.memory,
        lane.shape,
        lane.log.generation,
        slot,
        kept.as_slice(),
    )?;
    extend(&mut lane.log.records, kept.as_slice());
    Ok(())
}

/// How many words some spans have.
fn count(spans: &[Span]) -> u64
    requires few { length spans.now ≤ 64 }
    requires spans { All IsSpan spans.now }
    ensures { result ≡ sum_by (λ s. s.count) spans.now }
{
    let mut count = 0;
    for span in spans {
        count += span.count;
    }
    count
}

/// Keeps further records.
fn extend(records: &mut ArrayVec<KeptRecord, 64>, new: &[KeptRecord])
    requires { length records.old.items + length new.now ≤ 64 }
    ensures { records.new.items ≡ records.old.items ++ new.now }
{
    let kept = records.try_extend_from_slice(new);
    prove!(kept.is_ok());
}
