ghost use Rattle.std.specs.Prelude.{◌≡◌, ◌^◌, ◌<◌, IfOk};
ghost use Rattle.pm_call.specs.Did.{stage_refusal, work_refusal};
ghost use Rattle.pm_call.specs.Stages.{end_refusal, stage_end_refusal};

use super::*;
use crate::publishing::earlier;
use arrayvec::ArrayVec;
use pm_layout::Shape;
use pm_memory::SoloMem;
use pm_model::Stage;
use pm_objects::{Oid, Refusal, TxErr, Want};
use pm_world::{Lane, OwnedBits, SoloLane, UndoLog};
use std::alloc::Global;
use std::test::Fail;

/// Lane 0 of a pool of one lane and one zone, at a level and a stage of a transaction.
fn lane_at(alloc: Global, level: u64, stage: Stage) -> Result<Lane<SoloLane>, Fail>
    ensures works { IfOk result (λ lane. work_refusal lane ≡ stage_refusal stage level) }
    ensures ends { IfOk result (λ lane. end_refusal lane ≡ stage_end_refusal stage level) }
    ensures level { IfOk result (λ lane. lane.level ≡ level) }
{
    let words = vec![in alloc; 0; 34816]?;
    Ok(Lane {
        memory: SoloLane::new(SoloMem::new(alloc, words, None)?),
        pool: 7,
        shape: Shape::new(1, 1)?,
        locks: ArrayVec::new(),
        log: UndoLog {
            generation: 1,
            records: ArrayVec::new(),
        },
        entries: ArrayVec::new(),
        pending: ArrayVec::new(),
        reserved: OwnedBits::new(alloc, 68)?,
        freed: OwnedBits::new(alloc, 68)?,
        level,
        stage,
        error: TxErr::None,
        drawn: None,
        last: 0,
        stopped: false,
    })
}

/// Where no transaction is open, and past its work, an abort is refused.
#[test]
fn aborts_are_refused(rt: HostRuntime) -> Result<(), Fail> {
    let mut idle = lane_at(rt.alloc(), 0, Stage::None)?;
    assert_eq!(rt; abort(&mut idle, 3), Err(Refusal::NoTx));
    let mut late = lane_at(rt.alloc(), 1, Stage::OnAbort)?;
    assert_eq!(rt; abort(&mut late, 3), Err(Refusal::NotWork));
    assert_eq!(rt; late.error, TxErr::None);
    Ok(())
}

/// Where no transaction is open, and past its work, a lock is refused, and none is held.
#[test]
fn locks_are_refused(rt: HostRuntime) -> Result<(), Fail> {
    let want = Want {
        id: Oid { pool: 7, off: 4224 },
        write: true,
    };
    let mut idle = lane_at(rt.alloc(), 0, Stage::None)?;
    assert_eq!(rt; lock(&mut idle, want), Err(Refusal::NoTx));
    let mut late = lane_at(rt.alloc(), 1, Stage::OnAbort)?;
    assert_eq!(rt; lock(&mut late, want), Err(Refusal::NotWork));
    assert!(rt; late.locks.is_empty());
    assert_eq!(rt; late.error, TxErr::None);
    Ok(())
}

/// Past its work, and where it stopped, a lane begins no level.
#[test]
fn begins_are_refused(rt: HostRuntime) -> Result<(), Fail> {
    let mut late = lane_at(rt.alloc(), 1, Stage::OnAbort)?;
    assert_eq!(rt; begin(&rt, &mut late, &[]), Err(Refusal::NotWork));
    assert_eq!(rt; late.level, 1);
    late.stopped = true;
    assert_eq!(rt; begin(&rt, &mut late, &[]), Err(Refusal::Stopped));
    Ok(())
}

/// Where no transaction is open, and past its work, a range is not recorded.
#[test]
fn adds_are_refused(rt: HostRuntime) -> Result<(), Fail> {
    let id = Oid { pool: 7, off: 4224 };
    let mut idle = lane_at(rt.alloc(), 0, Stage::None)?;
    assert_eq!(rt; add_range(&mut idle, id, 0, 8), Err(Refusal::NoTx));
    let mut late = lane_at(rt.alloc(), 1, Stage::OnAbort)?;
    assert_eq!(rt; add_range(&mut late, id, 0, 8), Err(Refusal::NotWork));
    assert_eq!(rt; late.error, TxErr::None);
    Ok(())
}

/// Where no transaction is open, and past its work, nothing is written.
#[test]
fn writes_are_refused(rt: HostRuntime) -> Result<(), Fail> {
    let id = Oid { pool: 7, off: 4224 };
    let mut idle = lane_at(rt.alloc(), 0, Stage::None)?;
    assert_eq!(rt; write(&mut idle, id, 0, &[9]), Err(Refusal::NoTx));
    let mut late = lane_at(rt.alloc(), 1, Stage::OnAbort)?;
    assert_eq!(rt; write(&mut late, id, 0, &[9]), Err(Refusal::NotWork));
    assert_eq!(rt; late.error, TxErr::None);
    Ok(())
}

/// Where no transaction is open, and past its work, nothing is read: the buffer stays as it was.
#[test]
fn reads_are_refused(rt: HostRuntime) -> Result<(), Fail> {
    let id = Oid { pool: 7, off: 4224 };
    let mut buffer = [1, 2, 3, 4];
    let mut idle = lane_at(rt.alloc(), 0, Stage::None)?;
    assert_eq!(rt; read(&mut idle, id, 0, &mut buffer), Err(Refusal::NoTx));
    let mut late = lane_at(rt.alloc(), 1, Stage::OnAbort)?;
    assert_eq!(rt; read(&mut late, id, 0, &mut buffer), Err(Refusal::NotWork));
    assert_eq!(rt; late.error, TxErr::None);
    assert_eq!(rt; buffer, [1, 2, 3, 4]);
    Ok(())
}

/// Where no transaction is open, and past its work, no number is incremented.
#[test]
fn increments_are_refused(rt: HostRuntime) -> Result<(), Fail> {
    let id = Oid { pool: 7, off: 4224 };
    let mut idle = lane_at(rt.alloc(), 0, Stage::None)?;
    assert_eq!(rt; increment(&mut idle, id, 0, 9), Err(Refusal::NoTx));
    let mut late = lane_at(rt.alloc(), 1, Stage::OnAbort)?;
    assert_eq!(rt; increment(&mut late, id, 0, 9), Err(Refusal::NotWork));
    assert_eq!(rt; late.error, TxErr::None);
    Ok(())
}

/// Where no transaction is open, and while a level is in work, its end is refused.
#[test]
fn ends_are_refused(rt: HostRuntime) -> Result<(), Fail> {
    let mut idle = lane_at(rt.alloc(), 0, Stage::None)?;
    assert_eq!(rt; end(&mut idle), Err(Refusal::NoTx));
    let mut working = lane_at(rt.alloc(), 2, Stage::Work)?;
    assert_eq!(rt; end(&mut working), Err(Refusal::InTx));
    assert_eq!(rt; level(&working), 2);
    assert_eq!(rt; stage(&working), Stage::Work);
    assert_eq!(rt; errno(&working), TxErr::None);
    Ok(())
}

/// Where no transaction is open, and past its work, a commit is refused.
#[test]
fn commits_are_refused(rt: HostRuntime) -> Result<(), Fail> {
    let mut idle = lane_at(rt.alloc(), 0, Stage::None)?;
    assert_eq!(rt; commit(&mut idle), Err(Refusal::NoTx));
    let mut late = lane_at(rt.alloc(), 1, Stage::OnAbort)?;
    assert_eq!(rt; commit(&mut late), Err(Refusal::NotWork));
    assert_eq!(rt; late.stage, Stage::OnAbort);
    Ok(())
}

/// Where no transaction is open, and past its work, a publish is refused.
#[test]
fn publishes_are_refused(rt: HostRuntime) -> Result<(), Fail> {
    let mut idle = lane_at(rt.alloc(), 0, Stage::None)?;
    assert_eq!(rt; publish(&mut idle), Err(Refusal::NoTx));
    let mut late = lane_at(rt.alloc(), 1, Stage::OnAbort)?;
    assert_eq!(rt; publish(&mut late), Err(Refusal::NotWork));
    assert_eq!(rt; late.error, TxErr::None);
    Ok(())
}

/// An object that is not held is told before a word past its object's end, wherever they come.
#[test]
fn locks_come_first(rt: HostRuntime) -> Result<(), Fail> {
    let past = Err(Refusal::OutOfRange);
    let unheld = Err(Refusal::NotLocked);
    assert_eq!(rt; earlier(Ok(()), Ok(())), Ok(()));
    assert_eq!(rt; earlier(past, Ok(())), past);
    assert_eq!(rt; earlier(Ok(()), past), past);
    assert_eq!(rt; earlier(past, unheld), unheld);
    assert_eq!(rt; earlier(unheld, past), unheld);
    Ok(())
}
