ghost use Rattle.std.specs.Prelude.{◌≡◌, false, IfOk};
ghost use Rattle.pm_call.specs.Did.{stage_refusal, work_refusal};

use super::*;
use crate::actions::{judge_set, set_inside};
use crate::inside::cancel_inside;
use arrayvec::ArrayVec;
use pm_layout::Shape;
use pm_memory::SoloMem;
use pm_model::Stage;
use pm_objects::{Oid, Refusal, TxErr};
use pm_world::{Lane, OwnedBits, PendingAction, SoloLane, UndoLog};
use std::alloc::Global;
use std::test::Fail;

/// Lane 0 of a pool of one lane and one zone, at a level and a stage of a transaction.
fn lane_at(alloc: Global, level: u64, stage: Stage) -> Result<Lane<SoloLane>, Fail>
    ensures works { IfOk result (λ lane. work_refusal lane ≡ stage_refusal stage level) }
    ensures level { IfOk result (λ lane. lane.level ≡ level) }
    ensures unstopped { IfOk result (λ lane. lane.stopped ≡ false) }
{
    let words = vec![in alloc; 0; 34816]?;
    Ok(Lane {
        memory: SoloLane::new(SoloMem::new(alloc, words, None)?),
        pool: 7,
        shape: Shape::new(1, 1)?,
        locks: ArrayVec::new(),
        log: UndoLog {
            generation: 1,
            records: ArrayVec::new(),
        },
        entries: ArrayVec::new(),
        pending: ArrayVec::new(),
        reserved: OwnedBits::new(alloc, 68)?,
        freed: OwnedBits::new(alloc, 68)?,
        level,
        stage,
        error: TxErr::None,
        drawn: None,
        last: 0,
        stopped: false,
    })
}

/// Where no transaction is open, and past its work, a cancel is refused.
#[test]
fn cancels_are_refused(rt: HostRuntime) -> Result<(), Fail> {
    let mut idle = lane_at(rt.alloc(), 0, Stage::None)?;
    assert_eq!(rt; cancel_inside(&mut idle), Err(Refusal::NoTx));
    let mut late = lane_at(rt.alloc(), 1, Stage::OnAbort)?;
    assert_eq!(rt; cancel_inside(&mut late), Err(Refusal::NotWork));
    assert_eq!(rt; late.error, TxErr::None);
    Ok(())
}

/// Where no transaction is open no word is asked for inside one, and past its work none at all.
#[test]
fn words_are_refused(rt: HostRuntime) -> Result<(), Fail> {
    let id = Oid { pool: 7, off: 4224 };
    let mut idle = lane_at(rt.alloc(), 0, Stage::None)?;
    assert_eq!(rt; set_inside(&mut idle, id, 8, 9), Err(Refusal::NoTx));
    let mut late = lane_at(rt.alloc(), 1, Stage::OnAbort)?;
    assert_eq!(rt; set_value(&mut late, id, 8, 9), Err(Refusal::NotWork));
    assert!(rt; late.pending.is_empty());
    assert_eq!(rt; late.error, TxErr::None);
    Ok(())
}

/// A word begins at a multiple of eight, and 63 actions may be pending.
#[test]
fn words_are_judged(rt: HostRuntime) -> Result<(), Fail> {
    assert_eq!(rt; judge_set(0, 0), Ok(()));
    assert_eq!(rt; judge_set(8, 62), Ok(()));
    assert_eq!(rt; judge_set(8, 63), Err(Refusal::ActionsFull));
    assert_eq!(rt; judge_set(12, 0), Err(Refusal::Unaligned));
    assert_eq!(rt; judge_set(12, 63), Err(Refusal::Unaligned));
    Ok(())
}

/// A lane that stopped does not finish.
#[test]
fn stopped_lanes_do_not_finish(rt: HostRuntime) -> Result<(), Fail> {
    let mut lane = lane_at(rt.alloc(), 0, Stage::None)?;
    lane.stopped = true;
    assert_eq!(rt; finish(&mut lane), Err(Refusal::Stopped));
    Ok(())
}
