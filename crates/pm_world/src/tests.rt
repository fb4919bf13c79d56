ghost use Rattle.std.specs.Prelude.{None};
ghost use Rattle.pm_objects.specs.declared.calls.Operation.TheVariants.{Write};
ghost use Rattle.pm_view.specs.Steps.Step.{Tell};
ghost use Rattle.pm_view.specs.View.{View};
ghost use Rattle.pm_view.specs.Views.{after};
ghost use Rattle.pm_world.specs.Lawful.{Allowed};

use super::*;
use pm_layout::Shape;
use pm_memory::{LaneMem, LaneSync, Stopped};
use pm_objects::Oid;
use pm_view::Occ;
use std::test::Fail;

/// Tells a write, over any memory of a lane.
fn tell_write<M: LawfulMem>(mem: &mut M, id: Oid, bytes: &[u8])
    requires { (v : View) × M.at mem.old v × Allowed v (Tell (Write id 8 bytes.now) None) }
    ensures { (v : View) → M.at mem.old v → Allowed v (Tell (Write id 8 bytes.now) None)
        → M.at mem.new (after v (Tell (Write id 8 bytes.now) None)) }
{
    mem.tell(LentOperation::Write { id, off: 8, bytes }, None);
}

/// A lane before its first call knows its generation and is idle, and is so no more once it holds a
/// lock.
#[test]
fn a_lane(rt: HostRuntime) -> Result<(), Fail> {
    let shape = Shape::new(1, 1)?;
    let memory = SoloLane::on_bare_pool(rt.alloc(), shape, Some(3))?;
    let mut lane = Lane::new(rt.alloc(), memory, 7, shape)?;
    assert!(rt; lane.idle());
    assert_eq!(rt; lane.log.generation, 1);
    lane.locks.push(HeldLock {
        line: 0,
        write: true,
    });
    assert!(rt; !lane.idle());
    assert_eq!(rt; lane.calls(), 0);
    assert_eq!(rt; lane.last_number(), 0);
    assert_eq!(rt; lane.in_flight(), None);
    assert!(rt; !lane.stopped());
    Ok(())
}

/// A lane over its memory takes a line's lock and gives it back, looks at its generation, and tells
/// an operation of the call that it opens. The words are as they were.
#[test]
fn a_lane_steps_on_its_memory(rt: HostRuntime) -> Result<(), Fail> {
    let shape = Shape::new(1, 1)?;
    let mut lane = SoloLane::on_bare_pool(rt.alloc(), shape, Some(3))?;
    let won = lane.take_write(100);
    lane.give(100);
    let generation = lane.see(shape.word_of_generation(0));
    let drawn = lane.number_seen();
    tell_write(&mut lane, Oid { pool: 7, off: 8192 }, &[1, 2]);
    assert!(rt; won);
    assert_eq!(rt; [generation, drawn, lane.calls()], [1, 0, 0]);
    let left = lane.survive(rt.alloc(), 0)?;
    assert_eq!(rt; left.len(), 34816);
    assert_eq!(rt; left[512], 1);
    Ok(())
}

/// The lane of an open call stores its next generation, flushes the line and drains it: a power
/// failure that keeps nothing takes the store back until then. A fourth counted call says that the
/// lane stopped.
#[test]
fn a_drained_store_survives(rt: HostRuntime) -> Result<(), Fail> {
    let shape = Shape::new(1, 1)?;
    let generation = shape.word_of_generation(0);
    let mut lane = SoloLane::on_bare_pool(rt.alloc(), shape, Some(3))?;
    lane.see(generation);
    lane.number_seen();
    let stored = lane.store(generation, 2);
    let flushed = lane.flush(64);
    let before = lane.survive(rt.alloc(), 0)?;
    let drained = lane.drain();
    let after = lane.survive(rt.alloc(), 0)?;
    let stopped = lane.store(generation, 3);
    assert_eq!(rt; [stored, flushed, drained], [Ok(()), Ok(()), Ok(())]);
    assert_eq!(rt; [before.len(), after.len()], [34816, 34816]);
    assert_eq!(rt; [before[512], after[512]], [1, 2]);
    assert_eq!(rt; stopped, Err(Stopped));
    assert_eq!(rt; lane.calls(), 3);
    Ok(())
}

/// Bits that were set are found, and none once they are cleared.
#[test]
fn owned_bits(rt: HostRuntime) -> Result<(), Fail> {
    let mut bits = OwnedBits::new(rt.alloc(), 68)?;
    assert!(rt; bits.first().is_none());
    bits.set(Occ::Run(67 * 4096), 6);
    assert_eq!(rt; bits.first(), Some(Occ::Run(67 * 4096)));
    bits.set(Occ::Zone(31), 1);
    assert_eq!(rt; bits.first(), Some(Occ::Zone(31)));
    assert_eq!(rt;
        [bits.of(Occ::Run(67 * 4096)), bits.of(Occ::Zone(31))],
        [6, 1]
    );
    bits.set(Occ::Run(67 * 4096), 0);
    bits.set(Occ::Zone(31), 0);
    assert!(rt; bits.first().is_none());
    Ok(())
}
