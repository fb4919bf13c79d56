ghost use Rattle.std.specs.Prelude.{◌≡◌, None, IfOk, length, slice_index};
ghost use Rattle.solo_memory.specs.Solo.{opened};

use super::*;
use pm_layout::Shape;
use pm_objects::{Oid, Operation};
use solo_memory::{LaneMem, LaneSync, SoloMem};
use std::alloc::Global;
use std::test::Fail;

/// Lane 0 over 1536 words of 0.
fn fresh(alloc: Global) -> Result<Lane<SoloMem>, Fail> {
    let words = vec![in alloc; 0; 1536]?;
    Ok(Lane::new(SoloMem::new(alloc, words, Some(2))?, 7, Shape::new(1, 1)?))
}

/// A fresh lane is idle, and no longer once a call of it has drawn or a transaction is open.
#[test]
fn lanes(rt: HostRuntime) -> Result<(), Fail> {
    let mut lane = fresh(rt.alloc())?;
    assert!(rt; lane.idle());
    assert_eq!(rt; [lane.last_number(), lane.calls()], [0, 0]);
    assert_eq!(rt;
        [lane.in_flight(), lane.memory.number_seen().checked_add(1)],
        [None, Some(1)]
    );
    assert!(rt; !lane.stopped());
    lane.drawn = Some(1);
    assert_eq!(rt; lane.in_flight(), Some(1));
    assert!(rt; !lane.idle());
    lane.drawn = None;
    lane.level = 1;
    assert!(rt; !lane.idle());
    Ok(())
}

/// Telling an operation does nothing to the memory.
#[test]
fn tells(rt: HostRuntime) -> Result<(), Fail> {
    let mut lane = fresh(rt.alloc())?;
    lane.memory.tell(&Operation::Publish, None);
    lane.memory.tell_begin(&[], None);
    lane.memory.tell_write(Oid::NULL, 0, &[1, 2], None);
    lane.memory.tell_read(Oid::NULL, 0, &[1, 2]);
    assert_eq!(rt; [lane.memory.number_seen(), lane.calls()], [0, 0]);
    Ok(())
}

/// Lane 0's memory of 2048 words, of which word 1544 is 7 and the others are 0.
fn with_seven(alloc: Global) -> Result<SoloMem, Fail>
    ensures opened { IfOk result (λ m. m ≡ opened m.words None) }
    ensures size { IfOk result (λ m. length m.words ≡ 2048) }
    ensures seven { IfOk result (λ m. slice_index m.words 1544 ≡ 7) }
{
    let mut words = vec![in alloc; 0; 2048]?;
    words[1544] = 7;
    let memory = SoloMem::new(alloc, words, None)?;
    if memory.words() != 2048 || memory.word(1544) != 7 {
        Err("other words")?;
    }
    Ok(memory)
}

/// An OR sets bit 3 of the word, and an AND then clears all of it but bits 2 to 4.
#[test]
fn changes_bits(rt: HostRuntime) -> Result<(), Fail> {
    let mut memory = with_seven(rt.alloc())?;
    assert_eq!(rt; or(&mut memory, 1544, 8), Ok(()));
    let image = memory.survive(rt.alloc(), 1)?;
    assert_eq!(rt; image.len(), 2048);
    assert_eq!(rt; image[1544], 15);
    assert_eq!(rt; and(&mut memory, 1544, 28), Ok(()));
    let image = memory.survive(rt.alloc(), 1)?;
    assert_eq!(rt; image.len(), 2048);
    assert_eq!(rt; image[1544], 12);
    Ok(())
}
