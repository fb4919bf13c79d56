ghost use Rattle.std.specs.Prelude.{◌≡◌, [], ◌∷◌, None, IfOk, length, slice_index};
ghost use Rattle.pm_record.specs.declared.redo.Op.TheVariants as op;
ghost use Rattle.solo_memory.specs.LockWords.{writer_bit};
ghost use Rattle.solo_memory.specs.Solo.{opened, with_lock};

use super::*;
use arrayvec::ArrayVec;
use pm_layout::Shape;
use pm_objects::TxErr;
use pm_record::{Op, Redo};
use solo_memory::{LaneMem, LaneSync, SoloMem};
use solo_world::{Lane, Stage};
use std::alloc::Global;
use std::test::Fail;

/// Lane 0 in generation 1 with this seal, over 2048 words of which the others are 0. It holds the lock of line 193, word 1544's, for writing.
fn lane_with(alloc: Global, seal: u64) -> Result<Lane<SoloMem>, Fail>
    ensures held { IfOk result (λ l. l.memory ≡ with_lock (opened l.memory.words None) 193 (writer_bit 0)) }
    ensures whole { IfOk result (λ l. length l.memory.words ≡ 2048) }
    ensures generation { IfOk result (λ l. slice_index l.memory.words 512 ≡ 1) }
    ensures empty { IfOk result (λ l. slice_index l.memory.words 1544 ≡ 0) }
    ensures unentered { IfOk result (λ l. l.entries.items ≡ []) }
{
    let mut words = vec![in alloc; 0; 2048]?;
    words[512] = 1;
    words[513] = seal;
    let mut memory = SoloMem::new(alloc, words, None)?;
    memory.take_write(193);
    if memory.words() != 2048 || memory.word(512) != 1 || memory.word(1544) != 0 {
        Err("other words")?;
    }
    Ok(Lane {
        memory,
        pool: 7,
        shape: Shape::new(1, 1)?,
        locks: ArrayVec::new(),
        records: ArrayVec::new(),
        entries: ArrayVec::new(),
        level: 1,
        stage: Stage::Work,
        error: TxErr::None,
        drawn: None,
        last: 0,
        stopped: false,
    })
}

/// Makes word 1544, of the heap, 7.
fn heap() -> Redo
    ensures { result ≡ record { place = 12352; op = op.Set; value = 7 } }
{
    Redo {
        place: 12352,
        op: Op::Set,
        value: 7,
    }
}

/// Sets bit 3 of word 1544.
fn sets_bit() -> Redo
    ensures { result ≡ record { place = 12352; op = op.Or; value = 8 } }
{
    Redo {
        place: 12352,
        op: Op::Or,
        value: 8,
    }
}

/// Clears all bits of word 1544 but 2 and 3.
fn clears_bits() -> Redo
    ensures { result ≡ record { place = 12352; op = op.And; value = 12 } }
{
    Redo {
        place: 12352,
        op: Op::And,
        value: 12,
    }
}

/// Ends lane 0's generation 1.
fn ending() -> Redo
    ensures { result ≡ record { place = 4096; op = op.Set; value = 2 } }
{
    Redo {
        place: 4096,
        op: Op::Set,
        value: 2,
    }
}

/// Two entries stand in the first two pairs, and are listed; a power failure may leave neither.
#[test]
fn puts(rt: HostRuntime) -> Result<(), Fail> {
    let mut lane = lane_with(rt.alloc(), 0)?;
    assert_eq!(rt; put(&mut lane, heap()), Ok(()));
    let image = lane.memory.survive(rt.alloc(), 1)?;
    assert_eq!(rt; image.len(), 2048);
    assert_eq!(rt; [image[520], image[521]], [12352, 7]);
    let mut lane = lane_with(rt.alloc(), 0)?;
    lane.entries.push(heap());
    assert_eq!(rt; put(&mut lane, ending()), Ok(()));
    assert_eq!(rt; lane.entries.as_slice(), [heap(), ending()].as_slice());
    let image = lane.memory.survive(rt.alloc(), 1)?;
    assert_eq!(rt; image.len(), 2048);
    assert_eq!(rt; [image[522], image[523]], [4096, 2]);
    let lost = lane.memory.survive(rt.alloc(), 0)?;
    assert_eq!(rt; lost.len(), 2048);
    assert_eq!(rt; [lost[522], lost[523]], [0, 0]);
    Ok(())
}

/// An entry and the one that ends the generation stand in the first two pairs, whatever survives, and are listed.
#[test]
fn logs(rt: HostRuntime) -> Result<(), Fail> {
    let mut lane = lane_with(rt.alloc(), 0)?;
    lane.entries.push(heap());
    assert_eq!(rt; write_log(&mut lane), Ok(()));
    assert_eq!(rt; lane.entries.as_slice(), [heap(), ending()].as_slice());
    let image = lane.memory.survive(rt.alloc(), 0)?;
    assert_eq!(rt; image.len(), 2048);
    assert_eq!(rt; [image[520], image[521]], [12352, 7]);
    assert_eq!(rt; [image[522], image[523]], [4096, 2]);
    Ok(())
}

/// Two entries are sealed, whatever survives.
#[test]
fn seals(rt: HostRuntime) -> Result<(), Fail> {
    let mut lane = lane_with(rt.alloc(), 0)?;
    lane.entries.push(heap());
    lane.entries.push(ending());
    assert_eq!(rt; seal(&mut lane), Ok(()));
    let image = lane.memory.survive(rt.alloc(), 0)?;
    assert_eq!(rt; image.len(), 2048);
    assert_eq!(rt; [image[512], image[513]], [1, 2]);
    Ok(())
}

/// Both words are as their entries say, whatever survives.
#[test]
fn applies(rt: HostRuntime) -> Result<(), Fail> {
    let mut lane = lane_with(rt.alloc(), 2)?;
    lane.entries.push(heap());
    lane.entries.push(ending());
    assert_eq!(rt; apply_all(&mut lane), Ok(()));
    let image = lane.memory.survive(rt.alloc(), 0)?;
    assert_eq!(rt; image.len(), 2048);
    assert_eq!(rt; [image[512], image[513], image[1544]], [2, 2, 7]);
    Ok(())
}

/// The word is 7, then 15, then 12, whatever survives.
#[test]
fn applies_bits(rt: HostRuntime) -> Result<(), Fail> {
    let mut lane = lane_with(rt.alloc(), 4)?;
    lane.entries.push(heap());
    lane.entries.push(sets_bit());
    lane.entries.push(clears_bits());
    lane.entries.push(ending());
    assert_eq!(rt; apply_all(&mut lane), Ok(()));
    let image = lane.memory.survive(rt.alloc(), 0)?;
    assert_eq!(rt; image.len(), 2048);
    assert_eq!(rt; [image[512], image[513], image[1544]], [2, 4, 12]);
    Ok(())
}

/// The seal is cleared, whatever survives, and no entry is listed.
#[test]
fn retires(rt: HostRuntime) -> Result<(), Fail> {
    let mut lane = lane_with(rt.alloc(), 2)?;
    lane.entries.push(heap());
    lane.entries.push(ending());
    assert_eq!(rt; retire(&mut lane), Ok(()));
    assert_eq!(rt; lane.entries.len(), 0);
    let image = lane.memory.survive(rt.alloc(), 0)?;
    assert_eq!(rt; image.len(), 2048);
    assert_eq!(rt; image[513], 0);
    Ok(())
}

/// Both words are as their entries say and the seal is cleared, whatever survives, and no entry is listed.
#[test]
fn performs(rt: HostRuntime) -> Result<(), Fail> {
    let mut lane = lane_with(rt.alloc(), 0)?;
    lane.entries.push(heap());
    lane.entries.push(ending());
    assert_eq!(rt; perform(&mut lane), Ok(()));
    assert_eq!(rt; lane.entries.len(), 0);
    let image = lane.memory.survive(rt.alloc(), 0)?;
    assert_eq!(rt; image.len(), 2048);
    assert_eq!(rt; [image[512], image[513], image[1544]], [2, 0, 7]);
    Ok(())
}
