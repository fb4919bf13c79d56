use super::*;
use arrayvec::ArrayVec;
use pm_layout::Shape;
use pm_objects::TxErr;
use pm_record::{Op, Redo};
use solo_world::{Lane, Stage};
use std::test::Fail;

/// An object of 64 bytes in the first block of a run at the first chunk of a pool of one lane.
const SMALL: Made = Made {
    off: 16512,
    kind: 7,
    size: 64,
};

/// One of 4000 bytes, which is the second chunk.
const LARGE: Made = Made {
    off: 20544,
    kind: 8,
    size: 4000,
};

/// A found object in the second block of that run.
const FOUND: Freed = Freed {
    off: 16640,
    lines: 2,
};

/// An object that was made is found until it is freed, and then is gone; one that was found and freed is gone, and was never new. All is forgotten
/// with the call.
#[test]
fn makes_and_frees(rt: HostRuntime) -> Result<(), Fail> {
    let mut blocks = CallBlocks::new(rt.alloc(), Shape::new(1, 1)?)?;
    blocks.add_made(SMALL);
    blocks.add_made(LARGE);
    assert_eq!(rt; blocks.made_at(16512), Some(SMALL));
    assert_eq!(rt; blocks.made_at(16640), None);
    blocks.free(16512, 2);
    blocks.free(16640, 2);
    assert_eq!(rt; blocks.made_at(16512), None);
    assert_eq!(rt; blocks.made_at(20544), Some(LARGE));
    assert!(rt; blocks.is_gone(16512) && blocks.is_new(16512));
    assert!(rt; blocks.is_gone(16640) && !blocks.is_new(16640));
    assert!(rt; !blocks.is_gone(20544) && blocks.is_new(20544));
    assert!(rt; !blocks.is_gone(16513) && !blocks.is_gone(0) && !blocks.is_gone(u64::MAX));
    assert_eq!(rt; blocks.count(), 2);
    blocks.clear();
    assert!(rt; !blocks.is_gone(16512) && !blocks.is_gone(16640) && !blocks.is_new(20544));
    assert_eq!(rt; blocks.count(), 0);
    Ok(())
}

/// The entries of a call stand in a redo log: that of what it freed first.
#[test]
fn lists(rt: HostRuntime) -> Result<(), Fail> {
    let shape = Shape::new(1, 1)?;
    let mut blocks = CallBlocks::new(rt.alloc(), shape)?;
    blocks.add_made(SMALL);
    blocks.add_made(LARGE);
    blocks.free(FOUND.off, FOUND.lines);
    let mut lane = Lane {
        memory: (),
        pool: 7,
        shape,
        locks: ArrayVec::new(),
        records: ArrayVec::new(),
        entries: ArrayVec::new(),
        level: 0,
        stage: Stage::None,
        error: TxErr::None,
        drawn: None,
        last: 0,
        stopped: false,
    };
    blocks.list_entries(&mut lane);
    let clears = Redo {
        place: 16384,
        op: Op::And,
        value: 0xFFFF_FFFF_FFFF_FFFD,
    };
    let sets = Redo {
        place: 16384,
        op: Op::Or,
        value: 1,
    };
    let describes = Redo {
        place: 12296,
        op: Op::Set,
        value: 258,
    };
    assert_eq!(rt;
        lane.entries.as_slice(),
        [clears, sets, describes].as_slice()
    );
    Ok(())
}

/// A block of 64 lines or more is whole chunks, and is freed by their descriptor.
#[test]
fn entries_of_blocks(rt: HostRuntime) -> Result<(), Fail> {
    let shape = Shape::new(1, 1)?;
    let chunks = Freed {
        off: 20544,
        lines: 64,
    };
    let freed = Redo {
        place: 12296,
        op: Op::Set,
        value: 0,
    };
    assert_eq!(rt; chunks.entry(shape), freed);
    let made = Redo {
        place: 16384,
        op: Op::Or,
        value: 1,
    };
    assert_eq!(rt; SMALL.entry(shape), made);
    Ok(())
}
