ghost use Rattle.std.specs.Prelude.{◌≡◌, false, IfOk};

use super::*;
use crate::origins::{Origin, origin_of};
use crate::publishing::{check_each_left, count_made};
use arrayvec::ArrayVec;
use pm_layout::Shape;
use pm_objects::{Oid, Refusal, TxErr};
use solo_made::{CallBlocks, Made};
use solo_memory::SoloMem;
use solo_pending::{PendingActions, SetAction};
use solo_world::{Lane, Stage};
use std::alloc::Global;
use std::test::Fail;

/// The id of an object of pool 7 at an offset.
fn id(off: u64) -> Oid {
    Oid { pool: 7, off }
}

/// An object of 64 bytes that the transaction made, in the first block of a run at the first chunk of a pool of one lane.
const SMALL: Made = Made {
    off: 16512,
    kind: 7,
    size: 64,
};

/// A range of an object that was made ends in it, or is out of range; one that was freed is gone, whether it was made or found; of any other
/// object no more is known; and an id of another pool is of none, whatever its offset.
#[test]
fn origins(rt: HostRuntime) -> Result<(), Fail> {
    let mut blocks = CallBlocks::new(rt.alloc(), Shape::new(1, 1)?)?;
    blocks.add_made(SMALL);
    blocks.free(16640, 2);
    let other = Oid {
        pool: 8,
        off: 16512,
    };
    for (id, off, len, origin) in [
        (id(16512), 0, 64, Ok(Origin::Made)),
        (id(16512), 64, 0, Ok(Origin::Made)),
        (id(16512), 63, 2, Err(Refusal::OutOfRange)),
        (id(16512), 65, 0, Err(Refusal::OutOfRange)),
        (id(16512), u64::MAX, u64::MAX, Err(Refusal::OutOfRange)),
        (id(16640), 0, 1, Err(Refusal::NoObject)),
        (id(20544), 0, u64::MAX, Ok(Origin::Found)),
        (other, 0, 1, Err(Refusal::NotLocked)),
    ] {
        assert_eq!(rt; origin_of(&blocks, 7, id, off, len), origin, "{off} {len}");
    }
    blocks.free(16512, 2);
    assert_eq!(rt;
        origin_of(&blocks, 7, id(16512), 0, 1),
        Err(Refusal::NoObject)
    );
    Ok(())
}

/// Of what is to be freed, an object that the call made counts as made, and one that it found does not; and none may be gone.
#[test]
fn named_to_be_freed(rt: HostRuntime) -> Result<(), Fail> {
    let mut blocks = CallBlocks::new(rt.alloc(), Shape::new(1, 1)?)?;
    blocks.add_made(SMALL);
    let named = [id(16512), id(20544)];
    assert_eq!(rt; count_made(&blocks, &named), 1);
    assert_eq!(rt; check_each_left(&blocks, &named), Ok(()));
    blocks.free(20544, 2);
    assert_eq!(rt; count_made(&blocks, &named), 1);
    assert_eq!(rt; check_each_left(&blocks, &named), Err(Refusal::NoObject));
    Ok(())
}

/// Lane 0 over a pool of one lane and no zone, with no transaction.
fn fresh(alloc: Global) -> Result<Lane<SoloMem>, Fail>
    ensures { IfOk result (λ lane. (lane.stopped ≡ false) × (lane.level ≡ 0)) }
{
    let words = vec![in alloc; 0; 1536]?;
    Ok(Lane {
        memory: SoloMem::new(alloc, words, None)?,
        pool: 7,
        shape: Shape::new(1, 1)?,
        locks: ArrayVec::new(),
        records: ArrayVec::new(),
        entries: ArrayVec::new(),
        level: 0,
        stage: Stage::None,
        error: TxErr::None,
        drawn: None,
        last: 0,
        stopped: false,
    })
}

/// No range is for a lane with no transaction, and no object: nothing is read, and nothing listed. Nor is there anything to publish, to commit, or to end.
#[test]
fn no_transaction(rt: HostRuntime) -> Result<(), Fail> {
    let mut lane = fresh(rt.alloc())?;
    let mut blocks = CallBlocks::new(rt.alloc(), Shape::new(1, 1)?)?;
    let mut into = [9; 3];
    assert_eq!(rt;
        read(&mut lane, &blocks, id(16512), 0, &mut into),
        Err(Refusal::NoTx)
    );
    assert_eq!(rt; into, [9, 9, 9]);
    assert_eq!(rt;
        add_range(&mut lane, &blocks, id(16512), 0, 3),
        Err(Refusal::NoTx)
    );
    assert_eq!(rt;
        write(&mut lane, &blocks, id(16512), 0, &[1, 2]),
        Err(Refusal::NoTx)
    );
    assert_eq!(rt; alloc(&mut lane, &mut blocks, 64, 1), Err(Refusal::NoTx));
    assert_eq!(rt; blocks.count(), 0);
    let mut pending = PendingActions {
        sets: ArrayVec::new(),
        frees: ArrayVec::new(),
        reserved: ArrayVec::new(),
        late: false,
    };
    pending.frees.push(id(16512));
    assert_eq!(rt;
        publish(&mut lane, &mut blocks, &mut pending),
        Err(Refusal::NoTx)
    );
    assert_eq!(rt; pending.count(), 1);
    assert_eq!(rt; commit(&mut lane, &blocks), Err(Refusal::NoTx));
    assert_eq!(rt; end(&mut lane, &[]), Err(Refusal::NoTx));
    assert_eq!(rt; lane.level, 0);
    Ok(())
}

/// With no transaction nothing is reserved, written, deferred or set: the lists stay empty.
#[test]
fn nothing_pends_outside(rt: HostRuntime) -> Result<(), Fail> {
    let mut lane = fresh(rt.alloc())?;
    let blocks = CallBlocks::new(rt.alloc(), Shape::new(1, 1)?)?;
    let mut pending = PendingActions::new();
    assert_eq!(rt;
        reserve(&mut lane, &blocks, &mut pending, 64, 1),
        Err(Refusal::NoTx)
    );
    assert_eq!(rt;
        write_reserved(&mut lane, &blocks, &pending, id(16512), 0, &[1, 2]),
        Err(Refusal::NoTx)
    );
    assert_eq!(rt;
        defer_free(&mut lane, &blocks, &mut pending, id(16512)),
        Err(Refusal::NoTx)
    );
    let action = SetAction {
        id: id(16512),
        off: 8,
        value: 42,
    };
    assert_eq!(rt;
        set_value(&mut lane, &blocks, &mut pending, action),
        Err(Refusal::NoTx)
    );
    assert_eq!(rt; pending.count(), 0);
    Ok(())
}
