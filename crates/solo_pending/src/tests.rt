ghost use Rattle.std.specs.Prelude.{◌≡◌};

use super::*;
use arrayvec::ArrayVec;
use pm_layout::Shape;
use pm_objects::{Oid, Refusal, TxErr};
use pm_record::{Op, Redo};
use solo_world::{Lane, Stage};
use std::test::Fail;

/// Eight bytes from byte 8 on of the root of a pool of one lane become 42.
fn root_word() -> SetAction
    ensures { result ≡ record { id = record { pool = 7; off = 16512 }; off = 8; value = 42 } }
{
    SetAction {
        id: Oid {
            pool: 7,
            off: 16512,
        },
        off: 8,
        value: 42,
    }
}

/// An action is listed behind the others; one at no multiple of eight bytes is refused.
#[test]
fn pends(rt: HostRuntime) -> Result<(), Fail> {
    let mut list = PendingActions::new();
    assert_eq!(rt; list.set(root_word()), Ok(()));
    let odd = SetAction {
        off: 4,
        ..root_word()
    };
    assert_eq!(rt; list.set(odd), Err(Refusal::Unaligned));
    assert_eq!(rt; list.sets.as_slice(), [root_word()].as_slice());
    Ok(())
}

/// The entry of an action is at its place in the pool.
#[test]
fn lists(rt: HostRuntime) -> Result<(), Fail> {
    let mut lane = Lane {
        memory: (),
        pool: 7,
        shape: Shape::new(1, 1)?,
        locks: ArrayVec::new(),
        records: ArrayVec::new(),
        entries: ArrayVec::new(),
        level: 0,
        stage: Stage::None,
        error: TxErr::None,
        drawn: None,
        last: 0,
        stopped: false,
    };
    list_entries(&mut lane, &[root_word()]);
    let entry = Redo {
        place: 16520,
        op: Op::Set,
        value: 42,
    };
    assert_eq!(rt; lane.entries.as_slice(), [entry].as_slice());
    Ok(())
}

/// The root of a pool of one lane, and an object behind it.
const ROOT: Oid = Oid {
    pool: 7,
    off: 16512,
};

const NEXT: Oid = Oid {
    pool: 7,
    off: 20544,
};

/// Reserves so many bytes at an offset, if it may.
fn ask(list: &mut PendingActions, off: u64, size: u64) -> Result<(), Refusal> {
    list.check_reserve(size)?;
    list.reserve(Reserved { off, kind: 3, size });
    Ok(())
}

/// What is asked for of an object that is to be freed already is late; what was asked for before its free is not, nor what is of another.
#[test]
fn late_behind_a_free(rt: HostRuntime) -> Result<(), Fail> {
    let mut list = PendingActions::new();
    assert_eq!(rt; list.set(root_word()), Ok(()));
    assert_eq!(rt; list.defer_free(ROOT), Ok(()));
    assert_eq!(rt; list.defer_free(NEXT), Ok(()));
    assert!(rt; !list.late);
    assert_eq!(rt; list.set(root_word()), Ok(()));
    assert!(rt; list.late);
    list.clear();
    assert!(rt; !list.late && list.count() == 0);
    assert_eq!(rt; list.defer_free(ROOT), Ok(()));
    assert_eq!(rt; list.defer_free(ROOT), Ok(()));
    assert!(rt; list.late && list.count() == 2);
    Ok(())
}

/// No more than 63 actions are pending, of whatever kinds; a place or a size that is wrong is refused before that.
#[test]
fn full_of_mixed_kinds(rt: HostRuntime) -> Result<(), Fail> {
    let mut list = PendingActions::new();
    for at in 0..21 {
        assert_eq!(rt; list.set(root_word()), Ok(()));
        assert_eq!(rt; list.defer_free(NEXT), Ok(()));
        assert_eq!(rt; ask(&mut list, 24576 + 128 * at, 1), Ok(()));
    }
    assert_eq!(rt; list.count(), 63);
    assert_eq!(rt; list.set(root_word()), Err(Refusal::ActionsFull));
    assert_eq!(rt; list.defer_free(NEXT), Err(Refusal::ActionsFull));
    assert_eq!(rt; list.check_reserve(1), Err(Refusal::ActionsFull));
    assert_eq!(rt; list.check_reserve(0), Err(Refusal::BadSize));
    let odd = SetAction {
        off: 4,
        ..root_word()
    };
    assert_eq!(rt; list.set(odd), Err(Refusal::Unaligned));
    assert_eq!(rt; list.count(), 63);
    Ok(())
}

/// An object has 1 to 262,080 bytes. Bytes are written into what is reserved, in its pool, up to its end.
#[test]
fn sizes_and_ends(rt: HostRuntime) -> Result<(), Fail> {
    let mut list = PendingActions::new();
    for (size, answer) in [
        (0, Err(Refusal::BadSize)),
        (1, Ok(())),
        (262_080, Ok(())),
        (262_081, Err(Refusal::BadSize)),
        (u64::MAX, Err(Refusal::BadSize)),
    ] {
        assert_eq!(rt; list.check_reserve(size), answer);
    }
    assert_eq!(rt; ask(&mut list, NEXT.off, 100), Ok(()));
    for (pool, id, off, len, answer) in [
        (7, NEXT, 0, 100, Ok(())),
        (7, NEXT, 92, 8, Ok(())),
        (7, NEXT, 100, 0, Ok(())),
        (7, NEXT, 92, 9, Err(Refusal::OutOfRange)),
        (7, NEXT, 101, 0, Err(Refusal::OutOfRange)),
        (7, NEXT, u64::MAX, 1, Err(Refusal::OutOfRange)),
        (7, NEXT, 1, u64::MAX, Err(Refusal::OutOfRange)),
        (8, NEXT, 0, 1, Err(Refusal::NotReserved)),
        (7, ROOT, 0, 1, Err(Refusal::NotReserved)),
    ] {
        assert_eq!(rt; list.check_put(pool, id, off, len), answer);
    }
    list.clear();
    assert_eq!(rt; list.check_put(7, NEXT, 0, 1), Err(Refusal::NotReserved));
    Ok(())
}
