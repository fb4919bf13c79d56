use super::*;
use crate::checking::judge;
use crate::reading::copy_bytes;
use crate::writing::patched_word;
use arrayvec::ArrayVec;
use pm_objects::{Oid, Refusal};
use pm_record::{Op, Redo};
use pm_world::{HeldLock, PendingAction};
use std::test::Fail;

/// Bytes cover the words that have some of them: none, one, or two that they end in.
#[test]
fn words_of_a_range(rt: HostRuntime) -> Result<(), Fail> {
    assert_eq!(rt; count_words(8, 0), 0);
    assert_eq!(rt; count_words(8, 8), 1);
    assert_eq!(rt; count_words(6, 4), 2);
    Ok(())
}

/// Four bytes from the seventh of a word on: it keeps its first six, and the next word its last six.
#[test]
fn bytes_beside_a_range_stay(rt: HostRuntime) -> Result<(), Fail> {
    let bytes = [0xaa, 0xbb, 0xcc, 0xdd];
    assert_eq!(rt;
        patched_word(6, &bytes, 0, 0x1122334455667788),
        0xbbaa334455667788
    );
    assert_eq!(rt;
        patched_word(6, &bytes, 1, 0x1122334455667788),
        0x112233445566ddcc
    );
    Ok(())
}

/// Four bytes from the seventh of a word on: the last two of this word, and the first two of the
/// next.
#[test]
fn bytes_of_two_words(rt: HostRuntime) -> Result<(), Fail> {
    let mut into = [0; 4];
    copy_bytes(&mut into, 6, 0, 0x1122334455667788);
    assert_eq!(rt; into, [0x22, 0x11, 0, 0]);
    copy_bytes(&mut into, 6, 1, 0xaabbccddeeff0011);
    assert_eq!(rt; into, [0x22, 0x11, 0x11, 0x00]);
    Ok(())
}

/// A range of an object that is not locked is refused for that, wherever it ends.
#[test]
fn ranges_are_judged(rt: HostRuntime) -> Result<(), Fail> {
    assert_eq!(rt; judge(false, 16, 8, 16), Err(Refusal::NotLocked));
    assert_eq!(rt; judge(true, 16, 8, 8), Ok(()));
    assert_eq!(rt; judge(true, 16, 8, 9), Err(Refusal::OutOfRange));
    assert_eq!(rt; judge(true, 16, u64::MAX, 2), Err(Refusal::OutOfRange));
    Ok(())
}

/// A lock for reading serves for reading alone, and of its own object.
#[test]
fn locks_are_of_an_object(rt: HostRuntime) -> Result<(), Fail> {
    let locks = [HeldLock {
        line: 1,
        write: false,
    }];
    assert_eq!(rt; is_held(&locks, 128, false), true);
    assert_eq!(rt; is_held(&locks, 128, true), false);
    assert_eq!(rt; is_held(&locks, 192, false), false);
    assert_eq!(rt; is_held(&locks, 136, false), false);
    Ok(())
}

/// Two words become two entries, after the one that was there.
#[test]
fn words_become_entries(rt: HostRuntime) -> Result<(), Fail> {
    let id = Oid {
        pool: 7,
        off: 16704,
    };
    let mut pending = ArrayVec::new();
    pending.push(PendingAction::Set {
        id,
        off: 8,
        value: 42,
    });
    pending.push(PendingAction::Set {
        id,
        off: 16,
        value: 43,
    });
    let first = Redo {
        place: 16640,
        op: Op::Set,
        value: 41,
    };
    let mut entries = ArrayVec::new();
    entries.push(first);
    enter_words(&mut pending, &mut entries);
    assert!(rt; pending.is_empty());
    assert_eq!(rt; entries.len(), 3);
    assert_eq!(rt; entries[0].value, 41);
    assert_eq!(rt; entries[1].place, 16712);
    assert_eq!(rt; entries[2].place, 16720);
    assert_eq!(rt; entries[2].value, 43);
    Ok(())
}
