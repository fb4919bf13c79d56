use super::*;
use arrayvec::ArrayVec;
use pm_layout::Shape;
use pm_objects::{Oid, Refusal, Want};
use pm_world::HeldLock;
use std::test::Fail;

/// A lock is planned where there is room for it.
#[test]
fn a_lock_is_planned(rt: HostRuntime) -> Result<(), Fail> {
    let mut plan = ArrayVec::new();
    assert!(rt; plan_lock(&mut plan, 9, true, 1).is_ok());
    let expected = [HeldLock {
        line: 9,
        write: true,
    }];
    assert_eq!(rt; plan.as_slice(), expected.as_slice());
    Ok(())
}

/// Where there is none the plan stays.
#[test]
fn one_lock_too_many(rt: HostRuntime) -> Result<(), Fail> {
    let mut plan = ArrayVec::new();
    assert_eq!(rt; plan_lock(&mut plan, 9, false, 0), Err(Refusal::LocksFull));
    assert!(rt; plan.is_empty());
    Ok(())
}

/// The root of a pool of one lane and one zone has its lock in the line before its first byte; an id
/// of another pool has none there, and neither has an offset at which no block begins.
#[test]
fn an_object_has_its_lock(rt: HostRuntime) -> Result<(), Fail> {
    let shape = Shape::new(1, 1).ok().ok_or("a shape")?;
    assert_eq!(rt;
        line_of(
            shape,
            7,
            Oid {
                pool: 7,
                off: 16512
            }
        ),
        Some(257)
    );
    assert_eq!(rt;
        line_of(
            shape,
            7,
            Oid {
                pool: 8,
                off: 16512
            }
        ),
        None
    );
    assert_eq!(rt;
        line_of(
            shape,
            7,
            Oid {
                pool: 7,
                off: 16513
            }
        ),
        None
    );
    Ok(())
}

/// Two wants of one object are one lock, for writing where one of them is.
#[test]
fn wants_of_one_object_are_one_lock(rt: HostRuntime) -> Result<(), Fail> {
    let shape = Shape::new(1, 1).ok().ok_or("a shape")?;
    let root = Oid {
        pool: 7,
        off: 16512,
    };
    let wants = [
        Want {
            id: root,
            write: false,
        },
        Want {
            id: root,
            write: true,
        },
    ];
    let mut plan = ArrayVec::new();
    assert!(rt; plan_wants(shape, 7, &[], &[], &wants, &mut plan).is_ok());
    let expected = [HeldLock {
        line: 257,
        write: true,
    }];
    assert_eq!(rt; plan.as_slice(), expected.as_slice());
    Ok(())
}
