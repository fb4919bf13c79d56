use super::*;
use crate::entries::end;
use arrayvec::ArrayVec;
use pm_layout::Shape;
use pm_model::Stage;
use pm_objects::{Refusal, TxErr};
use pm_record::{Op, Redo};
use pm_world::{Lane, OwnedBits, UndoLog};
use std::alloc::Global;
use std::test::Fail;

/// A lane of a pool of two lanes, with no entry and no memory: its list alone is tried.
fn lane(alloc: Global) -> Result<Lane<()>, Fail> {
    Ok(Lane {
        memory: (),
        pool: 7,
        shape: Shape::new(2, 1)?,
        locks: ArrayVec::new(),
        log: UndoLog {
            generation: 1,
            records: ArrayVec::new(),
        },
        entries: ArrayVec::new(),
        pending: ArrayVec::new(),
        reserved: OwnedBits::new(alloc, 0)?,
        freed: OwnedBits::new(alloc, 0)?,
        level: 1,
        stage: Stage::Work,
        error: TxErr::None,
        drawn: None,
        last: 0,
        stopped: false,
    })
}

/// An entry is listed after those before it, and a list has room for 63.
#[test]
fn entries_are_put(rt: HostRuntime) -> Result<(), Fail> {
    let mut lane = lane(rt.alloc())?;
    for i in 0..63 {
        let entry = Redo {
            place: 8 * i,
            op: Op::Or,
            value: 1,
        };
        assert_eq!(rt; put(&mut lane, entry), Ok(()));
    }
    let entry = Redo {
        place: 512,
        op: Op::Set,
        value: 0,
    };
    assert_eq!(rt; put(&mut lane, entry), Err(Refusal::ActionsFull));
    assert_eq!(rt; lane.entries.len(), 63);
    assert_eq!(rt; lane.entries.as_slice().last().map(|e| e.place), Some(496));
    Ok(())
}

/// The entry that ends generation 1 of lane 1 SETs byte 12288 to 2.
#[test]
fn the_last_entry(rt: HostRuntime) -> Result<(), Fail> {
    let mut pair = [0; 2];
    end(Shape::new(2, 1)?, 1, 1).encode(&mut pair);
    assert_eq!(rt; pair, [12288, 2]);
    Ok(())
}
