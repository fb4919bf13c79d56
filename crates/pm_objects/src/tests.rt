use super::*;
use std::test::Fail;

/// Each refusal's number and its printed name, from the list of refusals.
#[test]
fn refusals(rt: HostRuntime) -> Result<(), Fail> {
    let table = [
        (Refusal::NotWork, 1, "NotWork"),
        (Refusal::InTx, 2, "InTx"),
        (Refusal::NoTx, 3, "NoTx"),
        (Refusal::BadSize, 4, "BadSize"),
        (Refusal::NoObject, 5, "NoObject"),
        (Refusal::NotLocked, 6, "NotLocked"),
        (Refusal::OutOfRange, 7, "OutOfRange"),
        (Refusal::NotAdded, 8, "NotAdded"),
        (Refusal::LogFull, 9, "LogFull"),
        (Refusal::ActionsFull, 10, "ActionsFull"),
        (Refusal::NoSpace, 11, "NoSpace"),
        (Refusal::Listed, 12, "Listed"),
        (Refusal::Busy, 13, "Busy"),
        (Refusal::Spent, 14, "Spent"),
        (Refusal::Stopped, 15, "Stopped"),
        (Refusal::NotInList, 16, "NotInList"),
        (Refusal::Short(3), 17, "Short 3"),
        (Refusal::RootKept, 18, "RootKept"),
        (Refusal::Deep, 19, "Deep"),
        (Refusal::LocksFull, 20, "LocksFull"),
        (Refusal::Unaligned, 21, "Unaligned"),
        (Refusal::NotReserved, 22, "NotReserved"),
    ];
    for (refusal, number, text) in table {
        assert_eq!(rt; refusal.number(), number, "{text}");
        let shown = refusal.to_string(rt.alloc())?;
        assert_eq!(rt; shown.as_bytes(), text.as_bytes());
    }
    let aborted = TxErr::Refused(Refusal::LogFull).to_string(rt.alloc())?;
    assert_eq!(rt; aborted.as_str(), "LogFull");
    let canceled = TxErr::Canceled.to_string(rt.alloc())?;
    assert_eq!(rt; canceled.as_str(), "ECANCELED");
    let user = TxErr::User(7).to_string(rt.alloc())?;
    assert_eq!(rt; user.as_str(), "7");
    Ok(())
}

#[test]
fn ids_lists_and_stops(rt: HostRuntime) -> Result<(), Fail> {
    assert_eq!(rt; Oid::NULL.is_null(), true);
    assert_eq!(rt; Oid { pool: 7, off: 0 }.is_null(), false);
    assert_eq!(rt;
        Oid {
            pool: 0,
            off: 16512
        }
        .is_null(),
        false
    );

    let bytes = Sequence::from_vec(vec![in rt.alloc(); 1, 2, 3]?);
    assert_eq!(rt; bytes.as_slice(), [1, 2, 3].as_slice());
    assert_eq!(rt; bytes.into_vec().as_slice(), [1, 2, 3].as_slice());

    let mut stops = Stops::none();
    stops.set(31, 14);
    assert_eq!(rt; stops.of_lane(31), Some(14));
    assert_eq!(rt; stops.of_lane(0), None);
    objects_are_a_map();
    Ok(())
}
