use super::*;

/// The record of generation 1 at place 16512 and the empty slot, and slots with one word changed; the sum is worked
/// by hand.
#[test]
fn undo_by_hand(rt: HostRuntime) {
    let undo = Undo {
        generation: 1,
        place: 16512,
        count: 1,
        old: [0; 4],
    };
    let words = [1, 16512, 1, 0, 0, 0, 0, 0x0003_0618_0000_4082];
    let mut slot = [9; 8];
    undo.encode(&mut slot);
    assert_eq!(rt; slot, words);
    assert_eq!(rt; Undo::decode(&words), Some(undo));
    let zeros = Undo {
        generation: 0,
        place: 0,
        count: 0,
        old: [0; 4],
    };
    assert_eq!(rt; Undo::decode(&[0; 8]), Some(zeros));
    for at in 0..8 {
        let mut torn = words;
        torn[at] ^= 1;
        assert_eq!(rt; Undo::decode(&torn), None, "word {at}");
    }
}

/// The three operations at place 4096, each with the value 10 on the word 12, and no fourth.
#[test]
fn redo_by_hand(rt: HostRuntime) {
    let table = [
        (4096, Op::Set, u64::MAX, 0b1010),
        (4097, Op::Or, 0b1010, 0b1110),
        (4098, Op::And, 0xffff_ffff_ffff_fff5, 0b1000),
    ];
    for (first, op, mask, after) in table {
        let entry = Redo {
            place: 4096,
            op,
            value: 0b1010,
        };
        let mut pair = [9; 2];
        entry.encode(&mut pair);
        assert_eq!(rt; pair, [first, 0b1010], "{op:?}");
        assert_eq!(rt; Redo::decode(&pair), Some(entry), "{op:?}");
        assert_eq!(rt; entry.mask(), mask, "{op:?}");
        assert_eq!(rt; apply(&entry, 0b1100), after, "{op:?}");
    }
    let seven = Redo {
        place: 4096,
        op: Op::Or,
        value: 7,
    };
    assert_eq!(rt; Redo::decode(&[4097, 7]), Some(seven));
    assert_eq!(rt; Redo::decode(&[4099, 7]), None);
    records_and_entries_agree();
}
