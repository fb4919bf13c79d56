use super::*;
use crate::lock_word::{given, raised, read_taken, write_taken};
use std::alloc::Global;
use std::test::Fail;

/// A memory of sixteen words and two lanes. Lane 0 stores 1, 2 and 3 in word 9 and two bits of
/// word 2; lane 1 clears a bit of word 2 and stores in word 5. Word 2 was 0b1100, the others 0.
fn two_lanes(alloc: Global) -> Result<Memory, Fail> {
    let mut words = vec![in alloc; 0; 16]?;
    words[2] = 0b1100;
    let mut memory = Memory::new(alloc, words, 2)?;
    memory.store(0, 9, 1);
    memory.or(0, 2, 0b0001);
    memory.store(0, 9, 2);
    memory.store(0, 9, 3);
    memory.or(0, 2, 0b0010);
    memory.and(1, 2, u64::MAX - 0b0100);
    memory.store(1, 5, 70);
    Ok(memory)
}

/// A flush of word 9's line and a drain leave only what was done to word 2 undrained.
#[test]
fn drains(rt: HostRuntime) -> Result<(), Fail> {
    let words = vec![in rt.alloc(); 0; 16]?;
    let mut memory = Memory::new(rt.alloc(), words, 2)?;
    memory.store(1, 9, 4);
    memory.flush(1, 1);
    assert_eq!(rt; memory.or(1, 2, 3), 0);
    assert_eq!(rt; memory.and(1, 2, 1), 3);
    memory.drain(1);
    assert_eq!(rt; [memory.load(0, 9), memory.load(0, 2)], [4, 1]);
    let image = memory.survive(rt.alloc(), 0)?;
    assert_eq!(rt; image.len(), 16);
    assert_eq!(rt; [image[9], image[2]], [4, 0]);
    Ok(())
}

/// By hand: the pairs in order are (lane 0, word 2), (0, 9), (1, 2), (1, 5), of 2, 3, 1 and 1
/// changes. Of these 4 keeps 2, 0, 0 and 1, 5 keeps 1, 1, 0 and 1, 7 keeps all, and 11 keeps 1, 3,
/// 1 and 0.
#[test]
fn survivors(rt: HostRuntime) -> Result<(), Fail> {
    let memory = two_lanes(rt.alloc())?;
    let table = [
        (0, [0b1100, 0, 0]),
        (1, [0b1011, 70, 3]),
        (4, [0b1111, 70, 0]),
        (5, [0b1101, 70, 1]),
        (7, [0b1011, 70, 3]),
        (11, [0b1001, 0, 3]),
    ];
    for (keep, [two, five, nine]) in table {
        let image = memory.survive(rt.alloc(), keep)?;
        assert_eq!(rt; image.len(), 16);
        assert_eq!(rt;
            [image[2], image[5], image[9]],
            [two, five, nine],
            "keep {keep}"
        );
    }
    Ok(())
}

/// A change of these bits of a word, not flushed.
fn change(word: u64, mask: u64, old: u64, new: u64) -> Change {
    Change {
        word,
        mask,
        old,
        new,
        flushed: false,
    }
}

/// The words and changes of `survivors`, as two lanes come back with them, leave the same.
#[test]
fn crashes(rt: HostRuntime) -> Result<(), Fail> {
    let table = [
        (0, [0b1100, 0, 0]),
        (1, [0b1011, 70, 3]),
        (4, [0b1111, 70, 0]),
        (11, [0b1001, 0, 3]),
    ];
    let first = [
        change(9, u64::MAX, 0, 1),
        change(2, 0b0001, 0, 0b0001),
        change(9, u64::MAX, 1, 2),
        change(9, u64::MAX, 2, 3),
        change(2, 0b0010, 0, 0b0010),
    ];
    let second = [change(2, 0b0100, 0b0100, 0), change(5, u64::MAX, 0, 70)];
    for (keep, [two, five, nine]) in table {
        let mut words = vec![in rt.alloc(); 0; 16]?;
        words[2] = 0b1011;
        words[5] = 70;
        words[9] = 3;
        let mut undrained = Vec::new(rt.alloc());
        undrained.push(Vec::from_slice(rt.alloc(), &first)?)?;
        undrained.push(Vec::from_slice(rt.alloc(), &second)?)?;
        let image = crash(words, &undrained, keep);
        assert_eq!(rt; image.len(), 16);
        assert_eq!(rt;
            [image[2], image[5], image[9]],
            [two, five, nine],
            "keep {keep}"
        );
    }
    Ok(())
}

/// A flushed and drained line survives; a change that is not drained is lost where none is kept.
#[test]
fn persists(rt: HostRuntime) -> Result<(), Fail> {
    let words = vec![in rt.alloc(); 0; 16]?;
    let mut memory = SoloMem::new(rt.alloc(), words, None)?;
    assert_eq!(rt; memory.store(11, 2), Ok(()));
    assert_eq!(rt; memory.flush(1), Ok(()));
    assert_eq!(rt; memory.store(3, 1), Ok(()));
    assert_eq!(rt; memory.unflushed(), Some(0));
    assert_eq!(rt; memory.drain(), Ok(()));
    assert_eq!(rt; memory.undrained(), 1);
    let image = memory.survive(rt.alloc(), 0)?;
    assert_eq!(rt; image.len(), 16);
    assert_eq!(rt; [image[3], image[11]], [0, 2]);
    Ok(())
}

/// Four counted calls are made, loads among them are not counted, and the fifth is the stop.
#[test]
fn stops(rt: HostRuntime) -> Result<(), Fail> {
    let words = vec![in rt.alloc(); 0; 16]?;
    let mut memory = SoloMem::new(rt.alloc(), words, Some(4))?;
    assert_eq!(rt; memory.store(3, 0b0101), Ok(()));
    assert_eq!(rt; memory.or(3, 0b0110), Ok(0b0101));
    assert_eq!(rt; memory.load(3), 0b0111);
    assert_eq!(rt; memory.and(3, 0b1110), Ok(0b0111));
    assert_eq!(rt; memory.load(3), 0b0110);
    assert_eq!(rt; memory.drain(), Ok(()));
    assert_eq!(rt; memory.calls(), 4);
    assert_eq!(rt; memory.stop_seen(), false);
    assert_eq!(rt; memory.store(3, 9), Err(Stopped));
    assert_eq!(rt; memory.calls(), 4);
    assert_eq!(rt; memory.stop_seen(), true);
    assert_eq!(rt; memory.load(3), 0b0110);
    assert_eq!(rt; [memory.lane(), memory.words()], [0, 16]);
    Ok(())
}

/// A lock word after each try of lanes 0 and 3, a reader's bit low and a writer's high.
#[test]
fn lock_words(rt: HostRuntime) -> Result<(), Fail> {
    let both_read = read_taken(3, 0b1).ok_or("a second reader was refused")?;
    assert_eq!(rt; both_read, 0b1001);
    assert_eq!(rt; read_taken(0, 0), Some(0b1));
    assert_eq!(rt; write_taken(0, 0), Some(0x1_0000_0000));
    assert_eq!(rt; write_taken(3, 0), Some(0x8_0000_0000));
    assert_eq!(rt; write_taken(3, 0b1), None, "a writer beside a reader");
    assert_eq!(rt; write_taken(3, 0x1_0000_0000), None, "a second writer");
    assert_eq!(rt;
        read_taken(3, 0x1_0000_0000),
        None,
        "a reader beside a writer"
    );
    assert_eq!(rt; raised(0, 0b1), Some(0x1_0000_0000));
    assert_eq!(rt; raised(0, 0b1001), None, "raised beside another reader");
    assert_eq!(rt; given(0, 0b1001), 0b1000);
    assert_eq!(rt; given(3, 0x8_0000_0000), 0);
    Ok(())
}

/// The lock word of line 7 after each call of one lane, and zone 2's lock.
#[test]
fn locks(rt: HostRuntime) -> Result<(), Fail> {
    let words = vec![in rt.alloc(); 0; 64]?;
    let mut memory = SoloMem::new(rt.alloc(), words, None)?;
    assert_eq!(rt; memory.take_read(7), true);
    assert_eq!(rt; memory.lock_word(7), 0x1);
    assert_eq!(rt; memory.raise(7), true);
    assert_eq!(rt; memory.lock_word(7), 0x1_0000_0000);
    memory.give(7);
    assert_eq!(rt; memory.lock_word(7), 0);
    assert_eq!(rt; memory.take_write(7), true);
    assert_eq!(rt; memory.lock_word(7), 0x1_0000_0000);
    memory.give(7);
    assert_eq!(rt; memory.lock_word(7), 0);
    assert_eq!(rt; memory.zone_try(2), true);
    assert_eq!(rt; memory.zone_lock(2), true);
    memory.zone_give(2);
    assert_eq!(rt; memory.zone_lock(2), false);
    Ok(())
}

/// The occupancy word of the run at byte 4096.
#[test]
fn run_words(rt: HostRuntime) -> Result<(), Fail> {
    let words = vec![in rt.alloc(); 0; 1024]?;
    let mut memory = SoloMem::new(rt.alloc(), words, None)?;
    let run = Occ::Run(4096);
    assert_eq!(rt; memory.occupy(run, 0b1110), true);
    memory.vacate(run, 0b0101);
    assert_eq!(rt; memory.occupied(run), 0b1010);
    assert_eq!(rt; memory.occupy(run, 0b1100), false, "a bit is taken");
    Ok(())
}

/// A memory of two pages that is given its occupancy words: page 1 has blocks 0 and 2, zone 3
/// chunk 63.
#[test]
fn given_occupancy(rt: HostRuntime) -> Result<(), Fail> {
    let words = vec![in rt.alloc(); 0; 1024]?;
    let mut runs = vec![in rt.alloc(); 0; 2]?;
    runs[1] = 0b101;
    let mut zones = vec![in rt.alloc(); 0; 32]?;
    zones[3] = 1 << 63;
    let memory = SoloMem::new(rt.alloc(), words, None)?;
    let mut memory = memory.with_occupancy(runs, zones);
    assert_eq!(rt; memory.occupied(Occ::Run(4096)), 0b101);
    assert_eq!(rt; memory.occupied(Occ::Zone(3)), 0x8000_0000_0000_0000);
    assert_eq!(rt;
        memory.occupy(Occ::Run(4096), 0b100),
        false,
        "block 2 is taken"
    );
    Ok(())
}

/// The occupancy word of zone 1, the commit counter and the stop word.
#[test]
fn volatile_words(rt: HostRuntime) -> Result<(), Fail> {
    let words = vec![in rt.alloc(); 0; 64]?;
    let mut memory = SoloMem::new(rt.alloc(), words, None)?;
    assert_eq!(rt; memory.occupy(Occ::Zone(1), 0b11), true);
    assert_eq!(rt; memory.occupied(Occ::Zone(1)), 0b11);
    assert_eq!(rt; memory.number_seen(), 0);
    assert_eq!(rt; memory.draw(), 0);
    assert_eq!(rt; memory.number_seen(), 1);
    memory.set_stop();
    assert_eq!(rt; memory.stop_seen(), true);
    Ok(())
}
