ghost use Rattle.std.specs.Prelude.{◌≡◌, ◌<◌, length, IfOk};

use super::*;
use pm_raw::RawImage;
use pm_record::{Op, Redo, Undo};
use std::alloc::{AllocError, Global};
use std::test::Fail;

/// Words of the least pool: one lane, whose area begins at word 512, and one zone.
const WORDS: u64 = 34_816;

/// An image of that length in which the lane has the generation 5, and word 2064 is 9.
fn image(alloc: Global) -> Result<RawImage, AllocError>
    ensures { IfOk result (λ image. length image ≡ 34816) }
{
    let mut image = RawImage::new(alloc, WORDS)?;
    image.set(512, 5);
    image.set(2064, 9);
    Ok(image)
}

/// Writes a record into a slot of the lane: two words from place 16512 (word 2064) on were 71 and 72.
#[tactic(auto, using(pm_raw::proofs::LineWrites::length_with_line))]
fn put_record(image: &mut RawImage, line: u64, generation: u64, last: u64)
    requires lines { line < 200 }
    requires room { length image.old ≡ 34816 }
    ensures { length image.new ≡ 34816 }
{
    let record = Undo {
        generation,
        place: 16_512,
        count: 2,
        old: [71, 72, 0, 0],
    };
    let mut slot = [0; 8];
    record.encode(&mut slot);
    if last != 0 {
        slot[7] = last;
    }
    image.line_mut(line).copy_from_slice(&slot);
}

/// Recovered words by hand: what a valid record restores, and that an older, a later or a torn one restores nothing.
#[test]
fn records(rt: HostRuntime) -> Result<(), Fail> {
    let table = [
        (81, 5, 0, 71, 72),
        (144, 5, 0, 71, 72),
        (81, 4, 0, 9, 0),
        (81, 6, 0, 9, 0),
        (81, 5, 1, 9, 0),
        (145, 5, 0, 9, 0),
    ];
    for (line, generation, last, first, second) in table {
        let mut image = image(rt.alloc())?;
        put_record(&mut image, line, generation, last);
        assert_eq!(rt;
            recovered(&image, 2064),
            first,
            "line {line}, generation {generation}"
        );
        assert_eq!(rt;
            recovered(&image, 2065),
            second,
            "line {line}, generation {generation}"
        );
        assert_eq!(rt; recovered(&image, 2066), 0);
    }
    Ok(())
}

/// A sealed lane's entries for a word are applied in order, and a record that covers it, of the generation that the last entry
/// sets, gives way to them.
#[test]
fn entries(rt: HostRuntime) -> Result<(), Fail> {
    let mut image = image(rt.alloc())?;
    let table = [
        (Op::Or, 16_512, 6),
        (Op::And, 16_512, 12),
        (Op::Set, 16_520, 3),
        (Op::Set, 4096, 6),
    ];
    for (i, (op, place, value)) in table.into_iter().enumerate() {
        let mut pair = [0; 2];
        let entry = Redo { place, op, value };
        assert_eq!(rt; entry.place % 8, 0);
        entry.encode(&mut pair);
        assert!(rt; i < 4);
        assert_eq!(rt; image.len(), WORDS);
        image.set(520 + 2 * i as u64, pair[0]);
        image.set(521 + 2 * i as u64, pair[1]);
    }
    assert_eq!(rt; image.len(), WORDS);
    assert_eq!(rt; recovered(&image, 2064), 9);
    image.set(513, 4);
    put_record(&mut image, 81, 6, 0);
    assert_eq!(rt; recovered(&image, 2064), 12);
    assert_eq!(rt; recovered(&image, 2065), 3);
    assert_eq!(rt; recovered(&image, 512), 6);
    image.set(513, 65);
    assert_eq!(rt; recovered(&image, 2064), 9);
    Ok(())
}

/// An image of no pool's length has no lanes.
#[test]
fn no_pool(rt: HostRuntime) -> Result<(), Fail> {
    let mut image = RawImage::new(rt.alloc(), 600)?;
    image.set(599, 7);
    assert_eq!(rt; recovered(&image, 599), 7);
    Ok(())
}
