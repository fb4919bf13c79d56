ghost use Rattle.std.specs.Prelude.{◌≡◌, ◌<◌, length, IfOk};

use super::*;
use pm_header::{Header, Name, encode};
use pm_image::ImageFault;
use pm_layout::PAGE_WORDS;
use pm_raw::RawImage;
use pm_record::Undo;
use std::alloc::Global;
use std::process::Abort;
use std::test::Fail;

/// Words of the least pool: one lane, whose area begins at word 512, and one zone.
const WORDS: u64 = 34_816;

/// The word of the lane's generation.
const GENERATION: u64 = 512;

/// The word of its seal.
const SEAL: u64 = 513;

/// A word of the first chunk.
const WORD: u64 = 2064;

/// The line of the lane's first undo slot.
const FIRST_SLOT: u64 = 81;

/// What a test puts into a slot: its line, generation and last word, 0 for the record's own sum.
type Slot = (u64, u64, u64);

/// The header page of an empty pool of that length.
fn page() -> Result<[u64; PAGE_WORDS as usize], Fail> {
    let name = Name::new("demo".as_bytes()).ok_or("a name")?;
    let header = Header {
        version: 1,
        id: 7,
        lanes: 1,
        zones: 1,
        bytes: 8 * WORDS,
        name,
    };
    let mut page = [0; PAGE_WORDS as usize];
    encode(&header, &mut page);
    Ok(page)
}

/// The empty pool with this generation and these slots; word 2064 is 9.
fn pool(alloc: Global, generation: u64, slots: &[Slot]) -> Result<RawImage, Fail>
    ensures { IfOk result (λ image. length image ≡ 34816) }
{
    let mut image = RawImage::new(alloc, WORDS)?;
    let page = page()?;
    for i in 0..PAGE_WORDS as usize {
        image.set(i as u64, page[i]);
    }
    image.set(GENERATION, generation);
    image.set(WORD, 9);
    for (line, generation, last) in slots {
        put_record(&mut image, *line, *generation, *last);
    }
    Ok(image)
}

/// Writes a record into a line: two words, which were 71 and 72, those from 2064 on in the first slot, the next two in the second, and so on.
#[tactic(auto, using(pm_raw::proofs::LineWrites::length_with_line))]
fn put_record(image: &mut RawImage, line: u64, generation: u64, last: u64)
    requires { length image.old ≡ 34816 }
    ensures { length image.new ≡ 34816 }
{
    if !(FIRST_SLOT..FIRST_SLOT + 64).contains(&line) {
        return;
    }
    let record = Undo {
        generation,
        place: 8 * WORD + 16 * (line - FIRST_SLOT),
        count: 2,
        old: [71, 72, 0, 0],
    };
    let mut slot = [0; 8];
    record.encode(&mut slot);
    if last != 0 {
        slot[7] = last;
    }
    image.line_mut(line).copy_from_slice(&slot);
}

/// Compares some words of the image.
fn has_words(rt: &impl Abort, image: &RawImage, words: &[(u64, u64)], what: usize) {
    for (word, value) in words {
        assert!(rt; *word < image.len());
        assert_eq!(rt; image.word(*word), *value, "word {word} of case {what}");
    }
}

/// Recovers the image, which has no fault.
fn recovers(rt: &impl Abort, alloc: Global, image: &mut RawImage, what: usize) {
    assert!(rt; recover(alloc, image) == Ok(()), "case {what}");
}

/// Slots of the lane by hand: the words and the generation afterwards, and in the last two cases the slots, of which a stray record's is cleared.
#[test]
fn slots(rt: HostRuntime) -> Result<(), Fail> {
    let alloc = rt.alloc();
    let table: [(u64, &[Slot], &[(u64, u64)]); 10] = [
        (5, &[], &[(GENERATION, 5), (WORD, 9)]),
        (
            5,
            &[(81, 5, 0)],
            &[(GENERATION, 6), (WORD, 71), (WORD + 1, 72), (WORD + 2, 0)],
        ),
        (
            5,
            &[(144, 5, 0)],
            &[
                (GENERATION, 6),
                (WORD, 9),
                (WORD + 126, 71),
                (WORD + 127, 72),
            ],
        ),
        (
            5,
            &[(81, 5, 0), (82, 5, 0)],
            &[(GENERATION, 6), (WORD, 71), (WORD + 1, 72), (WORD + 2, 71)],
        ),
        (
            5,
            &[(81, 4, 0)],
            &[(GENERATION, 5), (WORD, 9), (WORD + 1, 0)],
        ),
        (
            5,
            &[(81, 5, 1)],
            &[(GENERATION, 6), (WORD, 9), (WORD + 1, 0)],
        ),
        (
            5,
            &[(81, 5, 1), (82, 5, 0)],
            &[(GENERATION, 6), (WORD, 9), (WORD + 2, 71)],
        ),
        (1 << 62, &[(81, 5, 1)], &[(GENERATION, 1 << 62), (WORD, 9)]),
        (
            5,
            &[(81, 6, 0), (82, 4, 0)],
            &[(GENERATION, 5), (WORD, 9), (648, 0), (655, 0), (656, 4)],
        ),
        (
            5,
            &[(81, 5, 0), (82, 6, 0)],
            &[(GENERATION, 6), (WORD, 71), (648, 5), (656, 0)],
        ),
    ];
    for (what, (generation, slots, words)) in table.into_iter().enumerate() {
        let mut image = pool(alloc, generation, slots)?;
        recovers(&rt, alloc, &mut image, what);
        has_words(&rt, &image, words, what);
    }
    Ok(())
}

/// Seals the lane with these entries, each a place with its operation and a value.
fn put_entries(image: &mut RawImage, entries: &[(u64, u64)])
    requires { length image.old ≡ 34816 }
    ensures { length image.new ≡ 34816 }
{
    let mut at = SEAL + 7;
    for (place, value) in entries {
        if at < WORDS - 1 {
            image.set(at, *place);
            image.set(at + 1, *value);
            at += 2;
        }
    }
    image.set(SEAL, entries.len() as u64);
}

/// Entries of the lane by hand, SET 0, OR 1 and AND 2: they are applied in order, the last one is the generation, and the lane is
/// sealed no more. A torn slot, or a record of an earlier generation, counts for nothing then.
#[test]
fn entries(rt: HostRuntime) -> Result<(), Fail> {
    let alloc = rt.alloc();
    let place = 8 * WORD;
    let table: [(&[(u64, u64)], &[Slot], &[(u64, u64)]); 4] = [
        (&[(4096, 6)], &[(81, 5, 1)], &[(GENERATION, 6), (WORD, 9)]),
        (
            &[(place, 12), (place + 1, 3), (place + 2, 7), (4096, 6)],
            &[(81, 5, 0)],
            &[(GENERATION, 6), (WORD, 7), (WORD + 1, 0)],
        ),
        (
            &[(place + 1, 6), (place + 8, 1), (4096, 6)],
            &[],
            &[(GENERATION, 6), (WORD, 15), (WORD + 1, 1)],
        ),
        (
            &[(place, 1), (4096, 5)],
            &[(81, 4, 0)],
            &[(GENERATION, 5), (WORD, 1)],
        ),
    ];
    for (what, (entries, slots, words)) in table.into_iter().enumerate() {
        let mut image = pool(alloc, 5, slots)?;
        put_entries(&mut image, entries);
        recovers(&rt, alloc, &mut image, what);
        has_words(&rt, &image, &[(SEAL, 0)], what);
        has_words(&rt, &image, words, what);
    }
    Ok(())
}

/// A pool whose lane left nothing stays, word for word.
#[test]
fn nothing_left(rt: HostRuntime) -> Result<(), Fail> {
    let alloc = rt.alloc();
    let mut image = pool(alloc, 5, &[(FIRST_SLOT, 4, 0)])?;
    let before = image.copy(alloc)?;
    recovers(&rt, alloc, &mut image, 0);
    assert!(rt; image.words(0, image.len()) == before.words(0, before.len()));
    Ok(())
}

/// A second recovery changes nothing, but for the generation where a slot is torn.
#[test]
fn twice(rt: HostRuntime) -> Result<(), Fail> {
    let alloc = rt.alloc();
    let table: [(&[Slot], u64); 2] = [(&[(81, 5, 0)], 6), (&[(81, 5, 0), (82, 5, 1)], 7)];
    for (what, (slots, generation)) in table.into_iter().enumerate() {
        let mut image = pool(alloc, 5, slots)?;
        recovers(&rt, alloc, &mut image, what);
        recovers(&rt, alloc, &mut image, what);
        has_words(
            &rt,
            &image,
            &[(GENERATION, generation), (WORD, 71), (WORD + 1, 72)],
            what,
        );
    }
    Ok(())
}

/// The image is refused with this fault, and stays, word for word.
fn is_refused(
    rt: &impl Abort,
    alloc: Global,
    image: &mut RawImage,
    fault: ImageFault,
) -> Result<(), Fail> {
    let before = image.copy(alloc)?;
    let answer = recover(alloc, image);
    assert!(rt; answer == Err(RecoverFault::Image(fault)), "{fault}");
    let is_same = image.words(0, image.len()) == before.words(0, before.len());
    assert!(rt; is_same, "{fault}");
    Ok(())
}

/// Images with a fault are refused with it, and stay.
#[test]
fn faults(rt: HostRuntime) -> Result<(), Fail> {
    let alloc = rt.alloc();
    let table = [
        (0, 0, 5, ImageFault::Header(pm_header::HeaderFault::NotPool)),
        (513, 65, 5, ImageFault::Lane(0)),
        (513, 1, 5, ImageFault::Redo { lane: 0, entry: 0 }),
        (512, 0, 5, ImageFault::Lane(0)),
        (512, 1 << 62, 1 << 62, ImageFault::Undo { lane: 0, slot: 0 }),
        (1536, 7, 5, ImageFault::Chunk { zone: 0, chunk: 0 }),
    ];
    for (word, value, generation, fault) in table {
        let mut image = pool(alloc, 5, &[(FIRST_SLOT, generation, 0)])?;
        image.set(word, value);
        if fault == ImageFault::Header(pm_header::HeaderFault::NotPool) {
            image.set(256, 0);
        }
        is_refused(&rt, alloc, &mut image, fault)?;
    }
    Ok(())
}
