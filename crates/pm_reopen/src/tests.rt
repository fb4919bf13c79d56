//! Recoveries stopped at each of their calls, and then made whole.
ghost use Rattle.std.specs.Prelude.{◌≡◌, length, IfOk};

use super::*;
use pm_header::{Header, Name, encode};
use pm_image::ImageFault;
use pm_layout::PAGE_WORDS;
use pm_raw::RawImage;
use pm_record::Undo;
use std::alloc::Global;
use std::process::Abort;
use std::test::Fail;

/// Words of a pool of two lanes and one zone.
const WORDS: u64 = 35_840;

/// The first word behind the lanes' areas, which begin at words 512 and 1536.
const HEAP: u64 = 2560;

/// A word of the first chunk.
const WORD: u64 = 3080;

/// The lane's generation in each of these pools.
const GENERATION: u64 = 5;

/// An entry of a lane: the lane, the entry's number, its place with the operation, its value.
type Entry = (u64, u64, u64, u64);

/// A slot with a record: its line, the generation, the first word that it has, and whether its sum
/// is true.
type Slot = (u64, u64, u64, bool);

/// A pool whose lanes left something: entries, seals of both lanes, slots, and how many calls its
/// recovery makes.
type Case<'a> = (&'a [Entry], u64, &'a [Slot], u64);

/// The header page of the empty pool.
fn page() -> Result<[u64; PAGE_WORDS as usize], Fail> {
    let name = Name::new("demo".as_bytes()).ok_or("a name")?;
    let header = Header {
        version: 1,
        id: 7,
        lanes: 2,
        zones: 1,
        bytes: 8 * WORDS,
        name,
    };
    let mut page = [0; PAGE_WORDS as usize];
    encode(&header, &mut page);
    Ok(page)
}

/// The pool of a case.
fn pool(alloc: Global, case: &Case<'_>) -> Result<RawImage, Fail>
    ensures { IfOk result (λ image. length image ≡ 35840) }
{
    let mut image = RawImage::new(alloc, WORDS)?;
    let page = page()?;
    for i in 0..PAGE_WORDS as usize {
        image.set(i as u64, page[i]);
    }
    image.set(512, GENERATION);
    image.set(1536, GENERATION);
    image.set(513, case.1);
    image.set(1537, case.1);
    put_entries(&mut image, case.0);
    put_records(&mut image, case.2);
    Ok(image)
}

/// Writes entries into the lanes' logs.
fn put_entries(image: &mut RawImage, entries: &[Entry])
    requires { length image.old ≡ 35840 }
    ensures { length image.new ≡ 35840 }
{
    for (lane, number, place, value) in entries {
        if *lane < 2 && *number < 64 {
            let at = 520 + 1024 * *lane + 2 * *number;
            image.set(at, *place);
            image.set(at + 1, *value);
        }
    }
}

/// Writes records into the lanes' slots.
fn put_records(image: &mut RawImage, slots: &[Slot])
    requires { length image.old ≡ 35840 }
    ensures { length image.new ≡ 35840 }
{
    for (line, generation, word, whole) in slots {
        put_record(image, *line, *generation, *word, *whole);
    }
}

/// Writes a record of two words, which were 71 and 72, into a line.
#[tactic(auto, using(pm_raw::proofs::LineWrites::length_with_line))]
fn put_record(image: &mut RawImage, line: u64, generation: u64, word: u64, whole: bool)
    requires { length image.old ≡ 35840 }
    ensures { length image.new ≡ 35840 }
{
    if line >= HEAP / 8 || word >= WORDS {
        return;
    }
    let record = Undo {
        generation,
        place: 8 * word,
        count: 2,
        old: [71, 72, 0, 0],
    };
    let mut slot = [0; 8];
    record.encode(&mut slot);
    if !whole {
        slot[7] = 1;
    }
    image.line_mut(line).copy_from_slice(&slot);
}

/// Recovers an image without a fault; the answer is how many calls that took.
fn recovers(rt: &impl Abort, alloc: Global, image: &mut RawImage) -> u64 {
    match recover(alloc, image) {
        Ok(calls) => calls,
        Err(fault) => panic!(rt; "{fault}"),
    }
}

/// Whatever call the recovery of the case's pool is stopped at, and whatever these keep numbers let
/// survive, a further recovery that is not stopped leaves the heap as one that never was.
fn each_stop(rt: &impl Abort, alloc: Global, case: &Case<'_>, keeps: &[u64]) -> Result<(), Fail> {
    let image = pool(alloc, case)?;
    let mut whole = image.copy(alloc)?;
    let calls = recovers(rt, alloc, &mut whole);
    assert_eq!(rt; calls, case.3);
    for stop in 0..=calls {
        for keep in keeps {
            stops(rt, alloc, &image, &whole, stop, *keep)?;
        }
    }
    Ok(())
}

/// Both lanes are sealed.
#[test]
fn sealed_lanes(rt: HostRuntime) -> Result<(), Fail> {
    let entries: [Entry; 4] = [
        (0, 0, 8 * WORD, 12),
        (0, 1, 4096, 6),
        (1, 0, 8 * WORD + 65, 3),
        (1, 1, 12_288, 6),
    ];
    Ok(each_stop(&rt, rt.alloc(), &(&entries, 2, &[], 16), &[0, 1, 7])?)
}

/// A lane left a record, and both left a torn slot.
#[test]
fn torn_slots(rt: HostRuntime) -> Result<(), Fail> {
    let slots: [Slot; 3] = [
        (81, 5, WORD, true),
        (82, 5, WORD + 2, false),
        (209, 5, WORD + 4, false),
    ];
    Ok(each_stop(&rt, rt.alloc(), &(&[], 0, &slots, 10), &[0, 1, 7])?)
}

/// A lane left a record, and both have a record of a generation to come, as no run leaves one.
#[test]
fn stray_records(rt: HostRuntime) -> Result<(), Fail> {
    let slots: [Slot; 3] = [
        (81, 5, WORD, true),
        (82, 6, WORD + 2, true),
        (209, 6, WORD + 4, true),
    ];
    Ok(each_stop(&rt, rt.alloc(), &(&[], 0, &slots, 27), &[1, 7])?)
}

/// Stops a recovery of the image and then recovers it whole, and compares the heap.
fn stops(
    rt: &impl Abort,
    alloc: Global,
    image: &RawImage,
    whole: &RawImage,
    stop: u64,
    keep: u64,
) -> Result<(), Fail> {
    let mut left = image.copy(alloc)?;
    let end = recover_stop(alloc, &mut left, stop, keep);
    assert!(rt;
        end.is_ok_and(|end| end.calls() == stop),
        "stop {stop} keep {keep}"
    );
    recovers(rt, alloc, &mut left);
    assert!(rt; left.len() == WORDS && whole.len() == WORDS);
    let is_same = left.words(HEAP, WORDS - HEAP) == whole.words(HEAP, WORDS - HEAP);
    assert!(rt; is_same, "stop {stop} keep {keep}");
    Ok(())
}

/// An image with a fault is refused with it, and stays, word for word.
#[test]
fn refused(rt: HostRuntime) -> Result<(), Fail> {
    let alloc = rt.alloc();
    let mut image = pool(alloc, &(&[], 65, &[], 0))?;
    let before = image.copy(alloc)?;
    let fault = RecoverFault::Image(ImageFault::Lane(0));
    assert!(rt; recover(alloc, &mut image) == Err(fault));
    assert!(rt; recover_stop(alloc, &mut image, 3, 1) == Err(fault));
    assert!(rt; image.words(0, image.len()) == before.words(0, before.len()));
    Ok(())
}
