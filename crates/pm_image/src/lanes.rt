ghost use Rattle.std.specs.Prelude.{◌≡◌, ◌+◌, ◌*◌, ◌<◌, ◌≤◌, IsTrue};
ghost use Rattle.pm_image.specs.Logs.{generation_word, seal_word, is_sealed, generation, entry_pair, undo_slot, covers, old_word};
ghost use Rattle.pm_image.specs.Steps.{HasLanes, valid_record};
ghost use Rattle.pm_record.specs.Redo.{redo_of};
ghost use Rattle.pm_record.specs.Undo.{undo_of};

use pm_layout::{
    ENTRIES_AT, ENTRY_WORDS, GENERATION_AT, LANE_WORDS, LINE_WORDS, OLD_WORDS, PAGE_WORDS,
    REDO_ENTRIES, SEAL_AT, SLOTS_AT, WORD_BYTES,
};
use pm_raw::RawImage;
use pm_record::{Redo, Undo};

/// How many entries the lane sealed; 0 where it sealed none.
pub fn seal(image: &RawImage, lane: u64) -> u64
    requires { HasLanes image.now (lane + 1) }
    ensures { result ≡ seal_word image.now lane }
{
    image.word(area(lane) + SEAL_AT)
}

/// Whether the lane sealed 1 to 64 entries.
pub fn is_sealed(image: &RawImage, lane: u64) -> bool
    requires { HasLanes image.now (lane + 1) }
    ensures { result ≡ is_sealed image.now lane }
{
    let seal = seal(image, lane);
    1 <= seal && seal <= REDO_ENTRIES
}

/// The generation as it stands in the lane's area.
pub fn generation_word(image: &RawImage, lane: u64) -> u64
    requires { HasLanes image.now (lane + 1) }
    ensures { result ≡ generation_word image.now lane }
{
    image.word(area(lane) + GENERATION_AT)
}

/// The lane's generation: what its last entry sets where it is sealed, else its generation word.
pub fn generation(image: &RawImage, lane: u64) -> u64
    requires { HasLanes image.now (lane + 1) }
    ensures { result ≡ generation image.now lane }
{
    if is_sealed(image, lane) {
        // The last entry's value is the last word of the sealed entries.
        image.word(area(lane) + ENTRIES_AT - 1 + ENTRY_WORDS * seal(image, lane))
    } else {
        generation_word(image, lane)
    }
}

/// The redo entry of this number, if its words are one.
pub fn entry(image: &RawImage, lane: u64, i: u64) -> Option<Redo>
    requires lanes { HasLanes image.now (lane + 1) }
    requires number { i < 64 }
    ensures { result ≡ redo_of (entry_pair image.now lane i) }
{
    let at = area(lane) + ENTRIES_AT + ENTRY_WORDS * i;
    let pair = [image.word(at), image.word(at + 1)];
    Redo::decode(&pair)
}

/// The undo record of the slot, 0 to 63, whatever its generation; nothing where the slot's last word is not the sum of the others.
pub fn record_in_slot(image: &RawImage, lane: u64, i: u64) -> Option<Undo>
    requires lanes { HasLanes image.now (lane + 1) }
    requires number { i < 64 }
    ensures { result ≡ undo_of (undo_slot image.now lane i) }
{
    let line = (area(lane) / LINE_WORDS) + SLOTS_AT + i;
    Undo::decode(image.line(line))
}

/// The undo record of the slot, 0 to 63, if it is a valid one: of the lane's generation.
pub fn valid_record(image: &RawImage, lane: u64, i: u64) -> Option<Undo>
    requires lanes { HasLanes image.now (lane + 1) }
    requires number { i < 64 }
    ensures { result ≡ valid_record image.now lane i }
{
    let record = record_in_slot(image, lane, i)?;
    if record.generation == generation(image, lane) {
        Some(record)
    } else {
        None
    }
}

/// Whether the record covers the word at this place.
pub fn covers(undo: &Undo, place: u64) -> bool
    ensures { result ≡ covers undo.now place }
{
    undo.place <= place
        && (place - undo.place) / WORD_BYTES < undo.count
        && (place - undo.place) / WORD_BYTES < OLD_WORDS
        && (place - undo.place) % WORD_BYTES == 0
}

/// The old word that a record has for a word that it covers.
pub fn old_word(undo: &Undo, place: u64) -> u64
    requires { IsTrue (covers undo.now place) }
    ensures { result ≡ old_word undo.now place }
{
    undo.old[((place - undo.place) / WORD_BYTES) as usize]
}

/// The word at which the lane's area begins.
fn area(lane: u64) -> u64
    requires { lane ≤ 32 }
    ensures { result ≡ 512 + 1024 * lane }
{
    PAGE_WORDS + LANE_WORDS * lane
}
