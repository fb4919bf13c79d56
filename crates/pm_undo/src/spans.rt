ghost use Rattle.std.specs.Prelude.{◌≡◌, ◌+◌, ◌-◌, ◌^◌, ◌<◌, ◌≤◌, false, ℕ, List, ◌∷◌, [], ◌++◌, length, IsTrue, IsNone, IfSome};
ghost use Rattle.std.specs.List.{list_all, range_with_len};
ghost use Rattle.pm_model.specs.Transaction.{covered_words, records_of};
ghost use Rattle.pm_model.specs.Items.{is_among};
ghost use Rattle.pm_undo.specs.Spans.{words_in, spans_for, plan_of, AreSpansOf};

use arrayvec::ArrayVec;
use pm_layout::{OLD_WORDS, UNDO_SLOTS, WORD_BYTES};
use pm_world::KeptRecord;

/// Words that get a record: consecutive ones.
#[derive(Clone, Copy, Debug, PartialEq, Eq, Default, Drop)]
pub struct Span {
    /// The first word's number.
    pub word: u64,
    /// How many words, 1 to 4.
    pub count: u64,
}

/// The records that a range of bytes still needs, in rising order: each of one to four consecutive words that no record
/// has yet. Nothing exactly where they are more than are free.
pub fn plan(records: &[KeptRecord], place: u64, len: u64) -> Option<ArrayVec<Span, 64>>
    requires range { place + len < 2 ^ 64 }
    requires few { length records.now ≤ 64 }
    ensures some { IfSome result (λ new. new.items ≡ plan_of records.now place len) }
    ensures room { IfSome result (λ new. length records.now + length new.items ≤ 64) }
    ensures none { IsNone result → 64 < length records.now + length (plan_of records.now place len) }
{
    if len == 0 {
        return Some(ArrayVec::new());
    }
    let first = place / WORD_BYTES;
    let last = (place + len - 1) / WORD_BYTES;
    plan_words(records, first, last + 1)
}

/// The same for the words from `first` on up to `end`.
fn plan_words(records: &[KeptRecord], first: u64, end: u64) -> Option<ArrayVec<Span, 64>>
    requires order { first ≤ end }
    requires few { length records.now ≤ 64 }
    ensures some { IfSome result (λ new. new.items ≡ spans_for records.now (range_with_len first (end - first))) }
    ensures room { IfSome result (λ new. length records.now + length new.items ≤ 64) }
    ensures none { IsNone result → 64 < length records.now + length (spans_for records.now (range_with_len first (end - first))) }
{
    let free = UNDO_SLOTS as usize - records.len();
    let mut planned = ArrayVec::new();
    for word in first..end {
        if is_recorded(records, word) {
            continue;
        }
        if !add(&mut planned, word, free) {
            return None;
        }
    }
    Some(planned)
}

/// Whether the record has the word.
fn has(kept: KeptRecord, word: u64) -> bool
    ensures yes { IsTrue result → (kept.word ≤ word) × (word - kept.word < kept.count) }
    ensures no_ { result ≡ false → kept.word ≤ word → kept.count ≤ word - kept.word }
{
    kept.word <= word && word - kept.word < kept.count
}

/// Whether one of the records has the word.
fn is_recorded(records: &[KeptRecord], word: u64) -> bool
    ensures { result ≡ is_among (words_in records.now) word }
{
    for kept in records {
        if has(*kept, word) {
            return true;
        }
    }
    false
}

/// Whether each word from `first` on up to `end` has a record.
fn all_recorded(records: &[KeptRecord], first: u64, end: u64) -> bool
    ensures { result ≡ list_all (is_among (words_in records.now)) (range_with_len first (end - first)) }
{
    (first..end).all(|word| is_recorded(records, word))
}

/// Whether each word that has some of `len` bytes from byte `place` of the pool on has a record.
pub fn are_recorded(records: &[KeptRecord], place: u64, len: u64) -> bool
    requires { place + len < 2 ^ 64 }
    ensures { result ≡ list_all (is_among (words_in records.now)) (covered_words place len) }
{
    if len == 0 {
        return true;
    }
    let first = place / WORD_BYTES;
    let last = (place + len - 1) / WORD_BYTES;
    all_recorded(records, first, last + 1)
}

/// Whether the word follows on the record, and there is room for it.
fn continues(span: Span, word: u64) -> bool
    ensures yes { IsTrue result → (span.word + span.count ≡ word) × (span.count < 4) }
    ensures no_ { result ≡ false → span.word + span.count ≡ word → 4 ≤ span.count }
{
    span.count < OLD_WORDS && span.word.checked_add(span.count) == Some(word)
}

/// Begins a record of its own with the word. False where it would be one more than `most`.
fn begin(planned: &mut ArrayVec<Span, 64>, word: u64, most: usize) -> bool
    requires most { most ≤ 64 }
    requires few { length planned.old.items ≤ most }
    ensures begun { IsTrue result → planned.new.items ≡ planned.old.items ++ record { word = word; count = 1 } ∷ [] }
    ensures few { IsTrue result → length planned.new.items ≤ most }
    ensures full { result ≡ false → length planned.old.items ≡ most }
{
    if planned.len() == most {
        return false;
    }
    planned.push(Span { word, count: 1 });
    true
}

/// Adds a word to the records of some words, each lower than it: to the last of them where it follows on it, or as a record of
/// its own. False where it would be one record more than `most`.
fn add(planned: &mut ArrayVec<Span, 64>, word: u64, most: usize) -> bool
    requires most { most ≤ 64 }
    requires few { length planned.old.items ≤ most }
    ensures added { (words : List ℕ) → AreSpansOf planned.old.items words → IsTrue result → AreSpansOf planned.new.items (words ++ word ∷ []) }
    ensures few { IsTrue result → length planned.new.items ≤ most }
    ensures many { (words : List ℕ) → AreSpansOf planned.old.items words → result ≡ false → most < length (records_of (words ++ word ∷ [])) }
{
    match planned.pop() {
        Some(last) if continues(last, word) => {
            planned.push(Span {
                count: last.count + 1,
                ..last
            });
            true
        }
        Some(last) => {
            planned.push(last);
            begin(planned, word, most)
        }
        None => begin(planned, word, most),
    }
}
