ghost use Rattle.std.specs.Prelude.{◌≡◌, ◌+◌, ◌*◌, ◌-◌, ◌^◌, ◌<◌, ◌≤◌, ℕ, List, [], ◌∷◌, ◌++◌, length, replicate};
ghost use Rattle.std.specs.List.{All};
ghost use Rattle.solo_view.specs.Area.{area_word};
ghost use Rattle.solo_view.specs.Log.{Recorded};
ghost use Rattle.solo_view.specs.Steps.Step.{Flush, Drain};
ghost use Rattle.solo_view.specs.View.{View};
ghost use Rattle.solo_world.specs.Records.{spelled};
ghost use Rattle.solo_world.specs.Sequences.{IsMade, IsReady, Ready, Runs, with_word};
ghost use Rattle.solo_undo.specs.Sequences.{looks_from, stores_from, words_of_span, writes_slot, writes_record, writes_records, writes_all, logs};
ghost use Rattle.solo_undo.specs.Spans.{IsSpan};
ghost use Rattle.solo_undo.specs.Working.{IsSeenWithArea};

use crate::places::{LINE_WORDS, area_word, slot_line};
use pm_record::Undo;
use solo_memory::Stopped;
use solo_world::{LawfulMem, Span, store};

/// Bytes of a word.
const WORD_BYTES: u64 = 8;

/// The present words of a span, with zeros behind.
fn words_of<M: LawfulMem>(mem: &mut M, span: Span) -> [u64; 4]
    requires span { IsSpan span }
    requires ready { IsReady (M.at mem.old) (looks_from span.word span.count) }
    ensures made { IsMade (M.at mem.old) (M.at mem.new) (looks_from span.word span.count) }
    ensures found { (v : View) → M.at mem.old v → Ready v (looks_from span.word span.count v) → result ≡ words_of_span v span ++ replicate (4 - span.count) 0 }
{
    let mut words = [0; 4];
    for i in 0..span.count {
        words[i as usize] = mem.load(span.word + i);
    }
    words
}

/// The eight words of a record.
fn spell(generation: u64, span: Span, old: [u64; 4]) -> [u64; 8]
    requires span { IsSpan span }
    ensures { (words : List ℕ) → length words ≡ span.count → old ≡ words ++ replicate (4 - span.count) 0
        → result ≡ spelled generation (record { word = span.word; old = words }) }
{
    let record = Undo {
        generation,
        place: WORD_BYTES * span.word,
        count: span.count,
        old,
    };
    let mut slot = [0; 8];
    record.encode(&mut slot);
    slot
}

/// Stores consecutive words.
fn store_all<M: LawfulMem>(mem: &mut M, first: u64, values: &[u64]) -> Result<(), Stopped>
    requires inside { first + length values.now < 2 ^ 64 }
    requires ready { IsReady (M.at mem.old) (stores_from first values.now) }
    ensures { Runs (M.at mem.old) (M.at mem.new) (stores_from first values.now) result }
{
    for (i, value) in values.iter().enumerate() {
        store(mem, first + i as u64, *value)?;
    }
    Ok(())
}

/// Stores a slot's words, and flushes its line.
#[tactic(auto, using(solo_world::proofs::Sequencing::runs_then, solo_world::proofs::Sequencing::runs_err, solo_world::proofs::Sequencing::runs_one, solo_world::proofs::Sequencing::allowed_one, solo_world::proofs::Sequencing::ready_first, solo_world::proofs::Sequencing::ready_then), unfolding(crate::specs::Sequences::writes_slot))]
fn write_slot<M: LawfulMem>(mem: &mut M, lane: u64, slot: u64, words: &[u64]) -> Result<(), Stopped>
    requires lane { lane < 32 }
    requires slot { slot < 64 }
    requires eight { length words.now ≡ 8 }
    requires ready { IsReady (M.at mem.old) (writes_slot lane slot words.now) }
    ensures { Runs (M.at mem.old) (M.at mem.new) (writes_slot lane slot words.now) result }
{
    store_all(mem, LINE_WORDS * slot_line(lane, slot), words)?;
    mem.flush(slot_line(lane, slot))
}

/// Writes the record of a span's present words in a slot.
fn write_record<M: LawfulMem>(
    mem: &mut M,
    lane: u64,
    generation: u64,
    slot: u64,
    span: Span,
) -> Result<(), Stopped>
    requires lane { lane < 32 }
    requires slot { slot < 64 }
    requires span { IsSpan span }
    requires ready { IsReady (M.at mem.old) (writes_record lane generation slot span) }
    ensures { Runs (M.at mem.old) (M.at mem.new) (writes_record lane generation slot span) result }
{
    let old = words_of(mem, span);
    let words = spell(generation, span, old);
    write_slot(mem, lane, slot, &words)
}

/// Writes the records of some spans, in consecutive slots.
fn write_records<M: LawfulMem>(
    mem: &mut M,
    lane: u64,
    generation: u64,
    slot: u64,
    spans: &[Span],
) -> Result<(), Stopped>
    requires lane { lane < 32 }
    requires slots { slot + length spans.now ≤ 64 }
    requires spans { All IsSpan spans.now }
    requires ready { IsReady (M.at mem.old) (writes_records lane generation slot spans.now) }
    ensures { Runs (M.at mem.old) (M.at mem.new) (writes_records lane generation slot spans.now) result }
{
    for (i, span) in spans.iter().enumerate() {
        write_record(mem, lane, generation, slot + i as u64, *span)?;
    }
    Ok(())
}

/// Writes the records of some spans, and drains them.
#[tactic(auto, using(solo_world::proofs::Sequencing::runs_then, solo_world::proofs::Sequencing::runs_err, solo_world::proofs::Sequencing::runs_one, solo_world::proofs::Sequencing::allowed_one, solo_world::proofs::Sequencing::ready_first, solo_world::proofs::Sequencing::ready_then), unfolding(crate::specs::Sequences::writes_all))]
fn write_all<M: LawfulMem>(
    mem: &mut M,
    slot: u64,
    spans: &[Span],
    lane: u64,
    generation: u64,
) -> Result<(), Stopped>
    requires lane { lane < 32 }
    requires slots { slot + length spans.now ≤ 64 }
    requires spans { All IsSpan spans.now }
    requires ready { IsReady (M.at mem.old) (writes_all slot spans.now lane generation) }
    ensures { Runs (M.at mem.old) (M.at mem.new) (writes_all slot spans.now lane generation) result }
{
    write_records(mem, lane, generation, slot, spans)?;
    mem.drain()
}

/// Writes the records of some spans behind so many that this lane has, and drains them.
fn log_in<M: LawfulMem>(mem: &mut M, slot: u64, spans: &[Span], lane: u64) -> Result<(), Stopped>
    requires lane { lane < 32 }
    requires slots { slot + length spans.now ≤ 64 }
    requires spans { All IsSpan spans.now }
    requires ready { IsReady (M.at mem.old) (with_word (area_word lane) (writes_all slot spans.now lane)) }
    ensures { Runs (M.at mem.old) (M.at mem.new) (with_word (area_word lane) (writes_all slot spans.now lane)) result }
{
    let generation = mem.load(area_word(lane));
    write_all(mem, slot, spans, lane, generation)
}

/// Writes the records of some spans behind so many that there are, and drains them.
pub fn log<M: LawfulMem>(mem: &mut M, slot: u64, spans: &[Span]) -> Result<(), Stopped>
    requires area { IsSeenWithArea (M.at mem.old) }
    requires slots { slot + length spans.now ≤ 64 }
    requires spans { All IsSpan spans.now }
    requires ready { IsReady (M.at mem.old) (logs slot spans.now) }
    ensures { Runs (M.at mem.old) (M.at mem.new) (logs slot spans.now) result }
{
    let lane = mem.lane();
    log_in(mem, slot, spans, lane)
}
