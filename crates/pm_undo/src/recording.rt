ghost use Rattle.std.specs.Prelude.{◌≡◌, ◌+◌, ◌^◌, ◌<◌, ◌≤◌, length};
ghost use Rattle.std.specs.List.{All};
ghost use Rattle.pm_view.specs.View.{View};
ghost use Rattle.pm_plan.specs.Plans.{IsReady, Runs};
ghost use Rattle.pm_plan.specs.Plans.{stores_from};
ghost use Rattle.pm_undo.specs.Plans.{logs, logs_here, writes_all, writes_record, writes_records, writes_slot};
ghost use Rattle.pm_undo.specs.Records.{slot_of};
ghost use Rattle.pm_world.specs.declared.lane.KeptRecord.{KeptRecord};

use pm_layout::{LINE_WORDS, Shape, WORD_BYTES};
use pm_memory::Stopped;
use pm_plan::{drain, flush, store_all};
use pm_record::Undo;
use pm_world::{KeptRecord, LawfulMem};

/// The eight words of a record.
fn spell(generation: u64, kept: KeptRecord) -> [u64; 8]
    requires { kept.word < 2 ^ 60 }
    ensures { result ≡ slot_of generation kept }
{
    let old = kept.old;
    let undo = Undo {
        generation,
        place: WORD_BYTES * kept.word,
        count: kept.count,
        old,
    };
    let mut slot = [0; 8];
    undo.encode(&mut slot);
    slot
}

/// Writes a record in a slot: its words, and a flush of its line.
fn write_record<M: LawfulMem>(
    mem: &mut M,
    shape: Shape,
    lane: u64,
    generation: u64,
    slot: u64,
    kept: KeptRecord,
) -> Result<(), Stopped>
    requires lane { lane < shape.lanes }
    requires slot { slot < 64 }
    requires low { kept.word < 2 ^ 60 }
    requires ready { IsReady (M.at mem.old) (writes_record shape lane generation slot kept) }
    ensures { Runs (M.at mem.old) (M.at mem.new) (writes_record shape lane generation slot kept) result }
{
    let line = shape.line_of_slot(lane, slot);
    let words = spell(generation, kept);
    write_slot(mem, line, &words)
}

/// Stores a slot's words, and flushes its line.
#[tactic(auto, using(pm_plan::proofs::Plans::runs_then, pm_plan::proofs::Plans::runs_err, pm_plan::proofs::Plans::ready_first, pm_plan::proofs::Plans::ready_then), unfolding(crate::specs::Plans::writes_slot))]
fn write_slot<M: LawfulMem>(mem: &mut M, line: u64, words: &[u64]) -> Result<(), Stopped>
    requires line { line < 2 ^ 32 }
    requires eight { length words.now ≡ 8 }
    requires ready { IsReady (M.at mem.old) (writes_slot line words.now) }
    ensures { Runs (M.at mem.old) (M.at mem.new) (writes_slot line words.now) result }
{
    store_all(mem, LINE_WORDS * line, words)?;
    flush(mem, line)
}

/// Writes some records in consecutive slots.
fn write_records<M: LawfulMem>(
    mem: &mut M,
    shape: Shape,
    lane: u64,
    generation: u64,
    slot: u64,
    records: &[KeptRecord],
) -> Result<(), Stopped>
    requires lane { lane < shape.lanes }
    requires slots { slot + length records.now ≤ 64 }
    requires low { All (λ (r : KeptRecord). r.word < 2 ^ 60) records.now }
    requires ready { IsReady (M.at mem.old) (writes_records shape lane generation slot records.now) }
    ensures { Runs (M.at mem.old) (M.at mem.new) (writes_records shape lane generation slot records.now) result }
{
    for (i, kept) in records.iter().enumerate() {
        write_record(mem, shape, lane, generation, slot + i as u64, *kept)?;
    }
    Ok(())
}

/// Writes some records, and drains them.
#[tactic(auto, using(pm_plan::proofs::Plans::runs_then, pm_plan::proofs::Plans::runs_err, pm_plan::proofs::Plans::ready_first, pm_plan::proofs::Plans::ready_then), unfolding(crate::specs::Plans::writes_all))]
fn write_all<M: LawfulMem>(
    mem: &mut M,
    shape: Shape,
    lane: u64,
    generation: u64,
    slot: u64,
    records: &[KeptRecord],
) -> Result<(), Stopped>
    requires lane { lane < shape.lanes }
    requires slots { slot + length records.now ≤ 64 }
    requires low { All (λ (r : KeptRecord). r.word < 2 ^ 60) records.now }
    requires ready { IsReady (M.at mem.old) (writes_all shape lane generation slot records.now) }
    ensures { Runs (M.at mem.old) (M.at mem.new) (writes_all shape lane generation slot records.now) result }
{
    write_records(mem, shape, lane, generation, slot, records)?;
    drain(mem)
}

/// Writes some records, and drains them, where there are any.
fn log_in<M: LawfulMem>(
    mem: &mut M,
    shape: Shape,
    lane: u64,
    generation: u64,
    slot: u64,
    records: &[KeptRecord],
) -> Result<(), Stopped>
    requires lane { lane < shape.lanes }
    requires slots { slot + length records.now ≤ 64 }
    requires low { All (λ (r : KeptRecord). r.word < 2 ^ 60) records.now }
    requires ready { IsReady (M.at mem.old) (logs shape lane generation slot records.now) }
    ensures { Runs (M.at mem.old) (M.at mem.new) (logs shape lane generation slot records.now) result }
{
    if records.is_empty() {
        Ok(())
    } else {
        write_all(mem, shape, lane, generation, slot, records)
    }
}

/// Writes some records of this lane after those that there are, and drains them, where there are any.
pub fn write_new<M: LawfulMem>(
    mem: &mut M,
    shape: Shape,
    generation: u64,
    slot: u64,
    records: &[KeptRecord],
) -> Result<(), Stopped>
    requires lane { (v : View) × M.at mem.old v × v.fixed.lane < shape.lanes }
    requires slots { slot + length records.now ≤ 64 }
    requires low { All (λ (r : KeptRecord). r.word < 2 ^ 60) records.now }
    requires ready { IsReady (M.at mem.old) (logs_here shape generation slot records.now) }
    ensures { Runs (M.at mem.old) (M.at mem.new) (logs_here shape generation slot records.now) result }
{
    let lane = mem.lane();
    log_in(mem, shape, lane, generation, slot, records)
}
