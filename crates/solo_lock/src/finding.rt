ghost use Rattle.std.specs.Prelude.{◌≡◌, ◌+◌, ◌*◌, ◌^◌, ◌/◌, ◌<◌, ◌≤◌, [], ◌∷◌, map, true};
ghost use Rattle.std.specs.List.{AllByRecursion};
ghost use Rattle.solo_view.specs.Blocks.{descriptor_word, has_block, is_chunk, is_run};
ghost use Rattle.solo_view.specs.View.{View};
ghost use Rattle.solo_lock.specs.Begun.{IsBegun, IsLaneBegun};
ghost use Rattle.solo_lock.specs.Finding.{HasFound, HasLines, HasLooked, IsHeldBy, KnowsObjects, block_in, marked};
ghost use Rattle.solo_lock.specs.Lacking.{pages_of};
ghost use Rattle.solo_lock.specs.Plans.{IsChunkLine, Rises};

use solo_world::{HeldLock, Lane, LawfulMem};

/// Words of a page, and of a line.
const PAGE_WORDS: u64 = 512;

const LINE_WORDS: u64 = 8;

/// Bytes, and pages, of a line and of a zone.
const LINE_BYTES: u64 = 64;

const ZONE_PAGES: u64 = 65;

/// Lines of a page.
const PAGE_LINES: u64 = 64;

/// The low byte of a run's descriptor, and of that of a block of whole chunks.
const RUN: u64 = 1;

const HUGE: u64 = 2;

/// The word that describes a chunk, by the chunk's page.
fn descriptor_word(lanes: u64, page: u64) -> u64
    requires chunk { is_chunk lanes page ≡ true }
    requires few { lanes ≤ 32 }
    requires low { page < 2 ^ 32 }
    ensures { result ≡ descriptor_word lanes page }
{
    let first = 1 + 2 * lanes;
    let zone = (page - first) / ZONE_PAGES;
    let chunk = (page - first) % ZONE_PAGES;
    PAGE_WORDS * (first + ZONE_PAGES * zone) + chunk - 1
}

/// Whether the bit is set of the run's block that begins at a line of its page; a run has blocks of at least one line.
fn has_block(bitmap: u64, lines: u64, line: u64) -> bool
    requires some { 0 < lines }
    requires inside { line < 64 }
    ensures { result ≡ has_block bitmap lines line }
{
    if line == 0 {
        return false;
    }
    let before = line - 1;
    (before % lines == 0) & (bitmap >> (before / lines) & 1 == 1)
}

/// The lines of the block that begins at a line of a chunk, by the chunk's descriptor and, for a run, its bitmap.
fn block_in(descriptor: u64, bitmap: u64, line: u64) -> Option<u64>
    requires some { is_run descriptor ≡ true → 0 < descriptor / 256 }
    requires inside { line < 64 }
    ensures { result ≡ block_in descriptor bitmap line }
{
    let count = descriptor / 256;
    match descriptor % 256 {
        RUN if has_block(bitmap, count, line) => Some(count),
        HUGE if line == 0 => Some(PAGE_LINES * count),
        _ => None,
    }
}

/// A lock with the block that begins at its line, where that is in the page.
fn marked(held: HeldLock, page: u64, descriptor: u64, bitmap: u64) -> HeldLock
    requires { is_run descriptor ≡ true → 0 < descriptor / 256 }
    ensures { result ≡ marked page descriptor bitmap held }
{
    if held.line / PAGE_LINES != page {
        return held;
    }
    HeldLock {
        line: held.line,
        write: held.write,
        block: block_in(descriptor, bitmap, held.line % PAGE_LINES),
    }
}

/// Notes under each lock of a line in the page which block begins there.
fn mark(locks: &mut [HeldLock], page: u64, descriptor: u64, bitmap: u64)
    requires { is_run descriptor ≡ true → 0 < descriptor / 256 }
    ensures { locks.new ≡ map (marked page descriptor bitmap) locks.old }
{
    for held in locks.iter_mut() {
        *held = marked(*held, page, descriptor, bitmap);
    }
}

/// Looks at what describes a chunk, by the chunk's page, and notes which blocks begin under the lane's locks there. A run of no lines has
/// no block.
fn look_at_chunk<M: LawfulMem>(lane: &mut Lane<M>, page: u64)
    requires begun { IsLaneBegun M.at lane.old }
    requires chunk { is_chunk lane.old.shape.lanes page ≡ true }
    requires inside { page < 1 + 2 * lane.old.shape.lanes + 65 * lane.old.shape.zones }
    ensures looked { (v : View) → IsBegun M.at lane.old v → HasLooked M.at lane.new v (page ∷ []) }
    ensures else_same { lane.new ≡ record lane.old { memory = lane.new.memory; locks = lane.new.locks } }
{
    let descriptor = lane.memory.load(descriptor_word(lane.shape.lanes, page));
    if descriptor % 256 != RUN {
        mark(lane.locks.as_mut_slice(), page, descriptor, 0);
    } else if descriptor / 256 != 0 {
        let bitmap = lane.memory.load(PAGE_WORDS * page);
        mark(lane.locks.as_mut_slice(), page, descriptor, bitmap);
    }
}

/// Looks at the chunk of each line, and notes which blocks begin under the lane's locks.
fn find_blocks<M: LawfulMem>(lane: &mut Lane<M>, plan: &[HeldLock])
    requires begun { IsLaneBegun M.at lane.old }
    requires chunks { AllByRecursion (IsChunkLine lane.old.shape.lanes lane.old.shape.zones) plan.now }
    ensures looked { (v : View) → IsBegun M.at lane.old v → HasLooked M.at lane.new v (pages_of plan.now) }
    ensures else_same { lane.new ≡ record lane.old { memory = lane.new.memory; locks = lane.new.locks } }
{
    for held in plan {
        look_at_chunk(lane, held.line / PAGE_LINES);
    }
}

/// Looks at the size of the object under each lock: whether each lock has an object, which fits into its block.
fn know_objects<M: LawfulMem>(mem: &mut M, locks: &[HeldLock]) -> bool
    requires held { (v : View) × (M.at mem.old v × IsHeldBy v locks.now) }
    ensures known { (v : View) → M.at mem.old v → IsHeldBy v locks.now → KnowsObjects (M.at mem.new) v result }
{
    for held in locks {
        let Some(lines) = held.block else {
            return false;
        };
        let size = mem.load(LINE_WORDS * held.line + 1);
        if size.div_ceil(LINE_BYTES) >= lines {
            return false;
        }
    }
    true
}

/// Looks for the object under each lock that was taken for the plan, so that the lane knows its size: whether there is one everywhere.
pub fn find_objects<M: LawfulMem>(lane: &mut Lane<M>, plan: &[HeldLock]) -> bool
    requires rises { Rises plan.now }
    requires chunks { AllByRecursion (IsChunkLine lane.old.shape.lanes lane.old.shape.zones) plan.now }
    requires lines { (v : View) × (IsBegun M.at lane.old v × HasLines v plan.now) }
    ensures found { (v : View) → IsBegun M.at lane.old v → HasLines v plan.now → HasFound M.at lane.new v result }
    ensures else_same { lane.new ≡ record lane.old { memory = lane.new.memory; locks = lane.new.locks } }
{
    find_blocks(lane, plan);
    know_objects(&mut lane.memory, lane.locks.as_slice())
}
