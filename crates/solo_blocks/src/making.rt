//! A run that is made of a free chunk, for its first block.

ghost use Rattle.std.specs.Prelude.{◌≡◌, ℕ, ◌<◌, Contains, IfOk, IfErr};
ghost use Rattle.pm_layout.specs.Sizes.{blocks_of, classes};
ghost use Rattle.solo_view.specs.View.{View};
ghost use Rattle.solo_chunks.specs.Chunks.{chunk_block};
ghost use Rattle.solo_blocks.specs.declared.making.NoBlock.TheVariants as no_block;
ghost use Rattle.solo_blocks.specs.NewRuns.{GivesNone, HasNewRun, MayGoOn, MayMakeRun};

use pm_image::Block;
use pm_layout::{CHUNK_BYTES, LINE_BYTES, Shape, ZONE_BYTES};
use pm_objects::Refusal;
use solo_chunks::reserve_chunks;
use solo_fresh::{NewRun, make_run};
use solo_memory::Stopped;
use solo_world::{Lane, LawfulMem};
use thiserror::Error;

/// Why no block was reserved.
#[derive(Clone, Copy, Debug, PartialEq, Eq, Error)]
pub enum NoBlock {
    /// No chunk is free, or nowhere do so many lie together. A lane that is alone is refused for nothing else.
    #[error("{0}")]
    Refused(Refusal),
    /// The lane is at its stop number.
    #[error("Stopped")]
    Stopped(Stopped),
}

impl From<Refusal> for NoBlock {
    ghost from_gives = { λ refusal why. why ≡ no_block.Refused refusal };

    fn from(refusal: Refusal) -> Self {
        NoBlock::Refused(refusal)
    }
}

impl From<Stopped> for NoBlock {
    ghost from_gives = { λ stopped why. why ≡ no_block.Stopped stopped };

    fn from(stopped: Stopped) -> Self {
        NoBlock::Stopped(stopped)
    }
}

/// The run that a chunk is to be made, by the chunk as a block of the pool.
fn run_of(shape: Shape, chunk: Block, lines: u64) -> NewRun
    requires class { 0 < blocks_of lines }
    requires is_chunk { (zone : ℕ) × (first : ℕ) × (first < 64) × (chunk ≡ chunk_block shape.lanes zone first 1) }
    ensures zone { (zone first : ℕ) → first < 64 → chunk ≡ chunk_block shape.lanes zone first 1 → result.zone ≡ zone }
    ensures chunk { (zone first : ℕ) → first < 64 → chunk ≡ chunk_block shape.lanes zone first 1 → result.chunk ≡ first }
    ensures lines { result.lines ≡ lines }
{
    let in_zones = chunk.place - shape.zone_at(0);
    NewRun {
        zone: in_zones / ZONE_BYTES,
        chunk: in_zones % ZONE_BYTES / CHUNK_BYTES - 1,
        lines,
    }
}

/// Reserves the least free chunk and makes it a run of a class, given by the lines of a block: 2, 3, 4, 5, 7, 9, 15 or 31, of 64 bytes each. The answer is
/// the run's first block, by its place in bytes, which the lane has reserved then in place of the chunk; the run is persistent. The lane is alone, so far.
/// `Refused(NoSpace)` says that no chunk is free: no word of the pool changed, no call was counted, and nothing is reserved. It is refused for nothing
/// else: alone, it finds no zone's lock taken. `Stopped` says that it came to its stop number on the way: it has the chunk, which is described by 0 as
/// before or is a run without blocks. Unless it stopped it may make another run.
#[tactic(auto, using(crate::proofs::Classes::class_has))]
pub fn new_run<M: LawfulMem>(lane: &mut Lane<M>, lines: u64) -> Result<Block, NoBlock>
    requires class { Contains classes lines }
    requires may { (v : View) × (M.at lane.old.memory v × MayMakeRun v lane.old.shape) }
    ensures got { IfOk result (λ block. (v : View) → M.at lane.old.memory v → MayMakeRun v lane.old.shape → HasNewRun (M.at lane.new.memory) v lines block) }
    ensures none { IfErr result (λ why. (v : View) → M.at lane.old.memory v → MayMakeRun v lane.old.shape → GivesNone (M.at lane.new.memory) v lines why) }
    ensures next { (v : View) → M.at lane.old.memory v → MayMakeRun v lane.old.shape → MayGoOn (M.at lane.new.memory) lane.old.shape result }
    ensures else_same { lane.new ≡ record lane.old { memory = lane.new.memory } }
{
    let chunk = reserve_chunks(lane, 1)?;
    let run = run_of(lane.shape, chunk, lines);
    make_run(&mut lane.memory, lane.shape, run)?;
    Ok(Block {
        place: chunk.place + LINE_BYTES,
        lines,
    })
}
