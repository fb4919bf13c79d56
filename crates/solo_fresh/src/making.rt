ghost use Rattle.std.specs.Prelude.{◌≡◌, ◌*◌, ◌<◌};
ghost use Rattle.pm_layout.specs.Sizes.{blocks_of};
ghost use Rattle.solo_view.specs.Blocks.{bitmap_word, descriptor_word};
ghost use Rattle.solo_world.specs.Sequences.{IsMade, IsReady, Runs};
ghost use Rattle.solo_fresh.specs.Making.{behind_first, keeps_first, makes_run, page_in, stores_persistent};

use pm_layout::{Class, Shape, WORD_BYTES, blocks_of, descriptor_of};
use solo_memory::Stopped;
use solo_undo::persist;
use solo_view::Occ;
use solo_world::{LawfulMem, store};

/// Words of a line.
const LINE_WORDS: u64 = 8;

/// A chunk that is to be made a run.
#[derive(Clone, Copy, Debug, PartialEq, Eq)]
pub struct NewRun {
    /// The zone, 0 for the pool's first.
    pub zone: u64,
    /// The chunk, 0 for the zone's first.
    pub chunk: u64,
    /// The lines of a block: 2, 3, 4, 5, 7, 9, 15 or 31.
    pub lines: u64,
    pub ghost chunk_to: { chunk < 64 },
    pub ghost class: { 0 < blocks_of lines },
}

impl NewRun {
    /// The place in bytes at which the chunk begins.
    fn place(self, shape: Shape) -> u64
        requires { self.zone < shape.zones }
        ensures { result ≡ 4096 * page_in shape.lanes self.zone self.chunk }
    {
        shape.chunk_at(self.zone, self.chunk)
    }

    /// The word of the run's bitmap.
    fn bitmap(self, shape: Shape) -> u64
        requires { self.zone < shape.zones }
        ensures { result ≡ bitmap_word (page_in shape.lanes self.zone self.chunk) }
    {
        self.place(shape) / WORD_BYTES
    }

    /// The word of the chunk's descriptor.
    fn descriptor(self, shape: Shape) -> u64
        requires { self.zone < shape.zones }
        ensures { result ≡ descriptor_word shape.lanes (page_in shape.lanes self.zone self.chunk) }
    {
        shape.zone_at(self.zone) / WORD_BYTES + self.chunk
    }

    /// The bits of all of its blocks but the first, in the run's occupancy word.
    fn behind_first(self) -> u64
        ensures { result ≡ behind_first self.lines }
    {
        (1 << blocks_of(self.lines)) - 2
    }
}

/// Stores a word, and makes it persistent.
#[tactic(auto, using(solo_world::proofs::Sequencing::runs_then, solo_world::proofs::Sequencing::runs_err, solo_world::proofs::Sequencing::ready_first, solo_world::proofs::Sequencing::ready_then), unfolding(crate::specs::Making::stores_persistent))]
fn store_persistent<M: LawfulMem>(mem: &mut M, word: u64, value: u64) -> Result<(), Stopped>
    requires { IsReady (M.at mem.old) (stores_persistent word value) }
    ensures { Runs (M.at mem.old) (M.at mem.new) (stores_persistent word value) result }
{
    store(mem, word, value)?;
    persist(mem, word / LINE_WORDS)
}

/// Gives back all blocks of the run but its first, so that the lane has that in place of the chunk.
fn keep_first<M: LawfulMem>(mem: &mut M, shape: Shape, run: NewRun)
    requires zone { run.zone < shape.zones }
    requires ready { IsReady (M.at mem.old) (keeps_first (page_in shape.lanes run.zone run.chunk) run.lines) }
    ensures { IsMade (M.at mem.old) (M.at mem.new) (keeps_first (page_in shape.lanes run.zone run.chunk) run.lines) }
{
    mem.vacate(Occ::Run(run.place(shape)), run.behind_first());
}

/// Makes a chunk that the lane reserved a run of a class, of which it has the first block from then on, and which is persistent. Makes exactly the
/// memory calls of `makes_run`, or the first of them up to the lane's stop. Where it stops the chunk is described by 0 as before, or is a run without
/// blocks; the lane has the whole chunk still.
pub fn make_run<M: LawfulMem>(mem: &mut M, shape: Shape, run: NewRun) -> Result<(), Stopped>
    requires zone { run.zone < shape.zones }
    requires ready { IsReady (M.at mem.old) (makes_run shape.lanes (page_in shape.lanes run.zone run.chunk) run.lines) }
    ensures { Runs (M.at mem.old) (M.at mem.new) (makes_run shape.lanes (page_in shape.lanes run.zone run.chunk) run.lines) result }
{
    let descriptor = descriptor_of(Class::Lines(run.lines));
    store_persistent(mem, run.bitmap(shape), 0)?;
    store_persistent(mem, run.descriptor(shape), descriptor)?;
    keep_first(mem, shape, run);
    Ok(())
}
