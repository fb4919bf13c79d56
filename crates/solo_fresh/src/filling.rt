ghost use Rattle.std.specs.Prelude.{◌≡◌, ℕ, ◌+◌, ◌*◌, ◌^◌, ◌<◌, ◌≤◌};
ghost use Rattle.solo_world.specs.Sequences.{IsReady, Runs};
ghost use Rattle.solo_fresh.specs.Filling.{fresh_word, stores_line, fills_line, fills_lines, fills};

use solo_memory::Stopped;
use solo_world::{LawfulMem, store};

/// Words of a line.
const LINE_WORDS: u64 = 8;

/// What a new object's block begins with.
#[derive(Clone, Copy, Debug, PartialEq, Eq)]
pub struct Header {
    /// The object's type.
    pub kind: u64,
    /// Its bytes.
    pub size: u64,
}

impl Header {
    /// A word of the block, counted from its first.
    fn word(self, place: u64) -> u64
        ensures { result ≡ fresh_word self.kind self.size place }
    {
        match place {
            0 => self.kind,
            1 => self.size,
            _ => 0,
        }
    }
}

/// Stores the words of line i of the block that begins at a line.
fn store_line<M: LawfulMem>(mem: &mut M, line: u64, header: Header, i: u64) -> Result<(), Stopped>
    requires inside { 8 * (line + i) + 8 ≤ 2 ^ 64 }
    requires ready { IsReady (M.at mem.old) (stores_line line header.kind header.size i) }
    ensures { Runs (M.at mem.old) (M.at mem.new) (stores_line line header.kind header.size i) result }
{
    for j in 0..LINE_WORDS {
        let place = LINE_WORDS * i + j;
        store(mem, LINE_WORDS * line + place, header.word(place))?;
    }
    Ok(())
}

/// Stores the words of line i of the block that begins at a line, and flushes the line.
#[tactic(auto, using(solo_world::proofs::Sequencing::runs_then, solo_world::proofs::Sequencing::runs_err, solo_world::proofs::Sequencing::runs_one, solo_world::proofs::Sequencing::allowed_one, solo_world::proofs::Sequencing::ready_first, solo_world::proofs::Sequencing::ready_then), unfolding(crate::specs::Filling::fills_line))]
fn fill_line<M: LawfulMem>(mem: &mut M, line: u64, header: Header, i: u64) -> Result<(), Stopped>
    requires inside { 8 * (line + i) + 8 ≤ 2 ^ 64 }
    requires ready { IsReady (M.at mem.old) (fills_line line header.kind header.size i) }
    ensures { Runs (M.at mem.old) (M.at mem.new) (fills_line line header.kind header.size i) result }
{
    store_line(mem, line, header, i)?;
    mem.flush(line + i)
}

/// Makes the lines of a block those of a new object, one after another.
fn fill_lines<M: LawfulMem>(
    mem: &mut M,
    line: u64,
    lines: u64,
    header: Header,
) -> Result<(), Stopped>
    requires inside { (i : ℕ) → i < lines → 8 * (line + i) + 8 ≤ 2 ^ 64 }
    requires ready { IsReady (M.at mem.old) (fills_lines line lines header.kind header.size) }
    ensures { Runs (M.at mem.old) (M.at mem.new) (fills_lines line lines header.kind header.size) result }
{
    for i in 0..lines {
        fill_line(mem, line, header, i)?;
    }
    Ok(())
}

/// Makes a block, by its first line and how many it has, a new object, and persistent. Makes exactly the memory calls of `fills`, or the first
/// of them up to the lane's stop.
#[tactic(auto, using(solo_world::proofs::Sequencing::runs_then, solo_world::proofs::Sequencing::runs_err, solo_world::proofs::Sequencing::runs_one, solo_world::proofs::Sequencing::allowed_one, solo_world::proofs::Sequencing::ready_first, solo_world::proofs::Sequencing::ready_then), unfolding(crate::specs::Filling::fills))]
pub fn fill<M: LawfulMem>(mem: &mut M, line: u64, lines: u64, header: Header) -> Result<(), Stopped>
    requires { IsReady (M.at mem.old) (fills line lines header.kind header.size) }
    ensures { Runs (M.at mem.old) (M.at mem.new) (fills line lines header.kind header.size) result }
{
    // The words may be stored, so they lie in the pool, which has fewer than 2^64: their numbers do not wrap.
    let _words = mem.words();
    fill_lines(mem, line, lines, header)?;
    mem.drain()
}
