//! A new object.

ghost use Rattle.std.specs.Prelude.{◌≡◌, ◌≤◌, IfOk, IfErr};
ghost use Rattle.solo_view.specs.View.{View};
ghost use Rattle.solo_alloc.specs.NewObjects.{CanMakeObject, GivesNoObject, HasNewObject, HasObject, MayMakeAnother};

use pm_image::Block;
use pm_layout::{LINE_BYTES, MAX_SIZE};
use solo_blocks::{NoBlock, reserve};
use solo_fresh::{Header, fill};
use solo_world::{Lane, LawfulMem};

/// Reserves a block for an object of so many bytes, 0 to `MAX_SIZE`, and makes it a new object: its type, its size and zeros, all of it persistent. The
/// block, by its place in bytes, is the one that `reserve` finds. The lane is alone, so far. `Refused(NoSpace)` says that there is no room; it is refused
/// for nothing else, and nothing is reserved then. `Stopped` says that the lane came to its stop number as it reserved the block or filled it. Unless it
/// stopped, the lane may make another object.
pub fn new_object<M: LawfulMem>(lane: &mut Lane<M>, size: u64, kind: u64) -> Result<Block, NoBlock>
    requires size { size ≤ MAX_SIZE }
    requires may { (v : View) × (M.at lane.old.memory v × CanMakeObject v lane.old.shape) }
    ensures got { IfOk result (λ block. (v : View) → M.at lane.old.memory v → CanMakeObject v lane.old.shape → HasNewObject (M.at lane.new.memory) v size kind block) }
    ensures made { IfOk result (λ block. (v : View) → M.at lane.old.memory v → CanMakeObject v lane.old.shape → HasObject (M.at lane.new.memory) v lane.old.shape size kind block) }
    ensures none { IfErr result (λ why. (v : View) → M.at lane.old.memory v → CanMakeObject v lane.old.shape → GivesNoObject (M.at lane.new.memory) v size kind why) }
    ensures next { (v : View) → M.at lane.old.memory v → CanMakeObject v lane.old.shape → MayMakeAnother (M.at lane.new.memory) lane.old.shape result }
    ensures else_same { lane.new ≡ record lane.old { memory = lane.new.memory } }
{
    let block = reserve(lane, size)?;
    let line = block.place / LINE_BYTES;
    let header = Header { kind, size };
    fill(&mut lane.memory, line, block.lines, header)?;
    Ok(block)
}
