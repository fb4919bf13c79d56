//! What is published, moved to the lists of a call.

ghost use Rattle.std.specs.Prelude.{◌≡◌, ℕ, ◌+◌, ◌≤◌, All, List, length, map};
ghost use Rattle.solo_crash.specs.CallBlocks.{CallBlocks as Call, with_all_freed, with_all_made};
ghost use Rattle.solo_made.specs.Made.{BlockLists, FitsPages, ListsBlocks};
ghost use Rattle.solo_model.specs.Actions.{Reservation};
ghost use Rattle.solo_pending.specs.AllPending.{reserved_as};
ghost use Rattle.solo_pending.specs.declared.pending.Reserved.{Reserved};
ghost use Rattle.solo_transaction.specs.AtWork.{HasBlock, IsHeldFreed};
ghost use Rattle.solo_transaction.specs.PublishedLists.{CanListFreed, HaveBlocks, IsUnderLockOf, made_of};

use crate::freeing::held_block;
use pm_objects::Oid;
use solo_made::{CallBlocks, Made};
use solo_pending::Reserved;
use solo_world::HeldLock;

/// How many lines the block of the object at the offset has, which lies under one of these locks; 0 where none is its own.
fn lines_held(locks: &[HeldLock], off: u64) -> u64
    ensures held { HaveBlocks locks.now → IsUnderLockOf locks.now off → HasBlock locks.now off result }
{
    match held_block(locks, off) {
        Some(lines) => lines,
        None => 0,
    }
}

/// Lists the objects as freed, in their order: one that the call made is no more listed as such, any other is listed with the lines of its block.
pub fn move_frees(blocks: &mut CallBlocks, locks: &[HeldLock], ids: &[Oid])
    requires can { (call : Call) × CanListFreed locks.now blocks.old call ids.now }
    ensures of_call { (call : Call) → ListsBlocks blocks.old call → ListsBlocks blocks.new (with_all_freed ids.now call) }
    ensures held { All (IsHeldFreed locks.now) blocks.old.freed → All (IsHeldFreed locks.now) blocks.new.freed }
    ensures pages { length blocks.new.dropped ≡ length blocks.old.dropped }
{
    for id in ids {
        let lines = lines_held(locks, id.off);
        blocks.free(id.off, lines);
    }
}

/// Lists what is reserved as made, in its order.
pub fn move_reserved(blocks: &mut CallBlocks, reserved: &[Reserved])
    requires few { length blocks.old.made + length reserved.now ≤ 63 }
    requires fit { All (λ (r : Reserved). FitsPages (length blocks.old.dropped) (made_of r)) reserved.now }
    ensures of_call { (call : Call) (rs : List Reservation) → reserved.now ≡ map reserved_as rs → ListsBlocks blocks.old call → ListsBlocks blocks.new (with_all_made rs call) }
    ensures else_same { blocks.new ≡ record blocks.old { made = blocks.new.made } }
{
    for one in reserved {
        blocks.add_made(Made {
            off: one.off,
            kind: one.kind,
            size: one.size,
        });
    }
}
