ghost use Rattle.pm_crash.specs.OwnBlocks.{OwnBlocksAreFree};
ghost use Rattle.pm_crash.specs.Objects.{BlocksHaveItems, ItemsHaveBlocks, OffsetsTellBlocks, RootIsTold};
ghost use Rattle.pm_crash.specs.HeapChanges.{BlocksChange, BlocksStay, ChangedHeapsHold};
ghost use Rattle.pm_crash.specs.Objects.{GoodHeapsHold, HeldHeapsAreGood};

/// A law: of bits that hold a pool, in each allocated block stands an item of the pool, with the type
/// and bytes that stand there, each item of the pool stands in one, an offset is one block's, and the
/// root is what the root word says. No code runs.
pub fn blocks_are_items()
    ensures blocks { BlocksHaveItems }
    ensures items { ItemsHaveBlocks }
    ensures offsets { OffsetsTellBlocks }
    ensures root { RootIsTold }
{}

/// A law: bits hold a pool exactly where their runs have classes, their huge blocks have chunks that
/// nothing else has, their blocks have objects of their sizes, and their root is there. No code runs.
pub fn good_heaps_hold_pools()
    ensures good { GoodHeapsHold }
    ensures held { HeldHeapsAreGood }
{}

/// A law: from bits that hold a pool, a difference that makes blocks of what is free, frees blocks and
/// leaves the headers of the others makes bits that hold a pool. Its blocks are those before, with
/// those made and without those freed, and the others lie where they did. No code runs.
pub fn a_difference_changes_the_heap()
    ensures holds { ChangedHeapsHold }
    ensures blocks { BlocksChange }
    ensures places { BlocksStay }
{}

/// A law: from all bits that may precede a lane's call and that hold a pool, a difference that makes
/// blocks of the lane's own and frees blocks that it found changes blocks as a heap's may: what is
/// the lane's own is free, whatever other lanes did. No code runs.
pub fn own_blocks_are_free()
    ensures { OwnBlocksAreFree }
{}
