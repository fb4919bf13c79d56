ghost use Rattle.pm_crash.specs.Scenes.{ScenesAreRead, ScenesAreWritten, ScenesBegin, ScenesEnd, ScenesGainBlocks, ScenesLoseBlocks};

/// A law: the blocks, words and items that a lane at work has before it. Bits that hold a pool begin
/// such a scene, a read finds its bytes, each write, each block that goes and each that comes is one
/// edit of its items, and bits that hold a pool with its blocks and words hold its items. No code
/// runs.
pub fn scenes_go_on()
    ensures begins { ScenesBegin }
    ensures reads { ScenesAreRead }
    ensures writes { ScenesAreWritten }
    ensures loses { ScenesLoseBlocks }
    ensures gains { ScenesGainBlocks }
    ensures ends { ScenesEnd }
{}
