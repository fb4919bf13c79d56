ghost use Rattle.std.specs.Prelude.{◌≡◌, ◌<◌};
ghost use Rattle.pm_view.specs.LockWords.{with_writer, with_reader, with_raised, without_lane};

use pm_layout::MAX_LANES;

/// The bits of lanes that read come before those of lanes that write; lanes count from 0 to 31.
const READERS: u64 = MAX_LANES;

/// The lock word once the lane writes; none where somebody has the lock.
pub fn write_taken(lane: u64, word: u64) -> Option<u64>
    requires { lane < 32 }
    ensures { result ≡ with_writer lane word }
{
    if word == 0 {
        Some(1 << (READERS + lane))
    } else {
        None
    }
}

/// The lock word once the lane reads; none where somebody writes.
pub fn read_taken(lane: u64, word: u64) -> Option<u64>
    requires { lane < 32 }
    ensures { result ≡ with_reader lane word }
{
    if word >> READERS == 0 {
        Some(word | 1 << lane)
    } else {
        None
    }
}

/// The lock word once the lane, which reads, writes; none where somebody else reads.
pub fn raised(lane: u64, word: u64) -> Option<u64>
    requires { lane < 32 }
    ensures { result ≡ with_raised lane word }
{
    if word == 1 << lane {
        Some(1 << (READERS + lane))
    } else {
        None
    }
}

/// The lock word once the lane has given the lock back.
pub fn given(lane: u64, word: u64) -> u64
    requires { lane < 32 }
    ensures { result ≡ without_lane lane word }
{
    word & !(1 << lane | 1 << (READERS + lane))
}
