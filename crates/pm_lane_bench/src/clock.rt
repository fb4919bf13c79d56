use crate::{BLOCK, Failure, ROUND};
use std::time::{Duration, Instant};

/// Reads the clock before and after each block in which no step is made, and tells how long that
/// took.
pub fn readings(rt: &HostRuntime, rounds: u64) -> Result<Duration, Failure> {
    let mut took = Duration::ZERO;
    for _ in 0..rounds {
        let more = reading_round(rt)?;
        took = took.checked_add(more).ok_or(Failure)?;
    }
    Ok(took)
}

fn reading_round(rt: &HostRuntime) -> Result<Duration, Failure> {
    let mut took = Duration::ZERO;
    for _ in 0..ROUND / BLOCK {
        let start = Instant::now(rt)?;
        took = took.checked_add(start.elapsed(rt)?).ok_or(Failure)?;
    }
    Ok(took)
}
