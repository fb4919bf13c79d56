ghost use Rattle.std.specs.Prelude.{◌≡◌, ◌==◌, ℕ, List, map, IfOk, IfSome, IfNone};
ghost use Rattle.std.specs.List.{list_any};
ghost use Rattle.solo_script.specs.Stops.{AreStops, IsStop, parts, stop_of};
ghost use Rattle.solo_script.specs.Words.{texts};

use crate::numbers::number;
use std::alloc::{AllocError, Global};

/// After how many counted calls lanes stop, each with its lane; nothing where the text is no list of stops (docs/COMMANDS.md, "Stops"). The
/// only error is want of memory.
pub fn stops(alloc: Global, text: &str) -> Result<Option<Vec<(u64, u64)>>, AllocError>
    ensures some { IfOk result (λ found. IfSome found (λ stops. AreStops text.now stops.items)) }
    ensures none { IfOk result (λ found. IfNone found ((stops : List (ℕ × ℕ)) → ¬ AreStops text.now stops)) }
{
    let parts = parts_of(alloc, text)?;
    let mut stops = Vec::new(alloc);
    for part in &parts {
        let Some(stop) = stop_in(part) else {
            return Ok(None);
        };
        if has_lane(&stops, stop.0) {
            return Ok(None);
        }
        stops.push(stop)?;
    }
    Ok(Some(stops))
}

/// What the commas of a text part.
fn parts_of(alloc: Global, text: &str) -> Result<Vec<&str>, AllocError>
    ensures { IfOk result (λ found. texts found.items ≡ parts text.now) }
{
    text.split(',').collect(alloc)
}

/// Reads `LANE:CALLS`.
fn stop_in(text: &str) -> Option<(u64, u64)>
    ensures some { IfSome result (IsStop text.now) }
    ensures none { IfNone result ((stop : ℕ × ℕ) → ¬ IsStop text.now stop) }
{
    let (lane, calls) = text.split_once(':')?;
    let lane = number(lane)?;
    let calls = number(calls)?;
    Some((lane, calls))
}

/// Whether one of the stops is of the lane.
fn has_lane(stops: &[(u64, u64)], lane: u64) -> bool
    ensures { result ≡ list_any (λ (stop : ℕ × ℕ). stop.0 == lane) stops.now }
{
    stops.iter().any(|stop| stop.0 == lane)
}

/// The lane's stop number, if it has one.
pub fn stop_of(lane: u64, stops: &[(u64, u64)]) -> Option<u64>
    ensures { result ≡ stop_of lane stops.now }
{
    for (other, calls) in stops {
        if *other == lane {
            return Some(*calls);
        }
    }
    None
}
