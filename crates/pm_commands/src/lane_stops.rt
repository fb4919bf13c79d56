ghost use Rattle.pm_commands.specs.LaneStops.{AreStopsFor};

use pm_objects::Stops;
use pm_script::stop_of;

/// The stop numbers of lanes 0 to 31.
pub fn lane_stops(stops: &[(u64, u64)]) -> Stops
    ensures { AreStopsFor stops.now result }
{
    let mut all = Stops::none();
    for lane in 0..32 {
        if let Some(calls) = stop_of(lane as u64, stops) {
            all.set(lane, calls);
        }
    }
    all
}
