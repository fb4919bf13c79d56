use crate::{SharedLane, TableName};
use pm_memory::LaneSync;
use pm_view::Occ;

impl<'a, N: TableName> LaneSync for SharedLane<'a, N> {
    fn take_write(&mut self, line: u64) -> bool {
        self.memory.takes_write(&mut self.seat, self.lane, line)
    }

    fn take_read(&mut self, line: u64) -> bool {
        self.memory.takes_read(&mut self.seat, self.lane, line)
    }

    fn raise(&mut self, line: u64) -> bool {
        self.memory.raises(&mut self.seat, self.lane, line)
    }

    fn give(&mut self, line: u64) {
        self.memory.gives(&mut self.seat, self.lane, line);
    }

    fn zone_try(&mut self, zone: u64) -> bool {
        self.memory.tries_zone(&mut self.seat, self.lane, zone)
    }

    fn zone_give(&mut self, zone: u64) {
        self.memory.gives_zone(&mut self.seat, self.lane, zone);
    }

    fn occupied(&mut self, at: Occ) -> u64 {
        match at {
            Occ::Run(place) => self.memory.sees_run(&mut self.seat, self.lane, place),
            Occ::Zone(zone) => self.memory.sees_zone(&mut self.seat, self.lane, zone),
        }
    }

    fn occupy(&mut self, at: Occ, bits: u64) -> bool {
        match at {
            Occ::Run(place) => self
                .memory
                .occupies_run(&mut self.seat, self.lane, place, bits),
            Occ::Zone(zone) => self
                .memory
                .occupies_zone(&mut self.seat, self.lane, zone, bits),
        }
    }

    fn vacate(&mut self, at: Occ, bits: u64) {
        match at {
            Occ::Run(place) => self
                .memory
                .vacates_run(&mut self.seat, self.lane, place, bits),
            Occ::Zone(zone) => self
                .memory
                .vacates_zone(&mut self.seat, self.lane, zone, bits),
        }
    }

    fn draw(&mut self) -> u64 {
        self.memory.draws(&mut self.seat, self.lane)
    }

    fn number_seen(&mut self) -> u64 {
        self.memory.sees_number(&mut self.seat, self.lane)
    }

    fn stop_seen(&mut self) -> bool {
        self.memory.sees_stop(&mut self.seat, self.lane)
    }

    fn set_stop(&mut self) {
        self.memory.sets_stop(&mut self.seat, self.lane);
    }
}
