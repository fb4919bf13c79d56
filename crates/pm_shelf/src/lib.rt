//! The outside of a program: named byte strings that are read whole and written once (a shelf),
//! and a stream of printed bytes (a sink). A program whose top call takes any `Shelf` and `Sink` is
//! proved over what their contracts tell, and runs over files and standard output. Shelves and
//! sinks in memory, which fail by plan or never, serve its tests. Files and standard output tell no
//! content: they stand on std's, and promise only to count each failure of the outside. A gate is
//! passed before each script line of a lane, so that a test can hold one lane until another came.
#![tactic(auto)]

mod call_plan;
mod failing_shelf;
mod failing_sink;
mod file_shelf;
mod gate;
mod list_sink;
mod map_shelf;
mod output_sink;
mod shelf;
mod sink;

pub use failing_shelf::FailingShelf;
pub use failing_sink::FailingSink;
pub use file_shelf::FileShelf;
pub use gate::{Gate, IdleGate, MOST_TURNS, MeetingGate, Place};
pub use list_sink::ListSink;
pub use map_shelf::MapShelf;
pub use output_sink::OutputSink;
pub use shelf::{Shelf, ShelfFault};
pub use sink::{Sink, SinkFault};

#[cfg(test)]
mod tests;
