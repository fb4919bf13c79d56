//! The standard output as a sink.
ghost use Rattle.std.specs.Prelude.{◌≡◌, ◌≤◌, None};
ghost use Rattle.pm_shelf.specs.Plan.{one_more};

use crate::{Sink, SinkFault};

/// The standard output of a runtime. It tells nothing of what was put. Each error of a write is
/// `Failed`, and raises the count of faults by one, up to the largest `u64`.
#[derive(Drop)]
pub struct OutputSink<R> {
    rt: R,
    faults: u64,
}

impl<R> OutputSink<R> {
    ghost use Rattle.pm_shelf.specs.OutputSink.{sink_faults};

    /// A sink over the output of a runtime, or of a `&` to one.
    pub fn new(rt: R) -> Self
        ensures { sink_faults result ≡ 0 }
    {
        OutputSink { rt, faults: 0 }
    }

    /// How many puts failed.
    pub fn faults(&self) -> u64
        ensures { result ≡ sink_faults self.now }
    {
        self.faults
    }

    fn count_fault(&mut self) -> SinkFault
        ensures fault { result ≡ SinkFault.Failed }
        ensures counted { sink_faults self.new ≡ one_more (sink_faults self.old) }
        ensures no_fewer { sink_faults self.old ≤ sink_faults self.new }
    {
        self.faults = self.faults.saturating_add(1);
        SinkFault::Failed
    }
}

impl<R: Print> Sink for OutputSink<R> {
    ghost use Rattle.pm_shelf.specs.OutputSink.{sink_faults};

    ghost told = { λ _. None };

    ghost faults = { sink_faults };

    fn put(&mut self, bytes: &[u8]) -> Result<(), SinkFault> {
        match self.rt.write_all(bytes) {
            Ok(()) => Ok(()),
            Err(_) => Err(self.count_fault()),
        }
    }
}
