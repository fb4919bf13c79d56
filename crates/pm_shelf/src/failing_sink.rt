//! A sink in memory whose puts fail by plan.
ghost use Rattle.std.specs.Prelude.{◌≡◌, ◌↔◌, ◌≤◌, [], IsTrue, OnOk, OnErr, IsErrOf};
ghost use Rattle.pm_shelf.specs.Outside.{Rose, gained, GainedPart};
ghost use Rattle.pm_shelf.specs.Plan.{is_due, after_call};

use crate::call_plan::CallPlan;
use crate::{ListSink, Sink, SinkFault};
use std::alloc::Global;

/// A `ListSink` with a list of the puts that are to fail, counted from 0. A put that is to fail
/// answers `Failed`, puts nothing and raises the count of faults by one; no other put answers
/// `Failed` or raises it. Both counts stand still at the largest `u64`.
#[derive(Debug, Drop)]
pub struct FailingSink {
    sink: ListSink,
    plan: CallPlan,
}

impl FailingSink {
    ghost use Rattle.pm_shelf.specs.FailingSink.{sink_plan, bytes_put};

    /// A sink into which nothing was put, and the numbers of the puts that are to fail, in any
    /// order.
    pub fn new(alloc: Global, failing: Vec<u64>) -> Self
        ensures empty { bytes_put result ≡ [] }
        ensures plan { sink_plan result ≡
            record { failing = failing.items; calls = 0; faults = 0 } }
    {
        FailingSink {
            sink: ListSink::new(alloc),
            plan: CallPlan::new(failing),
        }
    }

    /// The bytes put so far, in order.
    pub fn bytes(&self) -> &[u8]
        ensures { result.now ≡ bytes_put self.now }
    {
        self.sink.bytes()
    }

    /// How many puts failed.
    pub fn faults(&self) -> u64
        ensures { result ≡ (sink_plan self.now).faults }
    {
        self.plan.faults()
    }
}

impl Sink for FailingSink {
    ghost use Rattle.pm_shelf.specs.FailingSink.{sink_plan, failing_told};

    ghost told = { failing_told };

    ghost faults = { λ sink. (sink_plan sink).faults };

    /// As the trait says, it fails exactly by plan, and each error puts nothing.
    fn put(&mut self, bytes: &[u8]) -> Result<(), SinkFault>
        ensures ok { OnOk result
            (failing_told self.new ≡ gained (failing_told self.old) bytes.now) }
        ensures failed { IsErrOf result SinkFault.Failed →
            Rose (sink_plan self.old).faults (sink_plan self.new).faults }
        ensures part { IsErrOf result SinkFault.Failed →
            GainedPart (failing_told self.old) (failing_told self.new) bytes.now }
        ensures memory { IsErrOf result SinkFault.Memory →
            failing_told self.new ≡ failing_told self.old }
        ensures count { (sink_plan self.old).faults ≤ (sink_plan self.new).faults }

        ensures by_plan { IsErrOf result SinkFault.Failed ↔ IsTrue (is_due (sink_plan self.old)) }
        ensures counted { sink_plan self.new ≡ after_call (sink_plan self.old) }
        ensures kept { OnErr result (failing_told self.new ≡ failing_told self.old) }
    {
        if self.plan.count_call() {
            return Err(SinkFault::Failed);
        }
        self.sink.put(bytes)
    }
}
