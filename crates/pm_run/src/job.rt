ghost use Rattle.std.specs.Prelude.{◌<◌, length};
ghost use Rattle.pm_run.specs.Jobs.{AllRan, CanRun, IsDone};
ghost use Rattle.pm_view.specs.View.{View};
ghost use Rattle.std.specs.List.{All};

use crate::Work;
use pm_shared::{SharedLane, TableName};
use pm_world::Lane;
use std::sync::Wait;
use std::thread;
use std::thread::Threads;

/// A work, with the lane on which it runs and the lane's number.
#[derive(Drop)]
pub struct Job<'a, N: TableName, W> {
    pub number: u64,
    pub lane: Lane<SharedLane<'a, N>>,
    pub work: W,
}

impl<'a, N: TableName, W: Work> Job<'a, N, W> {
    /// Runs the work.
    fn run<R: Wait>(&mut self, rt: &R)
        requires { CanRun W.can self.old }
        ensures { IsDone W.left self.old.number self.old.work self.new }
    {
        self.work.run(rt, &mut self.lane);
    }
}

/// Runs the works, each in a thread of its own.
pub fn run_jobs<'a, N: TableName + Send + Sync, W: Work + Send, R: Threads + Wait + Sync>(
    rt: &R,
    jobs: &mut [Job<'a, N, W>],
)
    requires some { 0 < length jobs.old }
    requires ready { All (CanRun W.can) jobs.old }
    ensures { AllRan W.left jobs.old jobs.new }
{
    let threads = jobs.len();
    thread::for_each_mut(
        rt,
        jobs,
        threads,
        &|_, job: &mut Job<'_, N, W>|
            requires { CanRun W.can job.old }
            ensures { IsDone W.left job.old.number job.old.work job.new }
        { job.run(rt) },
    );
}
