//! A lane's calls, as what runs on it.

use crate::running::{close, run_calls};
use crate::work::LaneWork;
use pm_run::Work;
use pm_shelf::Gate;
use pm_world::{Lane, LawfulMem};
use std::sync::Wait;

impl<'s, G: Gate> Work for LaneWork<'s, G> {
    ghost use Rattle.pm_exec.specs.Works.{CanRunWork, WorkLeft};

    ghost can = { CanRunWork };

    ghost left = { WorkLeft };

    fn run<M: LawfulMem, R: Wait>(&mut self, rt: &R, lane: &mut Lane<M>) {
        if let Some(calls) = self.calls.take() {
            let (unanswered, end) = run_calls(
                rt,
                self.gate,
                lane,
                self.number,
                self.names,
                calls,
                &mut self.answers,
            );
            self.unanswered = unanswered;
            self.end = end;
        }
        self.end = close(lane, self.end);
    }
}
