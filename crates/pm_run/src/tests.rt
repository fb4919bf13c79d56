//! Works that make no call run on the lanes of a new pool.

ghost use Rattle.std.specs.Prelude.{◌≡◌, IfOk};
ghost use Rattle.pm_shared.specs.Openings.{CanBegin};

use super::*;
use pm_lanes::open;
use pm_layout::Shape;
use pm_objects::Stops;
use pm_pool::create;
use pm_shared::Beginning;
use pm_world::{Lane, LawfulMem};
use std::alloc::Global;
use std::sync::Wait;
use std::test::Fail;

/// A work that makes no call, and counts how often it ran.
#[derive(Drop)]
struct Idle {
    runs: u64,
}

impl Work for Idle {
    ghost use Rattle.std.specs.Prelude.{◌≡◌, [], ⊤};
    ghost use Rattle.pm_call.specs.Histories.{calls_ended};

    ghost can = { λ work. ⊤ };

    ghost left = { λ before after view. calls_ended view ≡ [] };

    fn run<M: LawfulMem, R: Wait>(&mut self, rt: &R, lane: &mut Lane<M>) {
        self.runs = self.runs.saturating_add(1);
        for _ in rt.forever() {
            if lane.idle() {
                return;
            }
        }
        unreachable!();
    }
}

/// What both lanes of a new pool begin on.
fn two_lanes(alloc: Global) -> Result<Beginning, Fail>
    ensures begins { IfOk result CanBegin }
    ensures lanes { IfOk result (λ beginning. beginning.lanes ≡ 2) }
{
    let image = create(alloc, Shape::new(2, 1)?, 7, "run", 64)?;
    match open(alloc, image, "run", 2, Stops::none()) {
        Ok(beginning) => Ok(beginning),
        Err(_) => Err(Fail::from("a pool that opens")),
    }
}

/// Each work runs once, on a lane of its own; the image is the recovered words, and has no lane's
/// open call.
#[test]
fn idle_lanes_change_nothing(rt: HostRuntime) -> Result<(), Fail> {
    for keep in 0..3 {
        let beginning = two_lanes(rt.alloc())?;
        let before = beginning.words.to_vec(rt.alloc())?;
        let mut works = Vec::new(rt.alloc());
        works.push(Idle { runs: 0 })?;
        works.push(Idle { runs: 0 })?;
        let ran = run_lanes(&rt, rt.alloc(), beginning, works, keep)?;
        assert!(rt; ran.image.as_slice() == before.as_slice());
        assert!(rt; ran.works.iter().all(|work| work.runs == 1));
        assert!(rt; ran.kept.len() == 2 && ran.kept.iter().all(|kept| !*kept));
    }
    Ok(())
}
