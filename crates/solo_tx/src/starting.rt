ghost use Rattle.std.specs.Prelude.{◌≡◌, ◌+◌, ◌*◌, ◌<◌, IfErr, IfOk, OnErr};
ghost use Rattle.pm_objects.specs.declared.refusal.Refusal.TheVariants as refusal;
ghost use Rattle.solo_view.specs.View.{View};
ghost use Rattle.solo_world.specs.Records.{generation_of};
ghost use Rattle.solo_world.specs.Sequences.{IsMade};
ghost use Rattle.solo_lock.specs.Resting.{IsAtRest, IsLaneAtRest};
ghost use Rattle.solo_tx.specs.Beginning.{IsBegunBy, IsSpent};
ghost use Rattle.solo_tx.specs.Sequences.{sees_generation, starts};

use pm_objects::Refusal;
use solo_world::{Lane, LawfulMem};

/// Generations and commit numbers are below this where a call begins.
const LIMIT: u64 = 1 << 62;

/// Words before the first lane's area, and in each area.
const FIRST_AREA: u64 = 512;

const AREA_WORDS: u64 = 1024;

/// Loads the lane's generation.
fn load_generation<M: LawfulMem>(lane: &mut Lane<M>) -> u64
    requires rests { IsLaneAtRest M.at lane.old }
    ensures made { IsMade (M.at lane.old.memory) (M.at lane.new.memory) sees_generation }
    ensures found { (v : View) → M.at lane.old.memory v → result ≡ generation_of v }
    ensures else_same { lane.new ≡ record lane.old { memory = lane.new.memory } }
{
    let number = lane.memory.lane();
    lane.memory.load(FIRST_AREA + AREA_WORDS * number)
}

/// Begins a call of the lane: how many commit numbers were drawn, as it sees. `Spent` where its generation or that number is 2^62 or more,
/// which leaves the lane at rest.
pub fn start<M: LawfulMem>(lane: &mut Lane<M>) -> Result<u64, Refusal>
    requires rests { IsLaneAtRest M.at lane.old }
    ensures begun { IfOk result (λ n. (v : View) → IsAtRest M.at lane.old v → IsBegunBy M.at lane.new v (starts n)) }
    ensures spent { OnErr result ((v : View) → IsAtRest M.at lane.old v → IsSpent M.at lane.new v) }
    ensures causes { IfErr result (λ r. r ≡ refusal.Spent) }
    ensures else_same { lane.new ≡ record lane.old { memory = lane.new.memory } }
{
    if load_generation(lane) >= LIMIT {
        return Err(Refusal::Spent);
    }
    let drawn = lane.memory.number_seen();
    if drawn >= LIMIT {
        return Err(Refusal::Spent);
    }
    Ok(drawn)
}
