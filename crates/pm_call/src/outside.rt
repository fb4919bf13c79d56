ghost use Rattle.std.specs.Prelude.{◌≡◌, ◌+◌};
ghost use Rattle.std.specs.Option.{option_map};
ghost use Rattle.pm_plan.specs.Plans.{IsMade};
ghost use Rattle.pm_world.specs.LaneFields.{fields_of};
ghost use Rattle.pm_world.specs.Lent.{operation_of, value_of};
ghost use Rattle.pm_call.specs.GivenUp.{MayEnd};
ghost use Rattle.pm_call.specs.Outside.{ActionsMayBeTold, RefusedPublicationsEnd, TriedLocksLeaveOpen};
ghost use Rattle.pm_call.specs.Plans.{ends_call};

use pm_world::{Lane, LawfulMem, LentOperation, LentValue};

/// A law: in a call that is open with nothing told, an action on words alone, that one be set or that
/// what is pending be dropped, may be told with the model's reply, whatever number the call takes; it
/// is an entry of the history, and the lane is between two calls then. No code runs.
pub fn actions_may_be_told()
    ensures { ActionsMayBeTold }
{}

/// A law: a publish outside a transaction that is refused, for an id without a place, for no object
/// under a lock, or for the sizes that its lane looked at, may be told so, whatever locks the lane got
/// and whatever number the call takes; what is pending stays, and the call is over then. No code runs.
pub fn refused_publications_end()
    ensures ended { RefusedPublicationsEnd }
    ensures tried { TriedLocksLeaveOpen }
{}

/// Tells the operation that is a call of its own, with its reply, and draws the call's number: how
/// many were drawn before.
pub fn end_outside<M: LawfulMem>(
    lane: &mut Lane<M>,
    told: LentOperation<'_>,
    reply: Option<LentValue<'_>>,
) -> u64
    requires { MayEnd (M.at lane.old.memory) (operation_of told) (option_map value_of reply) }
    ensures made { IsMade (M.at lane.old.memory) (M.at lane.new.memory)
        (ends_call (operation_of told.entry) (option_map value_of reply.entry) result) }
    ensures fields { fields_of lane.new ≡ record (fields_of lane.old) { last = result + 1 } }
{
    lane.memory.tell(told, reply);
    let number = lane.memory.draw();
    lane.last = number + 1;
    number
}
