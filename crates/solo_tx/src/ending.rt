ghost use Rattle.std.specs.Prelude.{◌≡◌, ℕ, Some};
ghost use Rattle.std.specs.Option.{option_copied};
ghost use Rattle.solo_memory.specs.Runs.{Made};
ghost use Rattle.pm_objects.specs.declared.calls.Operation.TheVariants.{Begin, Write};
ghost use Rattle.pm_objects.specs.declared.history.Value.TheVariants.{Refused};
ghost use Rattle.solo_view.specs.Steps.Step.{Draw};
ghost use Rattle.solo_world.specs.Sequences.{IsMade};
ghost use Rattle.solo_tx.specs.Ending.{IsReadyForAny};
ghost use Rattle.solo_tx.specs.Sequences.{ends_call};

use pm_objects::{Oid, Operation, Refusal, Value, Want};
use solo_world::{Lane, LawfulMem};

/// Tells the operation that ends the open call, and draws the call's number.
pub fn end_call<M: LawfulMem>(lane: &mut Lane<M>, operation: &Operation, reply: Option<&Value>)
    requires ready { IsReadyForAny (M.at lane.old.memory) (ends_call operation.now (option_copied reply)) }
    ensures made { IsMade (M.at lane.old.memory) (M.at lane.new.memory) (ends_call operation.now (option_copied reply.entry) lane.new.last) }
    ensures drawn { lane.new.drawn ≡ Some lane.new.last }
    ensures else_same { lane.new ≡ record lane.old { memory = lane.new.memory; drawn = lane.new.drawn; last = lane.new.last } }
{
    lane.memory.tell(operation, reply);
    draw_number(lane);
}

/// Tells the write whose refusal ends the open call, and draws the call's number.
pub fn end_write<M: LawfulMem>(
    lane: &mut Lane<M>,
    id: Oid,
    off: u64,
    bytes: &[u8],
    refusal: Refusal,
)
    requires ready { IsReadyForAny (M.at lane.old.memory) (ends_call (Write id off bytes.now) (Some (Refused refusal))) }
    ensures made { IsMade (M.at lane.old.memory) (M.at lane.new.memory) (ends_call (Write id off bytes.now) (Some (Refused refusal)) lane.new.last) }
    ensures drawn { lane.new.drawn ≡ Some lane.new.last }
    ensures else_same { lane.new ≡ record lane.old { memory = lane.new.memory; drawn = lane.new.drawn; last = lane.new.last } }
{
    lane.memory.tell_write(id, off, bytes, Some(refusal));
    draw_number(lane);
}

/// Tells the begin whose refusal ends the open call, and draws the call's number.
pub fn end_begin<M: LawfulMem>(lane: &mut Lane<M>, wants: &[Want], refusal: Refusal)
    requires ready { IsReadyForAny (M.at lane.old.memory) (ends_call (Begin wants.now) (Some (Refused refusal))) }
    ensures made { IsMade (M.at lane.old.memory) (M.at lane.new.memory) (ends_call (Begin wants.now) (Some (Refused refusal)) lane.new.last) }
    ensures drawn { lane.new.drawn ≡ Some lane.new.last }
    ensures else_same { lane.new ≡ record lane.old { memory = lane.new.memory; drawn = lane.new.drawn; last = lane.new.last } }
{
    lane.memory.tell_begin(wants, Some(refusal));
    draw_number(lane);
}

/// Draws the number of the open call, once what it did is told.
pub fn draw_number<M: LawfulMem>(lane: &mut Lane<M>)
    requires may { (n : ℕ) → M.can lane.old.memory (Draw n) }
    ensures made { Made (M.at lane.old.memory) (M.at lane.new.memory) (Draw lane.new.last) }
    ensures drawn { lane.new.drawn ≡ Some lane.new.last }
    ensures else_same { lane.new ≡ record lane.old { memory = lane.new.memory; drawn = lane.new.drawn; last = lane.new.last } }
{
    let number = lane.memory.draw();
    lane.drawn = Some(number);
    lane.last = number;
}
