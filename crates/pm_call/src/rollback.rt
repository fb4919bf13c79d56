ghost use Rattle.std.specs.Prelude.{◌≡◌, ◌≢◌, ◌+◌, ℕ, true, [], Some};
ghost use Rattle.pm_objects.specs.declared.history.Value.TheVariants.{Refused};
ghost use Rattle.std.specs.Option.{option_map};
ghost use Rattle.pm_memory.specs.Runs.{Made};
ghost use Rattle.pm_model.specs.declared.stage.Stage.TheVariants as stage;
ghost use Rattle.pm_objects.specs.declared.refusal.Refusal.TheVariants as refusal;
ghost use Rattle.pm_view.specs.Steps.Step.{Draw};
ghost use Rattle.pm_view.specs.View.{View};
ghost use Rattle.pm_world.specs.Lawful.{Allowed};
ghost use Rattle.pm_world.specs.LaneFields.{fields_of};
ghost use Rattle.pm_world.specs.Lent.{operation_of, value_of};
ghost use Rattle.pm_plan.specs.Plans.{IsMade, in_turn};
ghost use Rattle.pm_undo.specs.Plans.{restores, retires};
ghost use Rattle.pm_undo.specs.Undoing.{Stands};
ghost use Rattle.pm_undo.specs.Working.{IsWorking};
ghost use Rattle.pm_call.specs.GivenUp.{GivenUp, GivesUp, IsAtBut, MayEnd, MovedLog, Refuses};
ghost use Rattle.pm_call.specs.Plans.{ends_call, takes_back};

use pm_memory::Stopped;
use pm_model::Stage;
use pm_objects::{Refusal, TxErr, Value};
use pm_plan::persist_all;
use pm_undo::{restore, retire};
use pm_world::{Lane, LawfulMem, LentOperation, LentValue};

/// Says that the lane came to its stop.
pub fn stop<M>(lane: &mut Lane<M>) -> Refusal
    ensures answer { result ≡ refusal.Stopped }
    ensures lane { lane.new ≡ record lane.old { stopped = true } }
{
    lane.stopped = true;
    Refusal::Stopped
}

/// Puts every recorded word back, and ends the records' generation.
fn undo<M: LawfulMem>(lane: &mut Lane<M>) -> Result<(), Stopped>
    requires { Stands M.at lane.old IsWorking }
    ensures { MovedLog M.at lane.old lane.new (in_turn restores retires) result }
{
    restore(lane)?;
    retire(lane)
}

/// Takes back what the open call did: its recorded words become what they were, that is made
/// persistent, and the records' generation ends. Where it has no record all that is undrained is made
/// persistent. Makes exactly the memory calls of `takes_back`.
///
/// # Errors
///
/// `Stopped`: the lane came to its stop; the first of the calls are made, and the log stays.
pub fn take_back<M: LawfulMem>(lane: &mut Lane<M>) -> Result<(), Stopped>
    requires { Stands M.at lane.old IsWorking }
    ensures { MovedLog M.at lane.old lane.new takes_back result }
{
    if lane.log.records.is_empty() {
        persist_all(&mut lane.memory)
    } else {
        undo(lane)
    }
}

/// Draws the number of the open call, goes on to the stage after an abort with this error, and tells
/// how many numbers were drawn before.
fn draw_number<M: LawfulMem>(lane: &mut Lane<M>, error: TxErr) -> u64
    requires may { (v : View) × M.at lane.old.memory v × ((n : ℕ) → Allowed v (Draw n)) }
    ensures made { Made M.may (M.at lane.old.memory) (M.at lane.new.memory) (Draw result) }
    ensures fields { fields_of lane.new ≡ record (fields_of lane.old)
        { entries = []; stage = stage.OnAbort; error = error; last = result + 1 } }
{
    let number = lane.memory.draw();
    lane.last = number + 1;
    lane.entries.clear();
    lane.stage = Stage::OnAbort;
    lane.error = error;
    number
}

/// Tells the operation that ends the open call, and draws the call's number.
pub fn end_call<M: LawfulMem>(
    lane: &mut Lane<M>,
    told: LentOperation<'_>,
    reply: Option<LentValue<'_>>,
    error: TxErr,
) -> u64
    requires { MayEnd (M.at lane.old.memory) (operation_of told) (option_map value_of reply) }
    ensures made { IsMade (M.at lane.old.memory) (M.at lane.new.memory)
        (ends_call (operation_of told.entry) (option_map value_of reply.entry) result) }
    ensures fields { fields_of lane.new ≡ record (fields_of lane.old)
        { entries = []; stage = stage.OnAbort; error = error; last = result + 1 } }
{
    lane.memory.tell(told, reply);
    draw_number(lane, error)
}

/// Gives the open call up for an operation that ends it with this reply, and sets its error: all that
/// it did is taken back, the operation is told, and the call takes its number. Makes exactly the memory
/// calls of `gives_up`. Its locks are held still.
///
/// # Errors
///
/// `Stopped`: the lane came to its stop; the first of the calls are made, and the lane's lists stay.
pub fn give_up<M: LawfulMem>(
    lane: &mut Lane<M>,
    told: LentOperation<'_>,
    reply: Option<LentValue<'_>>,
    error: TxErr,
) -> Result<(), Stopped>
    requires { IsAtBut M.at lane.old
        (λ s. GivesUp s (operation_of told) (option_map value_of reply)) }
    ensures { GivenUp M.at lane.old lane.new (operation_of told.entry)
        (option_map value_of reply.entry) error result }
{
    take_back(lane)?;
    end_call(lane, told, reply, error);
    Ok(())
}

/// Gives the open call up for an operation that is refused so, and answers the refusal; or `Stopped`,
/// where that is why, or where the lane comes to its stop.
pub fn refuse<M: LawfulMem>(
    lane: &mut Lane<M>,
    operation: LentOperation<'_>,
    why: Refusal,
) -> Refusal
    requires { why ≢ refusal.Stopped
        → IsAtBut M.at lane.old (λ s. GivesUp s (operation_of operation) (Some (Refused why))) }
    ensures { Refuses M.at lane.old lane.new (operation_of operation.entry) why result }
{
    if why == Refusal::Stopped {
        return stop(lane);
    }
    let value = Value::Refused(why);
    match give_up(
        lane,
        operation,
        Some(LentValue::Whole(&value)),
        TxErr::Refused(why),
    ) {
        Ok(()) => why,
        Err(Stopped) => stop(lane),
    }
}
