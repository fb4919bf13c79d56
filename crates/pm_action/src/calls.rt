ghost use Rattle.std.specs.Prelude.{◌≡◌, false, None};
ghost use Rattle.pm_objects.specs.declared.calls.Operation.TheVariants.{Cancel, SetValue};
ghost use Rattle.pm_call.specs.Did as did;
ghost use Rattle.pm_call.specs.Did.{IsAt};
ghost use Rattle.pm_call.specs.Between.{IsLaneBetween};
ghost use Rattle.pm_action.specs.Actions.{Asked};
ghost use Rattle.pm_action.specs.Calls.{ByLevel};
ghost use Rattle.pm_action.specs.Inside.{Cancelled};
ghost use Rattle.pm_action.specs.Outside.{AskedOutside};

use crate::actions::set_inside;
use crate::inside::cancel_inside;
use crate::outside::{cancel_outside, set_outside};
use pm_objects::{Oid, Refusal};
use pm_world::{Lane, LawfulMem};

/// Asks that eight bytes of an object, from its byte `off` on, become this number, at a later
/// publish: pmemobj_set_value(3). Inside a transaction it is an operation of that, and outside one a
/// call of its own, which takes a commit number. The object is looked at by the publish alone. A
/// refusal is told, and leaves the actions that were pending. No counted memory call is made.
///
/// # Errors
///
/// - `Stopped`: the lane had stopped; nothing is done.
/// - `NotWork`: the transaction is past its work; nothing is done.
/// - `Spent`: outside a transaction, no commit number is left; nothing is done but a look at how
///   many were drawn.
/// - `Unaligned`: the bytes don't begin at a multiple of eight.
/// - `ActionsFull`: 63 actions are pending.
pub fn set_value<M: LawfulMem>(
    lane: &mut Lane<M>,
    id: Oid,
    off: u64,
    value: u64,
) -> Result<(), Refusal>
    requires idle { lane.old.stopped ≡ false → lane.old.level ≡ 0 → IsLaneBetween M.at lane.old }
    requires at_work { did.work_refusal lane.old ≡ None → IsAt M.at lane.old }
    ensures { ByLevel lane.old (AskedOutside M.at lane.old lane.new (SetValue id off value) result)
        (Asked M.at lane.old lane.new (SetValue id off value) result) }
{
    if !lane.stopped && lane.level == 0 {
        set_outside(lane, id, off, value)
    } else {
        set_inside(lane, id, off, value)
    }
}

/// Cancels all that is pending: pmemobj_cancel(3). Inside a transaction it is an operation of that, which
/// stays at work with the words that it published before: all that is undrained is made persistent first,
/// and exactly the memory calls of `cancels` are made. Outside one it is a call of its own, which takes a
/// commit number; nothing is undrained there, and no counted memory call is made.
///
/// # Errors
///
/// - `Stopped`: the lane had stopped, and nothing is done; or it comes to its stop inside a
///   transaction: the first of the calls are made, what is pending stays, and the lane says that it
///   stopped.
/// - `NotWork`: the transaction is past its work; nothing is done.
/// - `Spent`: outside a transaction, no commit number is left; nothing is done but a look at how
///   many were drawn.
pub fn cancel<M: LawfulMem>(lane: &mut Lane<M>) -> Result<(), Refusal>
    requires idle { lane.old.stopped ≡ false → lane.old.level ≡ 0 → IsLaneBetween M.at lane.old }
    requires at_work { did.work_refusal lane.old ≡ None → IsAt M.at lane.old }
    ensures { ByLevel lane.old (AskedOutside M.at lane.old lane.new Cancel result)
        (Cancelled M.at lane.old lane.new result) }
{
    if !lane.stopped && lane.level == 0 {
        cancel_outside(lane)
    } else {
        cancel_inside(lane)
    }
}
