ghost use Rattle.std.specs.Prelude.{◌≡◌, None};
ghost use Rattle.pm_model.specs.Inside.{error_for};
ghost use Rattle.pm_call.specs.At.{At};
ghost use Rattle.pm_call.specs.Did as did;
ghost use Rattle.pm_call.specs.Did.{IsAt};
ghost use Rattle.pm_tx.specs.Outcome.{Aborted};

use pm_call::{give_up, stop, work_refusal};
use pm_memory::Stopped;
use pm_objects::{Operation, Refusal, TxErr};
use pm_world::{Lane, LawfulMem, LentOperation};

/// The error of a transaction that was aborted with this number.
fn error_with(errnum: u32) -> TxErr
    ensures { result ≡ error_for errnum }
{
    if errnum == 0 {
        TxErr::Canceled
    } else {
        TxErr::User(errnum)
    }
}

/// Aborts the whole transaction, with this number as its error, or `Canceled` for 0:
/// pmemobj_tx_abort(3). All that it did is rolled back, and its call takes its number, which changes
/// nothing then. The lane holds its locks until the outermost level ends. Makes exactly the memory
/// calls of `gives_up`.
///
/// # Errors
///
/// - `Stopped`: the lane had stopped, and nothing is done; or it comes to its stop, the first of the
///   calls are made, and the lane says that it stopped.
/// - `NoTx`: no transaction is open; nothing is done.
/// - `NotWork`: the transaction is past its work; nothing is done.
pub fn abort<M: LawfulMem>(lane: &mut Lane<M>, errnum: u32) -> Result<(), Refusal>
    requires { did.work_refusal lane.old ≡ None → IsAt M.at lane.old }
    ensures { Aborted M.at lane.old lane.new errnum result }
{
    if let Some(why) = work_refusal(lane) {
        return Err(why);
    }
    let operation = Operation::Abort { errnum };
    let error = error_with(errnum);
    match give_up(lane, LentOperation::Whole(&operation), None, error) {
        Ok(()) => Ok(()),
        Err(Stopped) => Err(stop(lane)),
    }
}
