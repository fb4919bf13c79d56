ghost use Rattle.std.specs.Prelude.{◌+◌, ◌<◌, ◌^◌, length};
ghost use Rattle.pm_undo.specs.Undoing.{Stands, Written};
ghost use Rattle.pm_undo.specs.Working.{CanWrite};

use pm_memory::Stopped;
use pm_plan::store_all;
use pm_world::{Lane, LawfulMem};

/// Stores consecutive words, each of which has a record. Makes exactly the memory calls of
/// `stores_from`.
///
/// # Errors
///
/// `Stopped`: the lane came to its stop; the first of the calls are made.
pub fn write<M: LawfulMem>(lane: &mut Lane<M>, word: u64, values: &[u64]) -> Result<(), Stopped>
    requires inside { word + length values.now < 2 ^ 64 }
    requires stands { Stands M.at lane.old (λ v. CanWrite v word values.now) }
    ensures { Written M.at word values.now lane.old lane.new result }
{
    store_all(&mut lane.memory, word, values)
}
