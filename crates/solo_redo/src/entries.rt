ghost use Rattle.std.specs.Prelude.{◌≡◌, ◌+◌, ◌%◌, ◌^◌, ◌<◌, ◌≤◌, ◌⊎◌, ◌++◌, [], ◌∷◌, length, Err, IfErr, OnOk};
ghost use Rattle.pm_objects.specs.declared.refusal.Refusal.TheVariants as refusal;
ghost use Rattle.solo_world.specs.Sequences.{IsMade, IsReady, IsStopped, Runs};
ghost use Rattle.solo_redo.specs.Sequences.{puts, stores_two, writes_pair};
ghost use Rattle.solo_undo.specs.Working.{IsSeenWithArea};

use crate::places::entry_word;
use pm_objects::Refusal;
use pm_record::Redo;
use solo_memory::Stopped;
use solo_world::{Lane, LawfulMem, MAX_ENTRIES, store};

/// Stores two consecutive words.
#[tactic(auto, using(solo_world::proofs::Sequencing::runs_then, solo_world::proofs::Sequencing::runs_err, solo_world::proofs::Sequencing::ready_first, solo_world::proofs::Sequencing::ready_then), unfolding(crate::specs::Sequences::stores_two))]
fn store_two<M: LawfulMem>(mem: &mut M, word: u64, first: u64, second: u64) -> Result<(), Stopped>
    requires inside { word + 1 < 2 ^ 64 }
    requires ready { IsReady (M.at mem.old) (stores_two word first second) }
    ensures { Runs (M.at mem.old) (M.at mem.new) (stores_two word first second) result }
{
    store(mem, word, first)?;
    store(mem, word + 1, second)
}

/// Stores an entry's words in the pair of this number.
#[tactic(auto, unfolding(crate::specs::Sequences::writes_pair))]
pub fn write_pair<M: LawfulMem>(mem: &mut M, lane: u64, i: u64, entry: Redo) -> Result<(), Stopped>
    requires lane { lane < 32 }
    requires pair { i < 64 }
    requires aligned { entry.place % 8 ≡ 0 }
    requires ready { IsReady (M.at mem.old) (writes_pair lane i entry) }
    ensures { Runs (M.at mem.old) (M.at mem.new) (writes_pair lane i entry) result }
{
    let mut pair = [0; 2];
    entry.encode(&mut pair);
    store_two(mem, entry_word(lane, i), pair[0], pair[1])
}

/// Stores an entry's words in this lane's pair of this number.
fn put_in<M: LawfulMem>(mem: &mut M, i: u64, entry: Redo) -> Result<(), Stopped>
    requires area { IsSeenWithArea (M.at mem.old) }
    requires pair { i < 64 }
    requires aligned { entry.place % 8 ≡ 0 }
    requires ready { IsReady (M.at mem.old) (puts i entry) }
    ensures { Runs (M.at mem.old) (M.at mem.new) (puts i entry) result }
{
    let lane = mem.lane();
    write_pair(mem, lane, i, entry)
}

/// Stores an entry behind those that the lane has. Nothing of the pool changes by that. Makes exactly the memory calls of `puts`. `ActionsFull`
/// where the lane has 64, which changes nothing; `Stopped` where it has fewer and came to its stop, the first of the calls being made.
pub fn put<M: LawfulMem>(lane: &mut Lane<M>, entry: Redo) -> Result<(), Refusal>
    requires aligned { entry.place % 8 ≡ 0 }
    requires area { IsSeenWithArea (M.at lane.old.memory) }
    requires ready { length lane.old.entries.items < 64 → IsReady (M.at lane.old.memory) (puts (length lane.old.entries.items) entry) }
    ensures made { OnOk result (IsMade (M.at lane.old.memory) (M.at lane.new.memory) (puts (length lane.old.entries.items) entry)) }
    ensures kept { OnOk result (lane.new.entries.items ≡ lane.old.entries.items ++ entry ∷ []) }
    ensures room { OnOk result (length lane.old.entries.items < 64) }
    ensures full { result ≡ Err refusal.ActionsFull → 64 ≤ length lane.old.entries.items }
    ensures unchanged { result ≡ Err refusal.ActionsFull → lane.new ≡ lane.old }
    ensures stopped { result ≡ Err refusal.Stopped → IsStopped (M.at lane.old.memory) (M.at lane.new.memory) (puts (length lane.old.entries.items) entry) }
    ensures room_left { result ≡ Err refusal.Stopped → length lane.old.entries.items < 64 }
    ensures not_kept { IfErr result (λ r. lane.new.entries ≡ lane.old.entries) }
    ensures causes { IfErr result (λ r. (r ≡ refusal.ActionsFull) ⊎ (r ≡ refusal.Stopped)) }
    ensures else_same { lane.new ≡ record lane.old { memory = lane.new.memory; entries = lane.new.entries } }
{
    let i = lane.entries.len();
    if i >= MAX_ENTRIES {
        return Err(Refusal::ActionsFull);
    }
    match put_in(&mut lane.memory, i as u64, entry) {
        Ok(()) => {
            lane.entries.push(entry);
            Ok(())
        }
        Err(Stopped) => Err(Refusal::Stopped),
    }
}
