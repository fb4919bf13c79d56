ghost use Rattle.std.specs.Prelude.{◌≡◌, ◌<◌, ◌≤◌, ◌/◌, ◌%◌, ℕ, All, List, [], length};
ghost use Rattle.pm_record.specs.declared.redo.Redo.{Redo};
ghost use Rattle.solo_view.specs.Log.Phase.{Applying, Drawn};
ghost use Rattle.solo_view.specs.View.{View};
ghost use Rattle.solo_view.specs.Views.{after_all};
ghost use Rattle.solo_world.specs.Entries.{IsEnterable};
ghost use Rattle.solo_world.specs.Lawful.{generation_limit};
ghost use Rattle.solo_world.specs.Records.{generation_of};
ghost use Rattle.solo_world.specs.Sequences.{Ready};
ghost use Rattle.solo_redo.specs.Entering.{AreEntered, HasEntered, HasLogged, HasPlace, IsApplied, IsCleared, IsEntering, MayEnter, IsPerformed, IsReadyToLog, IsReadyToPerform, IsSealed};
ghost use Rattle.solo_redo.specs.Sequences.{applies, clears, logs, performs, puts, seals};

/// A law: a lane that stores entries may store one more of a word that it locked for writing, or of its generation, and then that stands
/// behind the others, and nothing of the pool has changed. No code runs.
pub fn entries_may_be_stored()
    ensures { (v : View) (e : Redo) → IsEntering v → length v.log.entries < 64 → e.place % 8 ≡ 0 → IsEnterable v e.op (e.place / 8) e.value
        → Ready v (puts (length v.log.entries) e v) × HasEntered v e (after_all v (puts (length v.log.entries) e v)) }
{}

/// A law: a lane that has no entry yet, and nothing undrained, may write its redo log: entries of words of the pool, 63 at most, and the one that ends its
/// generation. Then they stand in the log, persistent, and nothing of the pool has changed. No code runs.
pub fn a_log_may_be_written()
    ensures { (v : View) (entries : List Redo) → IsReadyToLog v → length entries ≤ 63 → All (MayEnter v) entries
        → Ready v (logs entries v) × HasLogged v entries (after_all v (logs entries v)) }
{}

/// A law: a lane that drew its number, with entries of the pool and one that ends its generation, all persistent, may seal them: then the call is
/// decided, and nothing of the pool has changed. No code runs.
pub fn a_lane_may_seal()
    ensures { (v : View) (entries : List Redo) → HasPlace v → v.log.phase ≡ Drawn → v.changes ≡ [] → generation_of v < generation_limit → AreEntered v entries
        → Ready v (seals (length entries) v) × IsSealed v (after_all v (seals (length entries) v)) }
{}

/// A law: sealed entries may be applied, and then each has its effect, and that is persistent. No code runs.
pub fn sealed_entries_may_be_applied()
    ensures { (v : View) → HasPlace v → (entries : List Redo) → AreEntered v entries → v.log.phase ≡ Applying 0 → v.changes ≡ []
        → Ready v (applies entries v) × IsApplied v (after_all v (applies entries v)) }
{}

/// A law: the seal of entries that are applied may be cleared, and then no call is open. No code runs.
pub fn a_seal_may_be_cleared()
    ensures { (v : View) → HasPlace v → v.log.phase ≡ Applying (length v.log.entries) → v.changes ≡ []
        → Ready v (clears v) × IsCleared v (after_all v (clears v)) }
{}

/// A law: a lane that drew its number, with a log that is persistent, may perform it: then every entry has its effect, persistent, and no call is
/// open. No code runs.
pub fn a_log_may_be_performed()
    ensures { (v : View) (entries : List Redo) → IsReadyToPerform v entries
        → Ready v (performs entries v) × IsPerformed v (after_all v (performs entries v)) }
{}
