ghost use Rattle.std.specs.Prelude.{ℕ, Bool, Option};
ghost use Rattle.pm_objects.specs.declared.calls.Operation.{Operation};
ghost use Rattle.pm_objects.specs.declared.history.Value.{Value};
ghost use Rattle.solo_view.specs.declared.occ.Occ.{Occ};
ghost use Rattle.solo_view.specs.Steps.Step.{Load, Store, Or, And, Flush, Drain, TakeWrite, TakeRead, Give, ZoneTry, ZoneGive, Occupied, Occupy, Vacate, Draw, NumberSeen, StopSeen, SetStop, Tell};
ghost use Rattle.solo_world.specs.Laws.{DrawsPlainly, Keeps, KeepsFrom, KeepsRuns, CrashLaw, AcknowledgedLaw};
ghost use Rattle.solo_world.specs.Opens.{BetweenCallsLaw, OpeningLaw};

/// A law: over the words that recovery leaves a world begins. No code runs.
pub fn recovered_words_open_a_world()
    ensures { OpeningLaw }
{}

/// A law: between calls a world begins anew, from the words as they stand: where no lock is held, nothing is undrained but words that lanes filled,
/// each log is clean, and the bits are set of what the words say is taken or some lane reserved, these words are as good as recovered ones, with
/// the calls so far as a history that is over. No code runs.
pub fn words_between_calls_open_a_world()
    ensures { BetweenCallsLaw }
{}

/// A law: each lawful step of a lane keeps the world, whatever the other lanes hold; but for the draw of a call that allocates or frees blocks, which a lane
/// that is alone makes, and with which it leaves the world. No code runs.
pub fn lawful_steps_keep_the_world()
    ensures load { (w found : ℕ) → Keeps (Load w found) }
    ensures store { (w x : ℕ) → Keeps (Store w x) }
    ensures or { (w bits found : ℕ) → Keeps (Or w bits found) }
    ensures and { (w bits found : ℕ) → Keeps (And w bits found) }
    ensures flush { (line : ℕ) → Keeps (Flush line) }
    ensures drain { Keeps Drain }
    ensures take_write { (line : ℕ) (won : Bool) → Keeps (TakeWrite line won) }
    ensures take_read { (line : ℕ) (won : Bool) → Keeps (TakeRead line won) }
    ensures give { (line : ℕ) → Keeps (Give line) }
    ensures zone_try { (zone : ℕ) (won : Bool) → Keeps (ZoneTry zone won) }
    ensures zone_give { (zone : ℕ) → Keeps (ZoneGive zone) }
    ensures occupied { (at : Occ) (found : ℕ) → Keeps (Occupied at found) }
    ensures occupy { (at : Occ) (bits : ℕ) (won : Bool) → Keeps (Occupy at bits won) }
    ensures vacate { (at : Occ) (bits : ℕ) → Keeps (Vacate at bits) }
    ensures draw { (n : ℕ) → KeepsFrom (DrawsPlainly n) (Draw n) }
    ensures number_seen { (n : ℕ) → Keeps (NumberSeen n) }
    ensures stop_seen { (stopped : Bool) → Keeps (StopSeen stopped) }
    ensures set_stop { Keeps SetStop }
    ensures tell { (operation : Operation) (reply : Option Value) → Keeps (Tell operation reply) }
{}

/// A law: a run that was made stays a run of its class, since no lawful step of any lane changes the word that describes it. No code runs.
pub fn a_run_stays_a_run()
    ensures { KeepsRuns }
{}

/// A law: every image that a power failure leaves of a world means the history without the calls that the image loses. No code runs.
pub fn a_crash_keeps_whole_calls()
    ensures { CrashLaw }
{}

/// A law: a call that has ended is lost by no image. No code runs.
pub fn an_acknowledged_call_is_kept()
    ensures { AcknowledgedLaw }
{}
