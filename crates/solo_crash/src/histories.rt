ghost use Rattle.std.specs.Prelude.{◌≡◌, ℕ, ◌<◌, true, false, Bool, List, [], slice_index, None};
ghost use Rattle.pm_header.specs.declared.header.Header.{Header};
ghost use Rattle.pm_objects.specs.declared.history.TxErr.{TxErr};
ghost use Rattle.pm_objects.specs.declared.pool.PoolView.{PoolView};
ghost use Rattle.pm_image.specs.HeapFaults.{heap_fault};
ghost use Rattle.pm_image.specs.Logs.{recovered_at};
ghost use Rattle.solo_view.specs.Steps.{Step};
ghost use Rattle.solo_world.specs.Course.{decided_after, flight, log_after};
ghost use Rattle.solo_world.specs.Crash.{NoneTorn, Survives, is_kept};
ghost use Rattle.solo_world.specs.Entries.{is_redoing};
ghost use Rattle.solo_world.specs.History.{Entry};
ghost use Rattle.solo_world.specs.Lawful.{IsLawful};
ghost use Rattle.solo_world.specs.Memory.{Memory};
ghost use Rattle.solo_world.specs.Opening.{Opening};
ghost use Rattle.solo_world.specs.World.{Views, World};
ghost use Rattle.solo_crash.specs.Draws.{DrawsStep, KeepsDecided, kept_words};
ghost use Rattle.solo_crash.specs.Held.{HoldsPool};
ghost use Rattle.solo_crash.specs.HeldHistory.{DrawsOnAny, HoldReplay, IsHeldHistory};
ghost use Rattle.solo_crash.specs.OpenCall.{IsBefore, IsGivenUp, IsWholeCall};

/// A law: whatever of the calls in flight is left out, the words that the others make of the opening's may be those before the open call of
/// a lane that redoes nothing, if they have no fault. No code runs.
pub fn a_lane_looks_past_calls_in_flight()
    ensures { (o : Opening) (mem : Memory) (views : Views) (log : List Entry) (decided : ℕ → Bool)
        → World o mem views log decided → (keep : ℕ → Bool) (k : ℕ) → k < o.lanes → flight (views k) ≡ None
        → is_redoing (views k).log.phase ≡ false → KeepsDecided decided keep → heap_fault (kept_words o keep log) o.lanes o.zones ≡ None
        → IsBefore (views k) (kept_words o keep log) }
{}

/// A law: a lane that draws a whole call, or one that it gave up, adds a step of the plain model to the history, whatever of the calls in
/// flight is left out: from the pool that the calls which are kept made to the one that they make with it. No code runs.
pub fn a_drawn_call_is_a_step()
    ensures whole { (o : Opening) (mem : Memory) (views : Views) (log : List Entry) (decided : ℕ → Bool)
        → World o mem views log decided → (keep : ℕ → Bool) (k n : ℕ) → k < o.lanes → flight (views k) ≡ None
        → is_redoing (views k).log.phase ≡ false → KeepsDecided decided keep → (header : Header) (pool : PoolView) → HoldsPool (kept_words o keep log) o.lanes o.zones header pool
        → (views k).pool ≡ header.id → keep n ≡ true → IsWholeCall (views k)
        → DrawsStep o keep log (views k) n header pool }
    ensures given_up { (o : Opening) (mem : Memory) (views : Views) (log : List Entry) (decided : ℕ → Bool)
        → World o mem views log decided → (keep : ℕ → Bool) (k n : ℕ) → k < o.lanes → flight (views k) ≡ None
        → is_redoing (views k).log.phase ≡ false → KeepsDecided decided keep → (header : Header) (pool : PoolView) → HoldsPool (kept_words o keep log) o.lanes o.zones header pool
        → (views k).pool ≡ header.id → (e : TxErr) → keep n ≡ true → IsGivenUp (views k) e → (views k).log.records ≡ [] → (views k).log.entries ≡ []
        → DrawsStep o keep log (views k) n header pool }
{}

/// A law: a history without calls is held by an opening's words, and each lawful step of a lane keeps it held, if the call that it draws, if
/// any, is whole or was given up. No code runs.
pub fn a_history_is_held()
    ensures begins { (o : Opening) (decided : ℕ → Bool) (header : Header) (pool : PoolView)
        → HoldsPool (slice_index o.words) o.lanes o.zones header pool → IsHeldHistory o [] decided header pool }
    ensures steps { (o : Opening) (mem : Memory) (views : Views) (log : List Entry) (decided : ℕ → Bool)
        → World o mem views log decided → (k : ℕ) (s : Step) → k < o.lanes → IsLawful (views k) s
        → (header : Header) (pool : PoolView) → (views k).pool ≡ header.id → DrawsOnAny (views k) s
        → IsHeldHistory o log decided header pool
        → IsHeldHistory o (log_after log (views k) s) (decided_after decided (views k) s) header pool }
{}

/// A law: every image that a power failure leaves holds, once recovered, the pool that the calls which it does not lose made, one whole call
/// after another in the order of their numbers. No code runs.
pub fn a_crash_leaves_what_kept_calls_made()
    ensures { (o : Opening) (mem : Memory) (views : Views) (log : List Entry) (decided : ℕ → Bool) (image : List ℕ)
        (header : Header) (pool : PoolView) → World o mem views log decided → IsHeldHistory o log decided header pool
        → Survives o mem views image → NoneTorn o views image
        → HoldReplay (recovered_at image o.lanes) o (is_kept o views image) log header pool }
{}
