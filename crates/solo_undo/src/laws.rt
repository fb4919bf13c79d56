ghost use Rattle.std.specs.Prelude.{◌≡◌, ℕ, ◌+◌, ◌<◌, ◌≤◌, Bool, true, Option, IsTrue, All, Contains, false, List, [], ◌++◌, is_some, length, map};
ghost use Rattle.solo_model.specs.Bytes.{covered_words};
ghost use Rattle.pm_objects.specs.declared.calls.Operation.{Operation};
ghost use Rattle.pm_objects.specs.declared.history.Value.{Value};
ghost use Rattle.solo_view.specs.Area.{is_in_area};
ghost use Rattle.solo_view.specs.Founds.{FindsKnown};
ghost use Rattle.solo_view.specs.Held.{is_held, is_known, is_under};
ghost use Rattle.solo_view.specs.Log.{Recorded};
ghost use Rattle.solo_view.specs.Log.Phase.{Idle, Open, Drawn};
ghost use Rattle.solo_view.specs.Rights.{is_written};
ghost use Rattle.solo_view.specs.Steps.Step.{Load, NumberSeen, TakeWrite, TakeRead, Tell};
ghost use Rattle.solo_view.specs.View.{View, Lock};
ghost use Rattle.solo_view.specs.Views.{after, after_all};
ghost use Rattle.solo_world.specs.Lanes.{span_of};
ghost use Rattle.solo_world.specs.Opening.{Opening, IsSound};
ghost use Rattle.solo_world.specs.Records.{AreRestored, is_recorded};
ghost use Rattle.solo_world.specs.Sequences.{Ready, looks, makes_room, settles, stores};
ghost use Rattle.solo_undo.specs.Sequences.{recorded_in, restores, retires, snapshots};
ghost use Rattle.solo_undo.specs.Spans.{plan_of};
ghost use Rattle.solo_undo.specs.Working.{CanSnapshot, FindsOpening, HasArea, HasLearned, HasMadeRoom, IsPlain, IsPutBack, IsRetired, IsSettled, IsSnapshot, IsWorking, IsWrittenWord, TellsNoBlock};

/// A law: whatever is undrained may be made persistent, and then nothing is undrained. No code runs.
pub fn all_may_be_settled()
    ensures { (v : View) → Ready v (settles v) × IsSettled v (after_all v (settles v)) }
{}

/// A law: there is always room to be made for one more change. No code runs.
pub fn room_may_be_made()
    ensures { (v : View) → Ready v (makes_room v) × HasMadeRoom v (after_all v (makes_room v)) }
{}

/// A law: a lane at work without redo entries whose recorded words have their old values again, with nothing undrained, may end its
/// generation, and then has an open call with no records. No code runs.
pub fn a_call_given_up_may_retire()
    ensures { (v : View) → IsWorking v → v.changes ≡ [] → v.log.entries ≡ [] → AreRestored v
        → Ready v (retires v) × IsRetired (Open [] []) v (after_all v (retires v)) }
{}

/// A law: a lane that drew its number with records alone and has nothing undrained may end its generation, and then no call is open. No code
/// runs.
pub fn a_drawn_call_may_retire()
    ensures { (v : View) → HasArea v → v.log.phase ≡ Drawn → IsTrue (is_some v.number) → v.changes ≡ [] → v.log.entries ≡ []
        → Ready v (retires v) × IsRetired Idle v (after_all v (retires v)) }
{}

/// A law: a lane at work may put every recorded word back, and then each is as it was recorded, and that is persistent. No code runs.
pub fn recorded_words_may_be_put_back()
    ensures { (v : View) → IsWorking v → Ready v (restores (map span_of v.log.records) v) × IsPutBack v (after_all v (restores (map span_of v.log.records) v)) }
{}

/// A law: a lane at work may record the words of a range that it may write and knows, where 64 records are enough, and then they stand
/// behind the others with the words that are there, drained as they are. No code runs.
pub fn words_may_be_recorded()
    ensures { (v : View) (place len : ℕ) → IsWorking v → All (CanSnapshot v) (covered_words place len)
        → length v.log.records + length (plan_of (map span_of v.log.records) place len) ≤ 64
        → Ready v (snapshots (map span_of v.log.records) place len v)
        × IsSnapshot (plan_of (map span_of v.log.records) place len) v (after_all v (snapshots (map span_of v.log.records) place len v)) }
{}

/// A law: where a range's records that it still needs stand behind the others, each word of the range has a record. No code runs.
pub fn a_snapshot_covers_its_range()
    ensures { (v : View) (records : List Recorded) (place len : ℕ)
        → All (λ w. IsTrue (is_recorded (records ++ map (recorded_in v) (plan_of (map span_of records) place len)) w)) (covered_words place len) }
{}

/// A law: a lane at work may write a recorded word, and stays at work. No code runs.
pub fn recorded_words_may_be_written()
    ensures { (v : View) → IsWorking v → (word x : ℕ) → is_recorded v.log.records word ≡ true → Ready v (stores word x v) × IsWrittenWord v word x (after_all v (stores word x v)) }
{}

/// A law: a lane at work stays so once all is persistent. No code runs.
pub fn a_settled_lane_stays_at_work()
    ensures { (v w : View) → IsWorking v → IsSettled v w → IsWorking w }
{}

/// A law: a word that the lane knows and holds for writing may be recorded, where the view finds of blocks what a sound opening has. No code
/// runs.
pub fn words_held_for_writing_may_be_recorded()
    ensures { (o : Opening) → IsSound o → (v : View) → FindsOpening o v → (w : ℕ) → is_written v w ≡ true → is_known v w ≡ true → CanSnapshot v w }
{}

/// A law: a call that begins is at work, with no records. No code runs.
pub fn a_begun_call_is_at_work()
    ensures { (v : View) (n : ℕ) → HasArea v → v.log.phase ≡ Idle → IsWorking (after v (NumberSeen n)) }
{}

/// A law: a lane at work stays so as it tries a lock, for writing or for reading. No code runs.
pub fn a_lane_that_takes_locks_stays_at_work()
    ensures { (v : View) (line : ℕ) (won : Bool) → IsWorking v → IsWorking (after v (TakeWrite line won)) × IsWorking (after v (TakeRead line won)) }
{}

/// A law: a lane at work stays so as it tells an operation. No code runs.
pub fn a_lane_that_tells_stays_at_work()
    ensures { (v : View) (operation : Operation) (reply : Option Value) → IsWorking v → IsWorking (after v (Tell operation reply)) }
{}

/// A law: a lane at work may look at a word that it knows and that tells of no block, and stays at work. No code runs.
pub fn a_lane_that_looks_stays_at_work()
    ensures { (v : View) (w : ℕ) → IsWorking v → w < length v.words → is_known v w ≡ true → TellsNoBlock v w → Ready v (looks w v) × IsWorking (after_all v (looks w v)) }
{}

/// A law: a lane at work may look at a word that tells of no block, whatever is found where the lane doesn't know it, and stays at work. No
/// code runs.
pub fn a_lane_that_learns_stays_at_work()
    ensures work { (v : View) (word x : ℕ) → IsWorking v → IsPlain v word → FindsKnown v word x → HasLearned v word (after v (Load word x)) }
    ensures opening { (o : Opening) (v : View) (word x : ℕ) → FindsOpening o v → IsPlain v word → FindsOpening o (after v (Load word x)) }
{}

/// A law: a word under a lock where the view found a block tells of no block, lies in the pool outside of the lane's area, and is held. No
/// code runs.
pub fn words_under_locks_are_plain()
    ensures { (o : Opening) → IsSound o → (v : View) → FindsOpening o v → (l : Lock) (w : ℕ) → Contains v.locks l → IsTrue (is_some l.block) → is_under w l ≡ true
        → IsPlain v w × (w < length v.words) × (is_in_area v.lane w ≡ false) × (is_held v w ≡ true) }
{}
