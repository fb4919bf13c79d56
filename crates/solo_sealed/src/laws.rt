ghost use Rattle.std.specs.Prelude.{◌≡◌, ℕ, ◌<◌, true, false, List, [], length, slice_index, None, Some};
ghost use Rattle.pm_image.specs.LogFaults.{log_fault};
ghost use Rattle.pm_image.specs.Logs.{recovered};
ghost use Rattle.solo_view.specs.Founds.{IsAlone};
ghost use Rattle.solo_view.specs.Log.Phase.{Idle};
ghost use Rattle.solo_view.specs.Steps.{Step};
ghost use Rattle.solo_view.specs.View.{View};
ghost use Rattle.solo_world.specs.Crash.{loses};
ghost use Rattle.solo_world.specs.Entries.{is_entered};
ghost use Rattle.solo_world.specs.History.{made_final};
ghost use Rattle.solo_world.specs.Opens.{IsClean};
ghost use Rattle.solo_sealed.specs.Sealed.{AreTargets, IsOutside, LeavesSealed, MaySeal, Publishes, SealingLaw, has_nothing, is_decided, pool_seen};

/// A law: in a world where no other lane is at work, a lane that has each word as it is, and draws its call's number with a whole log, may seal
/// that log: what it needs of its own log and of the others' is what the world says. No code runs.
pub fn a_world_leads_to_the_seal()
    ensures { SealingLaw }
{}

/// A law: a lane that is alone publishes all of its entries or nothing, whatever words they are of. What a power failure leaves either has
/// nothing of the call, and then each word is as before the seal was stored; or its recovered words, but for the lanes' areas, are what the
/// entries make of those words. Once the seal is drained the image has something of the call, and it loses the call exactly where it has
/// nothing of it. A word that no entry is of is as it was. No code runs.
pub fn a_lane_alone_publishes_all_or_nothing()
    ensures nothing { (b w : View) (steps : List Step) (keep : ℕ) (image : List ℕ) → LeavesSealed b steps w keep image → has_nothing image b ≡ true
        → (i : ℕ) → i < length b.words → slice_index image i ≡ slice_index b.words i }
    ensures all { (b w : View) (steps : List Step) (keep : ℕ) (image : List ℕ) → LeavesSealed b steps w keep image → has_nothing image b ≡ false
        → (i : ℕ) → i < length b.words → IsOutside b.lanes i
        → recovered image b.lanes i ≡ made_final b.log.entries i (slice_index b.words i) }
    ensures decided { (b w : View) (steps : List Step) (keep : ℕ) (image : List ℕ) → LeavesSealed b steps w keep image → is_decided w.log.phase ≡ true
        → has_nothing image b ≡ false }
    ensures lost { (b w : View) (steps : List Step) (keep : ℕ) (image : List ℕ) (n : ℕ) → LeavesSealed b steps w keep image → w.number ≡ Some n
        → loses image w n ≡ has_nothing image b }
    ensures beside { (b w : View) (steps : List Step) (keep : ℕ) (image : List ℕ) → LeavesSealed b steps w keep image
        → (i : ℕ) → i < length b.words → IsOutside b.lanes i → is_entered b.log.entries i ≡ false → slice_index image i ≡ slice_index b.words i }
    ensures size { (b w : View) (steps : List Step) (keep : ℕ) (image : List ℕ) → LeavesSealed b steps w keep image → length image ≡ length b.words }
{}

/// A law: an image that has something of the call has no fault in its logs, where each entry but the last is of a word that entries may change.
/// No code runs.
pub fn a_published_log_has_no_fault()
    ensures { (b w : View) (steps : List Step) (keep : ℕ) (image : List ℕ) → LeavesSealed b steps w keep image → AreTargets b → has_nothing image b ≡ false
        → log_fault image b.lanes b.zones ≡ None }
{}

/// A law: once such a log is at its end each word is what the entries made of it, nothing is undrained, and every lane's log is clean. No
/// code runs.
pub fn a_log_at_its_end_is_clean()
    ensures words { (b w : View) (steps : List Step) → MaySeal b → IsAlone b → Publishes b steps w → w.log.phase ≡ Idle
        → (i : ℕ) → slice_index w.words i ≡ made_final b.log.entries i (slice_index b.words i) }
    ensures drained { (b w : View) (steps : List Step) → MaySeal b → IsAlone b → Publishes b steps w → w.log.phase ≡ Idle → w.changes ≡ [] }
    ensures clean { (b w : View) (steps : List Step) → MaySeal b → IsAlone b → Publishes b steps w → w.log.phase ≡ Idle
        → (j : ℕ) → j < b.lanes → IsClean (pool_seen w) j }
{}
