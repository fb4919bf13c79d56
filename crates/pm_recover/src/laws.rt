ghost use Rattle.std.specs.Prelude.{◌≡◌, ◌≢◌, ◌<◌, ℕ, List, [], slice_index};
ghost use Rattle.pm_objects.specs.declared.pool.PoolView.{PoolView};
ghost use Rattle.pm_image.specs.Logs.{area_word, records};
ghost use Rattle.pm_image.specs.Means.{IsMeaning};
ghost use Rattle.pm_recover.specs.Recovery.{HasNoStrayRecord, HasNoTornSlot, IsCleanLog, IsRecovered};

/// A law: what an image means, it means once it is recovered. No code runs.
pub fn recovery_keeps_the_meaning()
    ensures { (before after : List ℕ) (pool : PoolView) → IsMeaning before pool → IsRecovered before after pool.lanes → IsMeaning after pool }
{}

/// A law: a recovered image has no valid record and no stray one. No code runs.
pub fn recovery_leaves_no_record()
    ensures no_record { (before after : List ℕ) (pool : PoolView) (lane : ℕ) → IsMeaning before pool → IsRecovered before after pool.lanes
        → lane < pool.lanes → records after lane ≡ [] }
    ensures no_stray { (before after : List ℕ) (pool : PoolView) → IsMeaning before pool → IsRecovered before after pool.lanes
        → HasNoStrayRecord after pool.lanes }
{}

/// A law: recovery leaves the log of each lane clean: not sealed, of a generation that counts, and every slot with a true sum of an earlier one. No code runs.
pub fn recovery_leaves_clean_logs()
    ensures { (before after : List ℕ) (pool : PoolView) (lane : ℕ) → IsMeaning before pool → IsRecovered before after pool.lanes
        → lane < pool.lanes → IsCleanLog after lane }
{}

/// A law: recovering once more changes no word but generations. No code runs.
pub fn recovery_again_raises_generations_alone()
    ensures { (before after again : List ℕ) (pool : PoolView) (i : ℕ) → IsMeaning before pool
        → IsRecovered before after pool.lanes → IsRecovered after again pool.lanes
        → ((lane : ℕ) → lane < pool.lanes → i ≢ area_word lane) → slice_index again i ≡ slice_index after i }
{}

/// A law: recovering once more changes nothing, where no slot is torn. No code runs.
pub fn recovery_without_torn_slots_is_final()
    ensures { (before after again : List ℕ) (pool : PoolView) → IsMeaning before pool → HasNoTornSlot before pool.lanes
        → IsRecovered before after pool.lanes → IsRecovered after again pool.lanes → again ≡ after }
{}
