ghost use Rattle.std.specs.Prelude.{◌≡◌, ◌↔◌, ℕ, List};
ghost use Rattle.pm_objects.specs.declared.pool.PoolView.{PoolView};
ghost use Rattle.pm_image.specs.Means.{IsMeaning};
ghost use Rattle.pm_recover.specs.Recovery.{HasNoStrayRecord, IsRecovered};
ghost use Rattle.pm_reopen.specs.Premise.{HasWords, IsRecoverable};
ghost use Rattle.pm_reopen.specs.Running.{MayRemain, words_left};

/// A law: where a power failure stops a recovery, after any number of its memory calls, what is
/// left means what the image meant, and its recovery may be stopped again in the same way,
/// whichever of the undrained changes survive. No code runs.
pub fn stopped_recovery_keeps_the_meaning()
    ensures { (image left : List ℕ) (pool : PoolView) (made : ℕ) → IsRecoverable image pool
        → MayRemain image pool.lanes made left → IsRecoverable left pool }
{}

/// A law: an image without stray records has all that is asked for that. No code runs.
pub fn images_without_strays_are_recoverable()
    ensures { (image : List ℕ) (pool : PoolView) → HasWords image → IsMeaning image pool
        → HasNoStrayRecord image pool.lanes → IsRecoverable image pool }
{}

/// A law: the words that the whole plan leaves are the recovered image, and no other words are. No
/// code runs.
pub fn whole_recovery_leaves_the_recovered_image()
    ensures { (image after : List ℕ) (pool : PoolView) → HasWords image → IsMeaning image pool
        → (after ≡ words_left image pool.lanes) ↔ IsRecovered image after pool.lanes }
{}
