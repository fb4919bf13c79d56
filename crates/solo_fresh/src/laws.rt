ghost use Rattle.std.specs.Prelude.{◌≡◌, ℕ, false, true, ◌+◌, ◌*◌, ◌<◌, ◌≤◌, slice_index};
ghost use Rattle.solo_view.specs.Blocks.{describes};
ghost use Rattle.solo_view.specs.Held.{is_reserved};
ghost use Rattle.solo_view.specs.View.{View};
ghost use Rattle.solo_view.specs.Views.{after_all};
ghost use Rattle.solo_world.specs.Opening.{Opening, is_free_chunk};
ghost use Rattle.solo_world.specs.Sequences.{Ready};
ghost use Rattle.solo_undo.specs.Working.{FindsOpening, IsWorking};
ghost use Rattle.solo_fresh.specs.Filled.{CanFill, HasWholePool, IsFilled};
ghost use Rattle.solo_fresh.specs.Filling.{fills};
ghost use Rattle.solo_fresh.specs.Made.{CanMakeRun, IsRunMade};
ghost use Rattle.solo_fresh.specs.Making.{makes_run};

/// A law: a lane at work may make a new object of lines that it reserved, and stays at work. No code runs.
pub fn a_reserved_block_may_be_filled()
    ensures { (v : View) (line lines kind size : ℕ) → IsWorking v → 1 ≤ lines → ((w : ℕ) → 8 * line ≤ w → w < 8 * (line + lines) → CanFill v w)
        → Ready v (fills line lines kind size v) × IsFilled v line lines kind size (after_all v (fills line lines kind size v)) }
{}

/// A law: what a lane reserved of its pool it may make a new object of, but for the words that describe chunks. No code runs.
pub fn reserved_words_may_be_filled()
    ensures { (v : View) → HasWholePool v → (w : ℕ) → is_reserved v w ≡ true → describes v.lanes w ≡ false → CanFill v w }
{}

/// A law: what a lane finds of blocks under locks, and what it knows of its pool, stays so as it makes a new object of what it reserved. No code
/// runs.
pub fn a_filled_block_changes_nothing_found()
    ensures { (o : Opening) (v w : View) (line lines kind size : ℕ) → FindsOpening o v → HasWholePool v
        → ((u : ℕ) → 8 * line ≤ u → u < 8 * (line + lines) → (is_reserved v u ≡ true) × (describes v.lanes u ≡ false)) → IsFilled v line lines kind size w → FindsOpening o w × HasWholePool w }
{}

/// A law: a lane at work may make a chunk that it reserved a run of a class, and stays at work, with the run's first block in place of the chunk. No
/// code runs.
pub fn a_reserved_chunk_may_be_made_a_run()
    ensures { (v : View) (page lines : ℕ) → IsWorking v → CanMakeRun v page lines
        → Ready v (makes_run v.lanes page lines v) × IsRunMade v page lines (after_all v (makes_run v.lanes page lines v)) }
{}

/// A law: what a lane finds of blocks under locks, and what it knows of its pool, stays so as it makes a chunk a run that was free at the opening. No
/// code runs.
pub fn a_made_run_changes_nothing_found()
    ensures { (o : Opening) (v w : View) (page lines : ℕ) → FindsOpening o v → HasWholePool v → is_free_chunk (slice_index o.words) o.lanes page ≡ true
        → CanMakeRun v page lines → IsRunMade v page lines w → FindsOpening o w × HasWholePool w }
{}
