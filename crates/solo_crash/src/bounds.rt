ghost use Rattle.std.specs.Prelude.{◌≡◌, ℕ, ◌+◌, ◌≤◌, List, length};
ghost use Rattle.solo_view.specs.Counts.{drains_among, flushes_among, stores_among};
ghost use Rattle.solo_view.specs.Steps.{Step};
ghost use Rattle.solo_view.specs.View.{View};
ghost use Rattle.solo_crash.specs.Walking.{Walks};

/// A law: no flush and no drain is idle. Of lawful steps from one view to another at most as many are flushes as are stores, and as
/// many drains, but for the changes that were undrained before; and the counted calls are these three. No code runs.
pub fn no_counted_call_is_idle()
    ensures flushes { (v w : View) (steps : List Step) → Walks v steps w → flushes_among steps ≤ stores_among steps + length v.changes }
    ensures drains { (v w : View) (steps : List Step) → Walks v steps w → drains_among steps ≤ stores_among steps + length v.changes }
    ensures calls { (v w : View) (steps : List Step) → Walks v steps w → w.calls ≡ v.calls + (stores_among steps + flushes_among steps + drains_among steps) }
{}
