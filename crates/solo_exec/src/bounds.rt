ghost use Rattle.std.specs.Prelude.{◌≡◌, ℕ, ◌+◌, ◌*◌, ◌≤◌, List, length};
ghost use Rattle.solo_crash.specs.Pending.{published_in};
ghost use Rattle.solo_made.specs.Made.{BlockLists};
ghost use Rattle.pm_objects.specs.declared.refusal.Refusal.{Refusal};
ghost use Rattle.solo_script.specs.declared.script.ScriptId.{ScriptId};
ghost use Rattle.solo_script.specs.declared.script.ScriptOp.{ScriptOp};
ghost use Rattle.solo_view.specs.Counts.{stores_among};
ghost use Rattle.solo_view.specs.View.{View};
ghost use Rattle.solo_exec.specs.Bounds.{logs_of, recorded_count, words_of_range};
ghost use Rattle.solo_exec.specs.Course.{IsFree, add_calls, commit_calls, refused_calls, write_calls};
ghost use Rattle.solo_exec.specs.declared.calls.Names.{Names};

/// A law: how many stores a line of a script makes, whatever the view at which it begins. A line that adds a range makes at most eight for
/// each word that the range covers, one that writes makes one for each word, and a commit makes one at most, or, where its transaction published
/// actions, made or freed objects, at most one more than a full redo log takes: of 63 of these at most. A line that is refused makes at most one
/// for each word that its transaction recorded, and one. The free steps of a line, and so a begin, a read and a free, make none. No code runs.
pub fn a_line_makes_few_stores()
    ensures adds { (names : Names) (id : ScriptId) (off len : ℕ) (v : View) → stores_among (add_calls names id off len v) ≤ 8 * words_of_range names id off len }
    ensures writes { (names : Names) (id : ScriptId) (off : ℕ) (bytes : List ℕ) (v : View) → stores_among (write_calls names id off bytes v) ≡ words_of_range names id off (length bytes) }
    ensures commits { (blocks : BlockLists) (n : ℕ) (v : View) → length (published_in v) + (length blocks.freed + length blocks.made) ≤ 63
        → stores_among (commit_calls blocks n v) ≤ 1 + logs_of (length (published_in v) + (length blocks.freed + length blocks.made)) }
    ensures free { (v w : View) (free : IsFree v w) → stores_among free.led.steps ≡ 0 }
    ensures refused { (names : Names) (op : ScriptOp) (r : Refusal) (n : ℕ) (v : View) → stores_among (refused_calls names op r n v) ≤ recorded_count v + 1 }
{}
