ghost use Rattle.std.specs.Prelude.{map};
ghost use Rattle.pm_memory.specs.Keep.{IsKeptImage};

use crate::survivors::{Kept, take_back};
use pm_view::Change;

/// The words that a power failure leaves of these, where `undrained` has the undrained changes of
/// each lane, the oldest first, lanes by their number. Of each lane's changes of a word as many
/// are kept as `keep` says: 0 none, 1 all, else by numbers that follow it (docs/FORMAT.md, "Keep").
/// It takes no memory.
pub fn crash(words: Vec<u64>, undrained: &[Vec<Change>], keep: u64) -> Vec<u64>
    ensures { IsKeptImage keep words.items (map (λ changes. changes.items) undrained.now)
        result.items }
{
    let mut left = words;
    let mut kept = Kept::of(keep);
    for changes in undrained {
        take_back(&mut left, changes.as_slice(), &mut kept);
    }
    left
}
