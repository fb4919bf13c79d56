ghost use Rattle.std.specs.Prelude.{◌≡◌, ℕ, ◌+◌, ◌-◌, ◌^◌, ◌<◌, ◌≤◌, length, All, Any};
ghost use Rattle.pm_view.specs.Changes.{taken_back};
ghost use Rattle.pm_memory.specs.Changes.{changes_of};
ghost use Rattle.pm_memory.specs.Keep.{next_number, touched_below};
ghost use Rattle.pm_memory.specs.Keeping.{kept_after, IsTakenBack};
ghost use Rattle.pm_memory.specs.Survivors.{survivor};

use pm_view::Change;

/// How many changes are kept of a pair of a lane and a word that it changed: docs/FORMAT.md,
/// "Keep".
#[derive(Clone, Copy, Debug, PartialEq, Eq)]
pub enum Kept {
    /// None.
    Nothing,
    /// All.
    Everything,
    /// As many as the number that follows this one says.
    Drawn(u64),
}

impl Kept {
    ghost use Rattle.pm_memory.specs.Keeping.{kept_after};
    ghost use Rattle.pm_memory.specs.Keep.{kept_of};

    /// What the number of `--keep` stands for.
    pub fn of(keep: u64) -> Kept
        ensures { result ≡ kept_after keep 0 }
    {
        match keep {
            0 => Kept::Nothing,
            1 => Kept::Everything,
            seed => Kept::Drawn(seed),
        }
    }

    /// How many of so many changes of the next pair are kept.
    pub fn next(&mut self, changes: u64) -> u64
        requires { changes < 2 ^ 64 - 1 }
        ensures kept { (keep draws : ℕ) → self.old ≡ kept_after keep draws
            → result ≡ kept_of keep draws changes }
        ensures moved { (keep draws : ℕ) → self.old ≡ kept_after keep draws
            → self.new ≡ kept_after keep (draws + 1) }
        ensures most { result ≤ changes }
    {
        match *self {
            Kept::Nothing => 0,
            Kept::Everything => changes,
            Kept::Drawn(last) => {
                let number = number_after(last);
                *self = Kept::Drawn(number);
                (number >> 33) % (changes + 1)
            }
        }
    }
}

/// The number after this one.
fn number_after(last: u64) -> u64
    ensures { result ≡ next_number last }
{
    last.wrapping_mul(6364136223846793005)
        .wrapping_add(1442695040888963407)
}

/// The word with a change of it taken back.
fn without(change: Change, word: u64) -> u64
    ensures { result ≡ taken_back change word }
{
    word & !change.mask | change.old
}

/// How many of the changes are of the word.
fn count_of(changes: &[Change], word: u64) -> usize
    ensures number { result ≡ length (changes_of word changes.now) }
    ensures fits { result < 2 ^ 64 - 1 }
{
    changes.iter().filter(|change| change.word == word).count()
}

/// The least changed word from `from` on and below `end`; `end` where there is none.
fn next_changed(changes: &[Change], from: u64, end: u64) -> u64
    requires { from ≤ end }
    ensures from { from ≤ result }
    ensures most { result ≤ end }
    ensures changed { result < end → Any (λ c. c.word ≡ result) changes.now }
    ensures least { All (λ c. from ≤ c.word → result ≤ c.word) changes.now }
{
    let mut least = end;
    for change in changes {
        if from <= change.word && change.word < least {
            least = change.word;
        }
    }
    least
}

/// The word's value where the first so many of the changes of it are kept.
fn left_of(changes: &[Change], word: u64, kept: u64, value: u64) -> u64
    requires { kept ≤ length (changes_of word changes.now) }
    ensures { result ≡ survivor kept changes.now word value }
{
    let mut left = value;
    let mut to_take = count_of(changes, word) as u64 - kept;
    for i in (0..changes.len()).rev() {
        let change = changes[i];
        if change.word == word && to_take > 0 {
            left = without(change, left);
            to_take -= 1;
        }
    }
    left
}

/// Takes back in the words what is not kept of one lane's changes. Its time is that of the changes
/// and not of the words.
pub fn take_back(words: &mut [u64], changes: &[Change], kept: &mut Kept)
    ensures left { (keep draws : ℕ) → kept.old ≡ kept_after keep draws
        → IsTakenBack keep draws changes.now words.old words.new }
    ensures moved { (keep draws : ℕ) → kept.old ≡ kept_after keep draws
        → kept.new ≡ kept_after keep (draws + touched_below (length words.old) changes.now) }
{
    let end = words.len() as u64;
    let mut word = next_changed(changes, 0, end);
    while word < end {
        let first = kept.next(count_of(changes, word) as u64);
        words[word as usize] = left_of(changes, word, first, words[word as usize]);
        word = next_changed(changes, word + 1, end);
    }
}
