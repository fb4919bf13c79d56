//! The sums of a pool's header page: docs/FORMAT.md, "Header page".
ghost use Rattle.std.specs.Prelude.{◌≡◌, length};
ghost use Rattle.pm_transcript.specs.HeaderSums.{with_sums};

use pm_layout::{LINE_BYTES, LINE_WORDS, PAGE_BYTES};
use pm_words::{bytes_of, sum64, words_of};

/// Words and bytes of a header line with its name line.
const PAIR_WORDS: usize = 2 * LINE_WORDS as usize;

const PAIR_BYTES: usize = 2 * LINE_BYTES as usize;

/// The place of the copy of both lines.
const COPY_AT: usize = PAGE_BYTES as usize / 2;

/// Gives both pairs of the page the sums of what they have; `None` where the bytes end before.
pub fn make_sums(page: &mut [u8]) -> Option<()> {
    make_pair_sums(page, 0)?;
    make_pair_sums(page, COPY_AT)
}

/// Gives the pair at this place its sums; `None` where the bytes end before.
fn make_pair_sums(page: &mut [u8], at: usize) -> Option<()> {
    let pair = page.get_mut(at..)?.get_mut(..PAIR_BYTES)?;
    let mut words = [0; PAIR_WORDS];
    words_of(pair, &mut words);
    sum_pair(&mut words);
    bytes_of(&words, pair);
    Some(())
}

/// Gives the words of a pair their sums: word 6 is the name line's, and word 7 that of the seven
/// before it.
fn sum_pair(words: &mut [u64])
    requires { length words.old ≡ 16 }
    ensures { words.new ≡ with_sums words.old }
{
    words[6] = sum64(&words[8..16]);
    words[7] = sum64(&words[0..7]);
}
