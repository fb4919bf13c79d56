ghost use Rattle.std.specs.Prelude.{◌≡◌, length, take};
ghost use Rattle.pm_header.specs.Spelling.{header_line, name_line, pair, with_pairs};

use crate::header::Header;
use pm_words::{sum64, words_of};

/// The words of the header page: 512.
pub(crate) const PAGE_WORDS: usize = pm_layout::PAGE_WORDS as usize;

/// The bytes `PMOBPOOL`, as a word.
pub(crate) const MAGIC: u64 = 0x4c4f_4f50_424f_4d50;

/// The words of a line: 8.
pub(crate) const LINE_WORDS: usize = pm_layout::LINE_WORDS as usize;

/// The words of a pair, the header line and the name line: 16.
pub(crate) const PAIR_WORDS: usize = 2 * LINE_WORDS;

/// The word at which the copy begins, in the middle of the page: word 256, the first of line 32.
pub(crate) const COPY_WORD: usize = PAGE_WORDS / 2;

/// Writes the header and its copy into the header page: lines 0 and 1, and lines 32 and 33. The other words of
/// the page stay.
pub fn encode(header: &Header, page: &mut [u64])
    requires page { length page.old ≡ 512 }
    requires version { header.now.version ≡ 1 }
    ensures { page.new ≡ with_pairs page.old header.now }
{
    let mut words = [0; PAIR_WORDS];
    spell(header, &mut words);
    page[..PAIR_WORDS].copy_from_slice(&words);
    page[COPY_WORD..COPY_WORD + PAIR_WORDS].copy_from_slice(&words);
}

/// Spells the header line and the name line.
fn spell(header: &Header, words: &mut [u64])
    requires { length words.old ≡ 16 }
    ensures { words.new ≡ pair header.now }
{
    let (first, second) = words.split_at_mut(LINE_WORDS);
    words_of(header.name.line(), second);
    first.copy_from_slice(&[
        MAGIC,
        header.version,
        header.id,
        header.lanes,
        header.zones,
        header.bytes,
        sum64(second),
        0,
    ]);
    first[7] = sum64(&first[..7]);
}
