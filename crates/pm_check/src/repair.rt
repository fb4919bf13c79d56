ghost use Rattle.std.specs.Prelude.{◌≡◌, ◌≤◌, length, IfOk};
ghost use Rattle.pm_header.specs.Pairs.{main_pair, HasOneGood, IsGood};
ghost use Rattle.pm_image.specs.Means.{page};
ghost use Rattle.pm_check.specs.Verdicts.{with_copy, with_main};

use pm_header::copy_good;
use pm_layout::PAGE_WORDS;
use pm_raw::RawImage;
use std::alloc::{AllocError, Global};

/// A further image with the good pair of the header written over the damaged one.
pub fn with_good_pair(alloc: Global, image: &RawImage) -> Result<RawImage, AllocError>
    requires page { 512 ≤ length image.now }
    requires one_good { HasOneGood (page image.now) }
    ensures main { IsGood (main_pair (page image.now)) →
        IfOk result (λ new. new ≡ with_main image.now) }
    ensures copy { ¬ IsGood (main_pair (page image.now)) →
        IfOk result (λ new. new ≡ with_copy image.now) }
{
    let mut words = Vec::from_slice(alloc, image.words(0, image.len()))?;
    mend(&mut words);
    RawImage::from_words(alloc, &words)
}

/// Writes the good pair of the header over the damaged one.
fn mend(words: &mut [u64])
    requires page { 512 ≤ length words.old }
    requires one_good { HasOneGood (page words.old) }
    ensures main { IsGood (main_pair (page words.old)) → words.new ≡ with_main words.old }
    ensures copy { ¬ IsGood (main_pair (page words.old)) → words.new ≡ with_copy words.old }
{
    let (page, _) = words.split_at_mut(PAGE_WORDS as usize);
    copy_good(page);
}
