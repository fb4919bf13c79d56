ghost use Rattle.std.specs.Prelude.{◌≡◌, ◌%◌, ◌/◌, ◌^◌};
ghost use Rattle.pm_words.specs.Sums.{sum64};

/// Fletcher's sum of the words, over their 32-bit halves, the low half of a word first: the sum of
/// the halves in the low 32 bits, and the sum of its running values in the high ones. It is 0 for no
/// words and for zeros.
pub fn sum64(words: &[u64]) -> u64
    ensures { result ≡ sum64 words.now }
{
    let mut low = 0u32;
    let mut high = 0u32;
    for word in words {
        low = low.wrapping_add(low_half(*word));
        high = high.wrapping_add(low);
        low = low.wrapping_add(high_half(*word));
        high = high.wrapping_add(low);
    }
    (u64::from(high) << 32) | u64::from(low)
}

fn low_half(word: u64) -> u32
    ensures { result ≡ word % 2 ^ 32 }
{
    (word % 0x1_0000_0000) as u32
}

fn high_half(word: u64) -> u32
    ensures { result ≡ word / 2 ^ 32 }
{
    (word >> 32) as u32
}
