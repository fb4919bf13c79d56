ghost use Rattle.std.specs.Prelude.{◌≡◌};
ghost use Rattle.std.specs.Str.{all_ascii_digits};
ghost use Rattle.solo_script.specs.Numbers.{is_numeral, number_of};

/// The most digits of a number, leading zeros among them.
pub const MAX_DIGITS: usize = 20;

/// The number that the text writes: 1 to 20 decimal digits, without a sign, of a value below 2^64. Leading
/// zeros are allowed. `None` exactly where the text is none.
pub fn number(text: &str) -> Option<u64>
    ensures { result ≡ number_of text.now }
{
    if is_numeral(text.as_bytes()) {
        text.parse::<u64>().ok()
    } else {
        None
    }
}

fn is_numeral(text: &[u8]) -> bool
    ensures { result ≡ is_numeral text.now }
{
    !text.is_empty() && text.len() <= MAX_DIGITS && are_digits(text)
}

fn are_digits(text: &[u8]) -> bool
    ensures { result ≡ all_ascii_digits text.now }
{
    text.iter().all(|byte| byte.is_ascii_digit())
}
