ghost use Rattle.std.specs.Prelude.{◌≡◌, ◌+◌, ◌-◌, ◌^◌, ◌≤◌};
ghost use Rattle.pm_words.specs.Masks.{HasBits};

/// The word whose bits `from` to `from + count - 1` are set, and no other.
pub fn mask(from: u64, count: u64) -> u64
    requires { from + count ≤ 64 }
    ensures value { result ≡ 2 ^ (from + count) - 2 ^ from }
    ensures bits { HasBits result from count }
{
    if count == 0 {
        return 0;
    }
    (u64::MAX >> (64 - count)) << from
}
