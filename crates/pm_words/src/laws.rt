ghost use Rattle.std.specs.Prelude.{◌≡◌, ◌%◌, ℕ, List, length};
ghost use Rattle.pm_words.specs.Words.{words_of, bytes_of, AreWords, AreBytes};

/// Words lead to bytes and back, and bytes to words and back: a law over all lists. No code runs.
pub fn words_and_bytes_agree()
    ensures words_again { (words : List ℕ) → AreWords words → words_of (bytes_of words) ≡ words }
    ensures bytes_again { (bytes : List ℕ) → AreBytes bytes → length bytes % 8 ≡ 0 → bytes_of (words_of bytes) ≡ bytes }
{}
