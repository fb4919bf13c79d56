ghost use Rattle.std.specs.Prelude.{◌≡◌, IfOk, IfSome, IfNone, true, false};
ghost use Rattle.solo_script.specs.Words.{lines, words, texts, is_text, is_skipped};

use std::alloc::{AllocError, Global};
use std::str;

/// The lines of a text: what line feeds part.
pub fn lines_of(alloc: Global, text: &[u8]) -> Result<Vec<&[u8]>, AllocError>
    ensures { IfOk result (λ found. texts found.items ≡ lines text.now) }
{
    text.split(|byte| *byte == b'\n').collect(alloc)
}

/// The line as a text, where its bytes are all of 0x20 to 0x7E.
pub fn text_of(line: &[u8]) -> Option<&str>
    ensures some { IfSome result (λ text. (is_text line.now ≡ true) × (text.now ≡ line.now)) }
    ensures none { IfNone result (is_text line.now ≡ false) }
{
    if are_text(line) {
        str::from_utf8(line).ok()
    } else {
        None
    }
}

fn are_text(line: &[u8]) -> bool
    ensures { result ≡ is_text line.now }
{
    line.iter().all(|byte| (0x20..=0x7E).contains(byte))
}

/// The words of a line: what spaces part.
pub fn words_of(alloc: Global, line: &str) -> Result<Vec<&str>, AllocError>
    ensures { IfOk result (λ found. texts found.items ≡ words line.now) }
{
    line.split(' ')
        .filter(|word| !word.is_empty())
        .collect(alloc)
}

/// Whether a line of these words says nothing: it has none, or is a comment.
pub fn is_skipped(words: &[&str]) -> bool
    ensures { result ≡ is_skipped (texts words.now) }
{
    match words.first() {
        Some(first) => first.starts_with('#'),
        None => true,
    }
}
