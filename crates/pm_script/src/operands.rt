ghost use Rattle.std.specs.Prelude.{◌≡◌, option_and_then, option_map, IfOk};
ghost use Rattle.pm_script.specs.Contexts.{bound_line};
ghost use Rattle.pm_script.specs.Numbers.{number_of};
ghost use Rattle.pm_script.specs.Operands.{bytes_of, dest_of, errnum_of, id_of, letter_of, side_of, size_of, want_of, wanted};
ghost use Rattle.pm_script.specs.declared.script.ScriptId.TheVariants.{At, Bound};

use crate::context::Context;
use crate::numbers::number;
use crate::script::{ScriptId, ScriptWant};
use hex::FromHexError;
use pm_objects::Sequence;
use std::alloc::{AllocError, Global};

/// The most bytes that a line writes or reads.
const MAX_BYTES: usize = 4096;

/// The object that a word names in its place: `root`, the number of its offset, or `$` and a letter that the lane has bound.
pub fn id_of(context: &Context, word: &str) -> Option<ScriptId>
    ensures { result ≡ id_of context.now word.now }
{
    if word == "root" {
        return Some(ScriptId::Root);
    }
    match word.strip_prefix("$") {
        Some(letter) => bound_of(context, letter),
        None => offset_of(word),
    }
}

/// The object at the offset that a word writes.
fn offset_of(word: &str) -> Option<ScriptId>
    ensures { result ≡ option_map At (number_of word.now) }
{
    number(word).map(ScriptId::At)
}

/// What the letter that a word is stands for.
fn bound_of(context: &Context, word: &str) -> Option<ScriptId>
    ensures { result ≡ option_map Bound (option_and_then (bound_line context.now) (letter_of word.now)) }
{
    let letter = letter_of(word)?;
    context.bound_line(letter).map(ScriptId::Bound)
}

/// The letter that a word is, from 0 for `a` to 25 for `z`.
pub fn letter_of(word: &str) -> Option<u8>
    ensures { result ≡ letter_of word.now }
{
    match word.as_bytes() {
        [letter @ b'a'..=b'z'] => Some(letter - b'a'),
        _ => None,
    }
}

/// What a word of a begin wants: `r:ID` or `ID`.
pub fn want_of(context: &Context, word: &str) -> Option<ScriptWant>
    ensures { result ≡ want_of context.now word.now }
{
    match word.strip_prefix("r:") {
        Some(object) => wanted(context, object, false),
        None => wanted(context, word, true),
    }
}

fn wanted(context: &Context, object: &str, write: bool) -> Option<ScriptWant>
    ensures { result ≡ option_map (wanted write) (id_of context.now object.now) }
{
    Some(ScriptWant {
        id: id_of(context, object)?,
        write,
    })
}

/// The object that a word names in its place, or nothing where it is `null`.
pub fn dest_of(context: &Context, word: &str) -> Option<Option<ScriptId>>
    ensures { result ≡ dest_of context.now word.now }
{
    if word == "null" {
        Some(None)
    } else {
        Some(Some(id_of(context, word)?))
    }
}

/// On which side of a member: true for `before`, false for `after`.
pub fn side_of(word: &str) -> Option<bool>
    ensures { result ≡ side_of word.now }
{
    match word {
        "before" => Some(true),
        "after" => Some(false),
        _ => None,
    }
}

/// The error number that a word writes, below 2^32.
pub fn errnum_of(word: &str) -> Option<u32>
    ensures { result ≡ errnum_of word.now }
{
    u32::try_from(number(word)?).ok()
}

/// How many bytes a line reads, as its word writes it: 1 to 4,096.
pub fn size_of(word: &str) -> Option<u64>
    ensures { result ≡ size_of word.now }
{
    number(word).filter(|size| (1..=MAX_BYTES as u64).contains(size))
}

/// The bytes that the word writes in hexadecimal digits.
pub fn bytes_of(alloc: Global, word: &str) -> Result<Option<Sequence<u8>>, AllocError>
    ensures { IfOk result (λ found. found ≡ bytes_of word.now) }
{
    if word.is_empty() || word.len() > 2 * MAX_BYTES {
        return Ok(None);
    }
    match hex::decode(alloc, word) {
        Ok(bytes) => Ok(Some(Sequence::from_vec(bytes))),
        Err(FromHexError::OutOfMemory) => Err(AllocError),
        Err(_) => Ok(None),
    }
}
