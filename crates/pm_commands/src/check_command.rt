//! The command `check`: the verdict on a pool, and the mended pool under a new name.

ghost use Rattle.std.specs.Prelude.{◌≡◌, IfErr, IfOk, OnOk};
ghost use Rattle.pm_options.specs.Asked.{check_asked};
ghost use Rattle.pm_commands.specs.Checked.{IsChecked, IsFinding, MayAddMended};
ghost use Rattle.pm_commands.specs.Failures.{IsCheckCause, IsWriteCause};
ghost use Rattle.pm_commands.specs.Lines.{consistent_line, mended_lines};
ghost use Rattle.pm_shelf.specs.Outside.{Adds, MayAddPart};

use crate::failure::Failure;
use crate::image_bytes::{image_bytes, image_of};
use crate::pool_files::{put, read};
use pm_check::{Verdict, check};
use pm_image::{ImageFault, text_of_fault};
use pm_layout::{MAX_POOL_BYTES, WORD_BYTES};
use pm_options::CheckWords;
use pm_shelf::Shelf;
use std::alloc::{AllocError, Global};

/// What is found of the bytes of a pool.
#[derive(Drop)]
pub enum Finding {
    /// They mean a pool.
    Consistent,
    /// They have this fault.
    Fault(ImageFault),
    /// They had this fault, and these are the mended bytes.
    Mended { found: ImageFault, bytes: Vec<u8> },
}

/// Checks the pool, and puts a mended one on the shelf under its new name. The answer is the text to print.
pub fn run_check<'a, S: Shelf>(
    alloc: Global,
    words: &CheckWords<'a>,
    shelf: &mut S,
) -> Result<Vec<u8>, Failure<'a>>
    ensures checked { IfOk result (λ text. IsChecked (check_asked words.now) (S.content shelf.old) (S.content shelf.new) text.items) }
    ensures cause { IfErr result (IsCheckCause (check_asked words.now) (S.content shelf.old) (S.content shelf.new) (S.faults shelf.old) (S.faults shelf.new)) }
    ensures part { MayAddMended (check_asked words.now) (S.content shelf.old) (S.content shelf.new) }
{
    let bytes = read(alloc, words.pool, MAX_POOL_BYTES, shelf)?;
    match examine(alloc, &bytes, words.repair.is_some()) {
        Ok(Finding::Consistent) => consistent_text(alloc),
        Ok(Finding::Fault(found)) => Err(Failure::Fault(found)),
        Ok(Finding::Mended { found, bytes }) => match words.repair {
            Some(name) => put_mended(alloc, name, found, &bytes, shelf),
            // Nothing is mended unasked.
            None => Err(Failure::Fault(found)),
        },
        Err(AllocError) => Err(Failure::NoMemory),
    }
}

/// Checks the bytes of a pool, and mends them where `repair` is true and that can be done.
fn examine(alloc: Global, bytes: &[u8], repair: bool) -> Result<Finding, AllocError>
    ensures { IfOk result (IsFinding bytes.now repair) }
{
    if bytes.len() % WORD_BYTES as usize != 0 {
        return Ok(Finding::Fault(ImageFault::Size(bytes.len() as u64)));
    }
    let mut image = image_of(alloc, bytes)?;
    match check(alloc, &mut image, repair)? {
        Verdict::Consistent => Ok(Finding::Consistent),
        Verdict::Fault(found) => Ok(Finding::Fault(found)),
        Verdict::Mended(found) => {
            let bytes = image_bytes(alloc, &image)?;
            Ok(Finding::Mended { found, bytes })
        }
    }
}

/// What is printed of a pool without a fault.
fn consistent_text<'a>(alloc: Global) -> Result<Vec<u8>, Failure<'a>>
    ensures text { IfOk result (λ text. text.items ≡ consistent_line) }
    ensures memory { IfErr result (λ failure. failure ≡ Failure.NoMemory) }
{
    match Vec::from_slice(alloc, b"consistent\n") {
        Ok(text) => Ok(text),
        Err(AllocError) => Err(Failure::NoMemory),
    }
}

/// Puts the mended pool on the shelf under its new name. The answer is the text to print.
fn put_mended<'a, S: Shelf>(
    alloc: Global,
    name: &'a str,
    found: ImageFault,
    bytes: &[u8],
    shelf: &mut S,
) -> Result<Vec<u8>, Failure<'a>>
    ensures text { IfOk result (λ text. text.items ≡ mended_lines found) }
    ensures added { OnOk result (Adds (S.content shelf.old) (S.content shelf.new) name.now bytes.now) }
    ensures cause { IfErr result (IsWriteCause name.now (S.content shelf.old) (S.faults shelf.old) (S.faults shelf.new)) }
    ensures part { MayAddPart (S.content shelf.old) (S.content shelf.new) name.now bytes.now }
{
    let text = match mended_text(alloc, found) {
        Ok(text) => text,
        Err(AllocError) => return Err(Failure::NoMemory),
    };
    put(name, bytes, shelf)?;
    Ok(text)
}

/// What is printed of a pool that was mended.
fn mended_text(alloc: Global, found: ImageFault) -> Result<Vec<u8>, AllocError>
    ensures { IfOk result (λ text. text.items ≡ mended_lines found) }
{
    let fault = text_of_fault(alloc, found)?;
    let text = format!(in alloc; "fault {fault}\nmended\n")?;
    Ok(text.into_bytes())
}
