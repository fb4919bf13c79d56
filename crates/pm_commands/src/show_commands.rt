//! The commands that show a pool and write nothing: `info` and `dump`.

ghost use Rattle.std.specs.Prelude.{◌≡◌, IfOk, IfErr};
ghost use Rattle.pm_image.specs.Steps.{IfImage};
ghost use Rattle.pm_commands.specs.Failures.{IsShowCause};
ghost use Rattle.pm_commands.specs.PoolFiles.{AreFactsIn, AreFactsOf, BytesFail, IsDumpOf, IsTextOf};

use crate::failure::Failure;
use crate::pool_files::{failure_of, image_in, read};
use pm_image::{MeansFault, means};
use pm_info::info_text;
use pm_layout::MAX_POOL_BYTES;
use pm_shelf::Shelf;
use pm_text::dump_text;
use std::alloc::Global;

/// Reads the pool with this name. The answer is the text of what it means.
pub fn run_dump<'a, S: Shelf>(
    alloc: Global,
    name: &'a str,
    shelf: &mut S,
) -> Result<Vec<u8>, Failure<'a>>
    ensures kept { S.content shelf.new ≡ S.content shelf.old }
    ensures text { IfOk result (λ text. IsDumpOf (S.content shelf.old) name.now text.items) }
    ensures cause { IfErr result (IsShowCause name.now (S.content shelf.old) (S.faults shelf.old) (S.faults shelf.new)) }
{
    let bytes = read(alloc, name, MAX_POOL_BYTES, shelf)?;
    match dump_of(alloc, &bytes) {
        Ok(text) => Ok(text),
        Err(fault) => Err(failure_of(fault)),
    }
}

/// The text of the pool that the bytes of a file mean.
fn dump_of(alloc: Global, bytes: &[u8]) -> Result<Vec<u8>, MeansFault>
    ensures text { IfOk result (λ text. IsTextOf bytes.now text.items) }
    ensures fault { IfErr result (λ e. IfImage e (BytesFail bytes.now)) }
{
    let image = image_in(alloc, bytes)?;
    let pool = means(alloc, &image)?;
    let text = dump_text(alloc, &pool)?;
    Ok(text)
}

/// Reads the pool with this name. The answer is the text of its facts.
pub fn run_info<'a, S: Shelf>(
    alloc: Global,
    name: &'a str,
    shelf: &mut S,
) -> Result<Vec<u8>, Failure<'a>>
    ensures kept { S.content shelf.new ≡ S.content shelf.old }
    ensures text { IfOk result (λ text. AreFactsIn (S.content shelf.old) name.now text.items) }
    ensures cause { IfErr result (IsShowCause name.now (S.content shelf.old) (S.faults shelf.old) (S.faults shelf.new)) }
{
    let bytes = read(alloc, name, MAX_POOL_BYTES, shelf)?;
    match facts_of(alloc, &bytes) {
        Ok(text) => Ok(text),
        Err(fault) => Err(failure_of(fault)),
    }
}

/// The text of the facts of the pool that the bytes of a file mean.
fn facts_of(alloc: Global, bytes: &[u8]) -> Result<Vec<u8>, MeansFault>
    ensures text { IfOk result (λ text. AreFactsOf bytes.now text.items) }
    ensures fault { IfErr result (λ e. IfImage e (BytesFail bytes.now)) }
{
    let image = image_in(alloc, bytes)?;
    info_text(alloc, &image)
}
