//! The command `recover`: the recovered pool under a new name, or what a power failure leaves of its recovery.

ghost use Rattle.std.specs.Prelude.{◌≡◌, ◌%◌, ◌≤◌, length, IfErr, IfOk, OnOk};
ghost use Rattle.pm_image.specs.Means.{IsImageFault};
ghost use Rattle.pm_image.specs.Steps.{IfImage};
ghost use Rattle.pm_recover.specs.Answers.{IfImage as IfFault};
ghost use Rattle.pm_words.specs.Words.{bytes_of};
ghost use Rattle.pm_options.specs.Asked.{recover_asked};
ghost use Rattle.pm_commands.specs.Failures.{IsRecoverCause, IsShowCause};
ghost use Rattle.pm_commands.specs.Lines.{recover_line};
ghost use Rattle.pm_commands.specs.PoolFiles.{BytesFail};
ghost use Rattle.pm_commands.specs.Recovered.{IsPoolRecovered, IsRecovery, IsRecoveryOf, IsRecoveryOver, MayAddRecovery};

use crate::failure::Failure;
use crate::image_bytes::image_bytes;
use crate::pool_files::{failure_of, image_in, put, read};
use pm_image::MeansFault;
use pm_layout::MAX_POOL_BYTES;
use pm_options::RecoverWords;
use pm_raw::RawImage;
use pm_reopen::{RecoverEnd, RecoverFault, recover, recover_stop};
use pm_shelf::Shelf;
use std::alloc::{AllocError, Global};

/// Recovers the pool, and puts what is left on the shelf under its new name. The answer is the line to print.
pub fn run_recover<'a, S: Shelf>(
    alloc: Global,
    words: &RecoverWords<'a>,
    shelf: &mut S,
) -> Result<Vec<u8>, Failure<'a>>
    ensures recovered { IfOk result (λ text. IsPoolRecovered (recover_asked words.now) (S.content shelf.old) (S.content shelf.new) text.items) }
    ensures cause { IfErr result (IsRecoverCause (recover_asked words.now) (S.content shelf.old) (S.content shelf.new) (S.faults shelf.old) (S.faults shelf.new)) }
    ensures part { MayAddRecovery (recover_asked words.now) (S.content shelf.old) (S.content shelf.new) }
{
    let left = recover_file(alloc, words, shelf)?;
    put(words.out, &left.bytes, shelf)?;
    Ok(left.line)
}

/// What a recovery leaves, before it is written.
#[derive(Drop)]
struct Left {
    bytes: Vec<u8>,
    line: Vec<u8>,
}

/// Reads the pool and recovers it.
fn recover_file<'a, S: Shelf>(
    alloc: Global,
    words: &RecoverWords<'a>,
    shelf: &mut S,
) -> Result<Left, Failure<'a>>
    ensures kept { S.content shelf.new ≡ S.content shelf.old }
    ensures left { IfOk result (λ left. IsRecoveryOf (S.content shelf.old) (recover_asked words.now) left.bytes.items left.line.items) }
    ensures cause { IfErr result (IsShowCause (recover_asked words.now).pool (S.content shelf.old) (S.faults shelf.old) (S.faults shelf.new)) }
    ensures faults { S.faults shelf.old ≤ S.faults shelf.new }
{
    let source = read(alloc, words.pool, MAX_POOL_BYTES, shelf)?;
    match recover_bytes(alloc, words, &source) {
        Ok(left) => Ok(left),
        Err(fault) => Err(failure_of(fault)),
    }
}

/// Recovers the pool of some bytes.
fn recover_bytes(alloc: Global, words: &RecoverWords<'_>, source: &[u8]) -> Result<Left, MeansFault>
    ensures left { IfOk result (λ left. IsRecoveryOver source.now (recover_asked words.now) left.bytes.items left.line.items) }
    ensures fault { IfErr result (λ e. IfImage e (BytesFail source.now)) }
{
    let mut image = image_in(alloc, source)?;
    match recover_image(alloc, &mut image, words.stop, words.keep) {
        Ok(end) => Ok(written_out(alloc, &image, end)?),
        Err(RecoverFault::Image(found)) => Err(MeansFault::Image(found)),
        Err(RecoverFault::Memory(AllocError)) => Err(MeansFault::Memory),
    }
}

/// Recovers an image, with at most so many calls where `stop` has a number.
fn recover_image(
    alloc: Global,
    image: &mut RawImage,
    stop: Option<u64>,
    keep: u64,
) -> Result<RecoverEnd, RecoverFault>
    ensures recovered { IfOk result (λ end. IsRecovery image.old stop keep end image.new) }
    ensures lines { OnOk result (length image.new % 8 ≡ 0) }
    ensures fault { IfErr result (λ e. IfFault e (IsImageFault image.old)) }
{
    match stop {
        Some(stop) => Ok(recover_stop(alloc, image, stop, keep)?),
        None => Ok(RecoverEnd::Whole(recover(alloc, image)?)),
    }
}

/// The bytes of the image that is left, and the line that tells how its recovery ended.
fn written_out(alloc: Global, image: &RawImage, end: RecoverEnd) -> Result<Left, AllocError>
    requires { length image.now % 8 ≡ 0 }
    ensures bytes { IfOk result (λ left. left.bytes.items ≡ bytes_of image.now) }
    ensures line { IfOk result (λ left. left.line.items ≡ recover_line end) }
{
    let bytes = image_bytes(alloc, image)?;
    let line = recover_line(alloc, end)?;
    Ok(Left { bytes, line })
}

/// The line that tells how a recovery ended.
fn recover_line(alloc: Global, end: RecoverEnd) -> Result<Vec<u8>, AllocError>
    ensures { IfOk result (λ text. text.items ≡ recover_line end) }
{
    let text = match end {
        RecoverEnd::Whole(calls) => format!(in alloc; "recovered after {calls} calls\n")?,
        RecoverEnd::Stopped(calls) => format!(in alloc; "stopped after {calls} calls\n")?,
    };
    Ok(text.into_bytes())
}
