ghost use Rattle.std.specs.Prelude.{◌≡◌, ◌%◌, ◌≤◌, length, IfOk, IfErr, string_bytes};
ghost use Rattle.pm_words.specs.Words.{bytes_of};
ghost use Rattle.pm_pool.specs.Created.{created};
ghost use Rattle.pm_options.specs.Asked.{create_asked};
ghost use Rattle.pm_shelf.specs.Outside.{MayAddPart};
ghost use Rattle.pm_commands.specs.Created.{HasGoodValues, IsCreated, IsValueCause, pool_bytes};
ghost use Rattle.pm_commands.specs.Failures.{IsCreateCause};
ghost use Rattle.pm_commands.specs.Lines.{root_text, created_line, created_line_of};

use crate::failure::Failure;
use crate::image_bytes::image_bytes;
use pm_layout::Shape;
use pm_options::CreateWords;
use pm_pool::{CreateFault, create, root_offset};
use pm_raw::RawImage;
use pm_shelf::{Shelf, ShelfFault};
use std::alloc::{AllocError, Global};

/// Makes the pool that the words ask for, and puts it on the shelf under its name. The answer is the line to print.
pub fn run_create<'a, S: Shelf>(
    alloc: Global,
    words: &CreateWords<'a>,
    shelf: &mut S,
) -> Result<String, Failure<'a>>
    ensures created { IfOk result (λ line. IsCreated (create_asked words.now) (S.content shelf.old) (S.content shelf.new) (string_bytes line)) }
    ensures cause { IfErr result (IsCreateCause (create_asked words.now) (S.content shelf.old) (S.content shelf.new) (S.faults shelf.old) (S.faults shelf.new)) }
    ensures part { MayAddPart (S.content shelf.old) (S.content shelf.new) words.now.pool.now (pool_bytes (create_asked words.now)) }
{
    let made = match make_pool(alloc, words) {
        Ok(made) => made,
        Err(failure) => return Err(failure),
    };
    match shelf.write(words.pool, &made.bytes) {
        Ok(()) => Ok(made.line),
        Err(ShelfFault::Memory) => Err(Failure::NoMemory),
        Err(_) => Err(Failure::NotWritten(words.pool)),
    }
}

/// A pool that is not written yet, and the line that tells of it.
#[derive(Drop)]
struct Made {
    bytes: Vec<u8>,
    line: String,
}

/// Makes the pool that the words ask for.
fn make_pool<'a>(alloc: Global, words: &CreateWords<'a>) -> Result<Made, Failure<'a>>
    ensures good { IfOk result (λ made. HasGoodValues (create_asked words.now).wanted) }
    ensures bytes { IfOk result (λ made. made.bytes.items ≡ bytes_of (created (create_asked words.now).wanted)) }
    ensures line { IfOk result (λ made. string_bytes made.line ≡ created_line (create_asked words.now).wanted) }
    ensures cause { IfErr result (IsValueCause (create_asked words.now).wanted) }
{
    let Ok(shape) = Shape::new(words.lanes, words.zones) else {
        return Err(Failure::BadShape);
    };
    match create(alloc, shape, words.id, words.layout, words.root) {
        Ok(image) => match written_out(alloc, shape, words.root, &image) {
            Ok(made) => Ok(made),
            Err(AllocError) => Err(Failure::NoMemory),
        },
        Err(CreateFault::BadId) => Err(Failure::BadValue(CreateFault::BadId)),
        Err(CreateFault::BadLayout) => Err(Failure::BadValue(CreateFault::BadLayout)),
        Err(CreateFault::BadSize) => Err(Failure::BadValue(CreateFault::BadSize)),
        Err(CreateFault::Memory) => Err(Failure::NoMemory),
    }
}

/// The pool's bytes, and its line.
fn written_out(alloc: Global, shape: Shape, root: u64, image: &RawImage) -> Result<Made, AllocError>
    requires words { length image.now % 8 ≡ 0 }
    requires root { root ≤ 262080 }
    ensures bytes { IfOk result (λ made. made.bytes.items ≡ bytes_of image.now) }
    ensures line { IfOk result (λ made. string_bytes made.line ≡ created_line_of shape.lanes shape.zones root) }
{
    let bytes = image_bytes(alloc, image)?;
    let line = created_line(alloc, shape, root)?;
    Ok(Made { bytes, line })
}

/// The line that tells of a new pool.
fn created_line(alloc: Global, shape: Shape, root: u64) -> Result<String, AllocError>
    requires { root ≤ 262080 }
    ensures { IfOk result (λ line. string_bytes line ≡ created_line_of shape.lanes shape.zones root) }
{
    let bytes = shape.size();
    let root_text = root_text(alloc, shape, root)?;
    format!(in alloc; "created {bytes} root {root_text}\n")
}

/// The root's offset as it is printed, or `none`.
fn root_text(alloc: Global, shape: Shape, root: u64) -> Result<String, AllocError>
    requires { root ≤ 262080 }
    ensures { IfOk result (λ text. string_bytes text ≡ root_text shape.lanes root) }
{
    if root == 0 {
        return String::from_str(alloc, "none");
    }
    root_offset(shape, root).to_string(alloc)
}
