//! Names of the shelf, read whole and written once, and the images that their bytes are.

ghost use Rattle.std.specs.Prelude.{◌≡◌, ◌%◌, ◌^◌, ◌<◌, ◌≤◌, [], length, IfErr, IfOk, OnErr, OnOk};
ghost use Rattle.pm_words.specs.Words.{words_of};
ghost use Rattle.pm_image.specs.Steps.{IfImage};
ghost use Rattle.pm_shelf.specs.Outside.{Adds, IsWhole, MayAddPart};
ghost use Rattle.pm_commands.specs.Failures.{IsReadCause, IsWriteCause, failure_of};
ghost use Rattle.pm_commands.specs.PoolFiles.{BytesFail};

use crate::failure::Failure;
use crate::image_bytes::image_of;
use pm_image::{ImageFault, MeansFault};
use pm_layout::WORD_BYTES;
use pm_raw::RawImage;
use pm_shelf::{Shelf, ShelfFault};
use std::alloc::Global;

/// Room for so many bytes and a quarter more, or none where there is not so much. The memory of a
/// pool that lanes share is larger than its file, and fits where the file's bytes were.
fn room_for(alloc: Global, limit: u64) -> Vec<u8>
    requires { limit < 2 ^ 63 }
    ensures { result.items ≡ [] }
{
    let most = (limit + limit / 4) as usize;
    {
        // Given back at once. glibc's allocator then keeps the room of each copy of a pool that is
        // freed for the next, in place of new pages for each (mallopt(3), M_MMAP_THRESHOLD).
        let _room = Vec::<u8>::with_capacity(alloc, most);
    }
    match Vec::with_capacity(alloc, most) {
        Ok(room) => room,
        Err(_) => Vec::new(alloc),
    }
}

/// All bytes of a name, so many at most.
pub fn read<'a, S: Shelf>(
    alloc: Global,
    name: &'a str,
    limit: u64,
    shelf: &mut S,
) -> Result<Vec<u8>, Failure<'a>>
    requires { limit < 2 ^ 63 }
    ensures kept { S.content shelf.new ≡ S.content shelf.old }
    ensures whole { IfOk result (λ bytes. IsWhole (S.content shelf.old) name.now limit bytes.items) }
    ensures cause { IfErr result (IsReadCause name.now limit (S.content shelf.old) (S.faults shelf.old) (S.faults shelf.new)) }
    ensures faults { S.faults shelf.old ≤ S.faults shelf.new }
{
    let mut bytes = room_for(alloc, limit);
    match shelf.read(name, limit, &mut bytes) {
        Ok(()) => Ok(bytes),
        Err(ShelfFault::Memory) => Err(Failure::NoMemory),
        Err(ShelfFault::TooLong) => Err(Failure::TooLong(name)),
        Err(_) => Err(Failure::NotRead(name)),
    }
}

/// Adds a new name with these bytes.
pub fn put<'a, S: Shelf>(name: &'a str, bytes: &[u8], shelf: &mut S) -> Result<(), Failure<'a>>
    ensures added { OnOk result (Adds (S.content shelf.old) (S.content shelf.new) name.now bytes.now) }
    ensures cause { IfErr result (IsWriteCause name.now (S.content shelf.old) (S.faults shelf.old) (S.faults shelf.new)) }
    ensures part { OnErr result (MayAddPart (S.content shelf.old) (S.content shelf.new) name.now bytes.now) }
{
    match shelf.write(name, bytes) {
        Ok(()) => Ok(()),
        Err(ShelfFault::Memory) => Err(Failure::NoMemory),
        Err(_) => Err(Failure::NotWritten(name)),
    }
}

/// The image that the bytes of a file are, where they are whole words.
pub fn image_in(alloc: Global, bytes: &[u8]) -> Result<RawImage, MeansFault>
    ensures image { IfOk result (λ image. image ≡ words_of bytes.now) }
    ensures in_words { OnOk result (length bytes.now % 8 ≡ 0) }
    ensures fault { IfErr result (λ e. IfImage e (BytesFail bytes.now)) }
{
    if bytes.len() % WORD_BYTES as usize != 0 {
        return Err(MeansFault::Image(ImageFault::Size(bytes.len() as u64)));
    }
    let image = image_of(alloc, bytes)?;
    Ok(image)
}

/// The image that the bytes of a file are, where they are whole words. The bytes are freed.
pub fn image_from(alloc: Global, bytes: Vec<u8>) -> Result<RawImage, MeansFault>
    ensures image { IfOk result (λ image. image ≡ words_of bytes.items) }
    ensures in_words { OnOk result (length bytes.items % 8 ≡ 0) }
    ensures fault { IfErr result (λ e. IfImage e (BytesFail bytes.items)) }
{
    image_in(alloc, &bytes)
}

/// The failure that an image without a meaning is.
pub fn failure_of(fault: MeansFault) -> Failure<'static>
    ensures { result ≡ failure_of fault }
{
    match fault {
        MeansFault::Image(found) => Failure::Faulty(found),
        MeansFault::Memory => Failure::NoMemory,
    }
}
