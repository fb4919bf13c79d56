//! The files of the system as a shelf.
ghost use Rattle.std.specs.Prelude.{◌≡◌, ◌+◌, ◌≤◌, [], None, OnOk, vec_len};
ghost use Rattle.pm_shelf.specs.Plan.{one_more};

use crate::{Shelf, ShelfFault};
use std::fs::{File, OpenFile};
use std::io::{ErrorKind, Read, Write};
use std::rt::Files;
use std::{fs, io};

/// The files of the system, each named by its path. It tells nothing of what they hold, and never
/// answers `Missing` or `Exists`: each error of the file system is `Failed`, and raises the count
/// of faults by one, up to the largest `u64`. Only want of memory in a read is `Memory`. A write
/// makes a new file and touches none that is there; it doesn't wait until the disk has the bytes.
/// Where it fails after it made the file, as on a full disk or for want of memory, it removes that
/// file again, and nothing is left half written. Where the removal fails too, the file stays with a
/// part of the bytes, and the answer is still the write's. Where the file could not be made, as
/// where the name is there already, nothing is removed.
#[derive(Drop)]
pub struct FileShelf<R> {
    rt: R,
    faults: u64,
}

impl<R> FileShelf<R> {
    ghost use Rattle.pm_shelf.specs.FileShelf.{shelf_faults};

    /// A shelf over the files of a runtime, or of a `&` to one.
    pub fn new(rt: R) -> Self
        ensures { shelf_faults result ≡ 0 }
    {
        FileShelf { rt, faults: 0 }
    }

    /// How many calls failed.
    pub fn faults(&self) -> u64
        ensures { result ≡ shelf_faults self.now }
    {
        self.faults
    }

    fn count_fault(&mut self) -> ShelfFault
        ensures fault { result ≡ ShelfFault.Failed }
        ensures counted { shelf_faults self.new ≡ one_more (shelf_faults self.old) }
        ensures no_fewer { shelf_faults self.old ≤ shelf_faults self.new }
    {
        self.faults = self.faults.saturating_add(1);
        ShelfFault::Failed
    }
}

/// Bytes of room beyond a file's length, so that the read that finds its end needs no more.
const ROOM_FOR_END: u64 = 512;

/// Reads the bytes of a file, or its first, one more than the limit. It makes room for all of them
/// first, by the length that the file system gives, and more where the file turns out longer.
fn read_front<R: Files>(rt: &R, path: &str, limit: u64, into: &mut Vec<u8>) -> io::Result<()>
    requires { into.old.items ≡ [] }
    ensures { OnOk result (vec_len into.new ≤ limit + 1) }
{
    let most = limit.saturating_add(1);
    let file = File::open(rt, path)?;
    let known = file.metadata().map_or(0, |it| it.len()).min(most);
    into.reserve_exact(known.saturating_add(ROOM_FOR_END) as usize)?;
    file.take(most).read_to_end(into)?;
    // `take` lets no more through already, which its contract doesn't say.
    into.truncate(most as usize);
    Ok(())
}

/// Makes a file with these bytes, or none: a file that it made and could not write it removes.
fn write_new<R: Files>(rt: &R, path: &str, bytes: &[u8]) -> io::Result<()> {
    // The file is closed at the end of this line.
    let written = File::create_new(rt, path)?.write_all(bytes);
    if written.is_err() {
        // The write failed already, and whatever becomes of the removal, that is the answer.
        let _ = fs::remove_file(rt, path);
    }
    written
}

impl<R: Files> Shelf for FileShelf<R> {
    ghost use Rattle.pm_shelf.specs.FileShelf.{shelf_faults};

    ghost content = { λ _. None };

    ghost faults = { shelf_faults };

    fn read(&mut self, name: &str, limit: u64, into: &mut Vec<u8>) -> Result<(), ShelfFault> {
        match read_front(&self.rt, name, limit, into) {
            Ok(()) if into.len() as u64 <= limit => Ok(()),
            Ok(()) => Err(ShelfFault::TooLong),
            Err(error) if error.kind() == ErrorKind::OutOfMemory => Err(ShelfFault::Memory),
            Err(_) => Err(self.count_fault()),
        }
    }

    fn write(&mut self, name: &str, bytes: &[u8]) -> Result<(), ShelfFault> {
        match write_new(&self.rt, name, bytes) {
            Ok(()) => Ok(()),
            Err(_) => Err(self.count_fault()),
        }
    }
}
