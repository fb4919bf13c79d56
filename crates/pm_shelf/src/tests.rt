use super::*;
use std::alloc::{Allocator, Global};
use std::env::temp_dir;
use std::fmt::Display;
use std::fs::{Metadata, OpenFile, OpenOptions};
use std::io::{ErrorKind, Read, Seek, SeekFrom, Write};
use std::process::id;
use std::rt::Files;
use std::sync::atomic::{AtomicU64, Ordering};
use std::test::Fail;
use std::thread::Threads;
use std::{fs, io, thread};

/// An output that nobody reads.
struct ClosedOutput;

impl Print for ClosedOutput {
    fn print<D: Display + Drop>(&self, _value: D) -> io::Result<()> {
        Err(ErrorKind::BrokenPipe.into())
    }

    fn println<D: Display + Drop>(&self, _value: D) -> io::Result<()> {
        Err(ErrorKind::BrokenPipe.into())
    }

    fn write_all(&self, _bytes: &[u8]) -> io::Result<()> {
        Err(ErrorKind::BrokenPipe.into())
    }
}

/// The files of a runtime on a disk that has room for two bytes more, and on which a file can be
/// removed or not.
#[derive(Drop)]
struct FullDisk<R> {
    rt: R,
    removes: bool,
}

/// A file that takes two bytes at its first write, and then no more.
#[derive(Drop)]
struct FullFile<F> {
    file: F,
    is_full: bool,
}

impl<F: Read> Read for FullFile<F> {
    fn read(&mut self, buf: &mut [u8]) -> io::Result<usize> {
        self.file.read(buf)
    }
}

impl<F: Write> Write for FullFile<F> {
    fn write(&mut self, buf: &[u8]) -> io::Result<usize> {
        if self.is_full {
            return Err(ErrorKind::StorageFull.into());
        }
        self.is_full = true;
        self.file.write(&buf[..buf.len().min(2)])
    }

    fn flush(&mut self) -> io::Result<()> {
        self.file.flush()
    }
}

impl<F: Seek> Seek for FullFile<F> {
    fn seek(&mut self, pos: SeekFrom) -> io::Result<u64> {
        self.file.seek(pos)
    }
}

impl<F: OpenFile> OpenFile for FullFile<F> {
    fn metadata(&self) -> io::Result<Metadata> {
        self.file.metadata()
    }

    fn set_len(&self, size: u64) -> io::Result<()> {
        self.file.set_len(size)
    }

    fn sync_all(&self) -> io::Result<()> {
        self.file.sync_all()
    }

    fn sync_data(&self) -> io::Result<()> {
        self.file.sync_data()
    }
}

impl<R: Files> Files for FullDisk<R> {
    type File = FullFile<R::File>;

    type Dir = R::Dir;

    fn open_file(&self, how: &OpenOptions, path: &str) -> io::Result<FullFile<R::File>> {
        Ok(FullFile {
            file: self.rt.open_file(how, path)?,
            is_full: false,
        })
    }

    fn open_dir(&self, path: &str) -> io::Result<R::Dir> {
        self.rt.open_dir(path)
    }

    fn metadata(&self, path: &str) -> io::Result<Metadata> {
        self.rt.metadata(path)
    }

    fn symlink_metadata(&self, path: &str) -> io::Result<Metadata> {
        self.rt.symlink_metadata(path)
    }

    fn copy(&self, from: &str, to: &str) -> io::Result<u64> {
        self.rt.copy(from, to)
    }

    fn rename(&self, from: &str, to: &str) -> io::Result<()> {
        self.rt.rename(from, to)
    }

    fn remove_file(&self, path: &str) -> io::Result<()> {
        if !self.removes {
            return Err(ErrorKind::PermissionDenied.into());
        }
        self.rt.remove_file(path)
    }

    fn create_dir(&self, path: &str) -> io::Result<()> {
        self.rt.create_dir(path)
    }

    fn remove_dir(&self, path: &str) -> io::Result<()> {
        self.rt.remove_dir(path)
    }

    fn remove_dir_all<B: Allocator>(&self, alloc: B, path: &str) -> io::Result<()> {
        self.rt.remove_dir_all(alloc, path)
    }
}

/// What a read answers, and the bytes that it leaves.
fn read<S: Shelf>(
    alloc: Global,
    shelf: &mut S,
    name: &str,
    limit: u64,
) -> (Result<(), ShelfFault>, Vec<u8>) {
    let mut bytes = Vec::new(alloc);
    let result = shelf.read(name, limit, &mut bytes);
    (result, bytes)
}

fn write<S: Shelf>(shelf: &mut S, name: &str, text: &str) -> Result<(), ShelfFault> {
    shelf.write(name, text.as_bytes())
}

fn put<S: Sink>(sink: &mut S, text: &str) -> Result<(), SinkFault> {
    sink.put(text.as_bytes())
}

#[test]
fn a_map_shelf_holds_what_was_written(rt: HostRuntime) -> Result<(), Fail> {
    let mut shelf = MapShelf::new(rt.alloc());
    assert!(rt; shelf.is_empty());
    for (name, text, want) in [
        ("one", "1234", Ok(())),
        ("none", "", Ok(())),
        ("one", "9", Err(ShelfFault::Exists)),
    ] {
        assert_eq!(rt; write(&mut shelf, name, text), want, "{name} {text}");
    }
    assert_eq!(rt; shelf.len(), 2);
    assert_eq!(rt; shelf.get("one").is_some(), true);
    for (name, limit, want, front) in [
        ("one", 4, Ok(()), "1234"),
        ("one", u64::MAX, Ok(()), "1234"),
        ("one", 3, Err(ShelfFault::TooLong), "1234"),
        ("one", 1, Err(ShelfFault::TooLong), "12"),
        ("none", 0, Ok(()), ""),
        ("two", 9, Err(ShelfFault::Missing), ""),
    ] {
        let (result, bytes) = read(rt.alloc(), &mut shelf, name, limit);
        assert_eq!(rt; result, want, "{name} {limit}");
        assert_eq!(rt; bytes.as_slice(), front.as_bytes(), "{name} {limit}");
    }
    Ok(())
}

#[test]
fn a_failing_shelf_fails_by_plan(rt: HostRuntime) -> Result<(), Fail> {
    let mut shelf = FailingShelf::new(rt.alloc(), vec![in rt.alloc(); 3, 1]?);
    for (name, want, faults) in [
        ("a", Ok(()), 0),
        ("b", Err(ShelfFault::Failed), 1),
        ("b", Ok(()), 1),
        ("c", Err(ShelfFault::Failed), 2),
        ("a", Err(ShelfFault::Exists), 2),
    ] {
        assert_eq!(rt; write(&mut shelf, name, "1"), want, "{name}");
        assert_eq!(rt; shelf.faults(), faults, "{name}");
    }
    assert_eq!(rt; shelf.get("b").is_some(), true);
    let (result, bytes) = read(rt.alloc(), &mut shelf, "c", 9);
    assert_eq!(rt; result, Err(ShelfFault::Missing));
    assert_eq!(rt; bytes.len(), 0);
    Ok(())
}

#[test]
fn sinks_in_memory_keep_what_was_put(rt: HostRuntime) -> Result<(), Fail> {
    let mut list = ListSink::new(rt.alloc());
    let mut failing = FailingSink::new(rt.alloc(), vec![in rt.alloc(); 1]?);
    for (text, want) in [("a", Ok(())), ("b", Err(SinkFault::Failed)), ("c", Ok(()))] {
        assert_eq!(rt; put(&mut list, text), Ok(()), "{text}");
        assert_eq!(rt; put(&mut failing, text), want, "{text}");
    }
    assert_eq!(rt; list.bytes(), b"abc".as_slice());
    assert_eq!(rt; failing.bytes(), b"ac".as_slice());
    assert_eq!(rt; failing.faults(), 1);
    Ok(())
}

#[test]
fn a_file_is_written_once(rt: HostRuntime) -> Result<(), Fail> {
    let folder = temp_dir(&rt)?;
    let name = format!(in rt.alloc(); "pm_shelf_{}", id(rt.process()))?;
    let path = folder.as_path().join(rt.alloc(), name.as_str())?;
    let path = path.as_path().as_str();
    let mut shelf = FileShelf::new(&rt);
    assert_eq!(rt; write(&mut shelf, path, "1234"), Ok(()));
    assert_eq!(rt; write(&mut shelf, path, "9"), Err(ShelfFault::Failed));
    assert_eq!(rt; shelf.faults(), 1);
    for (limit, want, front) in [
        (4, Ok(()), "1234"),
        (u64::MAX, Ok(()), "1234"),
        (3, Err(ShelfFault::TooLong), "1234"),
        (1, Err(ShelfFault::TooLong), "12"),
    ] {
        let (result, bytes) = read(rt.alloc(), &mut shelf, path, limit);
        assert_eq!(rt; result, want, "{limit}");
        assert_eq!(rt; bytes.as_slice(), front.as_bytes(), "{limit}");
    }
    fs::remove_file(&rt, path)?;
    // Nothing is there now, and a folder opens but gives no bytes.
    for (path, faults) in [(path, 2), ("/", 3)] {
        let (result, _) = read(rt.alloc(), &mut shelf, path, 4);
        assert_eq!(rt; result, Err(ShelfFault::Failed), "{path}");
        assert_eq!(rt; shelf.faults(), faults, "{path}");
    }
    Ok(())
}

/// A write that fails leaves a file only where it could not remove the one that it made, or where
/// the file is not its own.
#[test]
fn a_failed_write_leaves_no_part(rt: HostRuntime) -> Result<(), Fail> {
    let folder = temp_dir(&rt)?;
    let name = format!(in rt.alloc(); "pm_shelf_part_{}", id(rt.process()))?;
    let path = folder.as_path().join(rt.alloc(), name.as_str())?;
    let path = path.as_path().as_str();
    let beneath = format!(in rt.alloc(); "{path}/name")?;
    let mut shelf = FileShelf::new(&rt);
    // No file can be made in a folder that is not there.
    assert_eq!(rt;
        write(&mut shelf, beneath.as_str(), "1234"),
        Err(ShelfFault::Failed)
    );
    assert!(rt; fs::metadata(&rt, beneath.as_str()).is_err());

    for (removes, text, want, left) in [
        (true, "1234", Err(ShelfFault::Failed), None),
        (true, "12", Ok(()), Some("12")),
        // The file is another write's.
        (true, "3456", Err(ShelfFault::Failed), Some("12")),
        (false, "3456", Err(ShelfFault::Failed), Some("12")),
    ] {
        let mut full = FileShelf::new(FullDisk { rt: &rt, removes });
        assert_eq!(rt; write(&mut full, path, text), want, "{text}");
        let (result, bytes) = read(rt.alloc(), &mut shelf, path, 9);
        assert_eq!(rt; result.is_ok(), left.is_some(), "{text}");
        assert_eq!(rt; bytes.as_slice(), left.unwrap_or("").as_bytes(), "{text}");
    }
    fs::remove_file(&rt, path)?;

    let mut stuck = FileShelf::new(FullDisk {
        rt: &rt,
        removes: false,
    });
    assert_eq!(rt; write(&mut stuck, path, "1234"), Err(ShelfFault::Failed));
    assert_eq!(rt; stuck.faults(), 1);
    let (result, bytes) = read(rt.alloc(), &mut shelf, path, 9);
    assert_eq!(rt; result, Ok(()));
    assert_eq!(rt; bytes.as_slice(), b"12".as_slice());
    fs::remove_file(&rt, path)?;
    Ok(())
}

#[test]
fn the_output_takes_a_line(rt: HostRuntime) {
    let mut sink = OutputSink::new(&rt);
    assert_eq!(rt; put(&mut sink, "a line\n"), Ok(()));
    assert_eq!(rt; sink.faults(), 0);
    let mut closed = OutputSink::new(&ClosedOutput);
    assert_eq!(rt; put(&mut closed, "a line\n"), Err(SinkFault::Failed));
    assert_eq!(rt; closed.faults(), 1);
}

/// A lane whose lines are 1 to `lines`. At each line but the last it writes its number behind what
/// was written, as a decimal digit.
fn walk<G: Gate>(gate: &G, lane: u64, lines: u64, written: &AtomicU64) {
    for line in 1..lines {
        gate.pass(lane, line);
        let _ = written.fetch_update(Ordering::SeqCst, Ordering::SeqCst, |n| {
            Some(n.wrapping_mul(10).wrapping_add(lane))
        });
    }
    gate.pass(lane, lines);
}

/// What two lanes of three lines each write.
fn written_by_two<G: Gate + Sync, R: Threads + Sync>(rt: &R, gate: &G) -> u64 {
    let written = AtomicU64::new(0);
    let shared = &written;
    thread::join(
        rt,
        move || walk(gate, 1, 3, shared),
        move || walk(gate, 2, 3, shared),
    );
    written.load(Ordering::SeqCst)
}

const fn at(lane: u64, line: u64) -> Place {
    Place { lane, line }
}

/// Each lane is held until the other came, whichever comes first.
#[test]
fn two_lanes_meet_at_a_gate(rt: HostRuntime) {
    for (one, other, want) in [
        // The second lane runs once the first is at its end, and the other way.
        ((at(2, 1), at(1, 3)), (at(1, 1), at(2, 1)), 1122),
        ((at(1, 1), at(2, 3)), (at(2, 1), at(1, 1)), 2211),
        // The second runs between the two writes of the first.
        ((at(2, 1), at(1, 2)), (at(1, 2), at(2, 3)), 1221),
    ] {
        let gate = MeetingGate::new(one, other, MOST_TURNS);
        assert_eq!(rt; written_by_two(&rt, &gate), want);
        assert!(rt; !gate.ran_out());
    }
}

#[test]
fn a_gate_whose_turns_run_out_lets_go(rt: HostRuntime) {
    let never = (at(1, 2), at(2, 4));
    let gate = MeetingGate::new(never, never, 1000);
    gate.pass(1, 1);
    assert!(rt; !gate.ran_out());
    gate.pass(1, 2);
    assert!(rt; gate.ran_out());
}

#[test]
fn an_idle_gate_holds_nobody(rt: HostRuntime) {
    let written = written_by_two(&rt, &IdleGate);
    assert!(rt;
        [1122, 1212, 1221, 2112, 2121, 2211].contains(&written),
        "{written}"
    );
}
