//! The way from a text that is read to the text that is printed.
use crate::session::Session;
use std::alloc::Global;
use std::io::{self, BufRead, BufReader, BufWriter, Read, Write};
use std::sync::Wait;
use std::thread::Threads;

/// Reads a transcript to its end, and prints it with the answers that came in place of those that
/// it has.
pub fn print_answers<T: Threads + Wait + Sync, R: Read + Drop, W: Write + Drop>(
    rt: &T,
    alloc: Global,
    input: R,
    output: W,
) -> io::Result<()> {
    let mut session = Session::new(alloc);
    let mut out = BufWriter::new(alloc, output)?;
    for line in BufReader::new(alloc, input)?.lines(alloc) {
        let text = session.take(rt, &line?)?;
        out.write_all(&text)?;
    }
    let rest = session.end()?;
    out.write_all(&rest)?;
    out.flush()
}
