//! The program `pm_stop_transcripts`: what runs leave that stop at each of their calls of the
//! memory.
//!
//! It reads the text from its standard input and prints it with the answers that come;
//! docs/COMMANDS.md tells the commands.
#![tactic(auto)]

use pm_transcript::print_answers;
use std::io;

fn main(rt: HostRuntime) -> io::Result<()> {
    print_answers(&rt, rt.alloc(), rt.reader(), io::writer(&rt))
}
