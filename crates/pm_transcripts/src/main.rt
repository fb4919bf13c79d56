//! The program `pm_transcripts`: what the commands answer, from a first pool to each refusal.
//!
//! It reads the text from its standard input and prints it with the answers that come;
//! docs/COMMANDS.md tells the commands.
#![tactic(auto)]

use pm_transcript::print_answers;
use std::io;

fn main(rt: HostRuntime) -> io::Result<()> {
    print_answers(&rt, rt.alloc(), rt.reader(), io::writer(&rt))
}
