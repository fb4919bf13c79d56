//! A transcript line by line: what each line does, and what is printed of it.
ghost use Rattle.std.specs.Prelude.{◌≡◌, IfOk};
ghost use Rattle.pm_transcript.specs.Lines.{with_feed};

use crate::directive::{Directive, directive_of, is_directive};
use crate::fault::Fault;
use crate::files::Files;
use crate::lines::{push_first, push_line, push_repeated};
use pm_commands::top;
use pm_shelf::{FailingSink, IdleGate};
use std::alloc::{AllocError, Global};
use std::sync::Wait;
use std::thread::Threads;

/// The name of the program, which a command's line leaves out.
const PROGRAM: &str = "pmempool";

/// A script whose lines are read.
#[derive(Drop)]
struct Script {
    name: String,
    text: Vec<u8>,
}

/// The files, and how the next line is read.
#[derive(Drop)]
pub struct Session {
    alloc: Global,
    files: Files,
    /// The script that the lines are of, up to `END`.
    script: Option<Script>,
    /// Whether an answer came, and lines that are none of another kind are what was expected of
    /// it.
    is_answered: bool,
    /// After how many calls of the shelf, and of the sink, one fails in the next command.
    shelf_fails: Option<u64>,
    sink_fails: Option<u64>,
    /// How many lines are answered of what the next command prints; all where there is no number.
    first: Option<usize>,
}

impl Session {
    /// No file is there, and no line was read.
    pub fn new(alloc: Global) -> Self {
        Session {
            alloc,
            files: Files::new(alloc),
            script: None,
            is_answered: false,
            shelf_fails: None,
            sink_fails: None,
            first: None,
        }
    }

    /// Does what the line says. The text has the line and the answer that came, or nothing where
    /// the line was an expected answer.
    pub fn take<T: Threads + Wait + Sync>(
        &mut self,
        rt: &T,
        line: &str,
    ) -> Result<Vec<u8>, AllocError> {
        if self.script.is_some() {
            return self.take_script_line(line);
        }
        if line.is_empty() || line.starts_with('#') {
            self.is_answered = false;
            return self.copied(line);
        }
        if self.is_answered && !line.starts_with("$ ") && !is_directive(line) {
            return Ok(Vec::new(self.alloc));
        }
        let mut text = self.copied(line)?;
        match self.answer(rt, line, &mut text) {
            Ok(is_answered) => self.is_answered = is_answered,
            Err(fault) => {
                self.is_answered = true;
                self.say_fault(fault, &mut text)?;
            }
        }
        Ok(text)
    }

    /// Ends the transcript. The text is what there is to be said: a script that is open has no
    /// end.
    pub fn end(self) -> Result<Vec<u8>, AllocError> {
        let mut text = Vec::new(self.alloc);
        if self.script.is_some() {
            self.say_fault(Fault::Open, &mut text)?;
        }
        Ok(text)
    }

    /// The line with its line feed.
    fn copied(&self, line: &str) -> Result<Vec<u8>, AllocError>
        ensures { IfOk result (λ text. text.items ≡ with_feed line.now) }
    {
        let mut text = Vec::new(self.alloc);
        push_line(line, &mut text)?;
        Ok(text)
    }

    /// Appends what is wrong with a line.
    fn say_fault(&self, fault: Fault, text: &mut Vec<u8>) -> Result<(), AllocError> {
        let told = format!(in self.alloc; "error: {fault}\n")?;
        text.extend_from_slice(told.as_bytes())
    }

    /// Takes a line of a script, which ends with `END`.
    fn take_script_line(&mut self, line: &str) -> Result<Vec<u8>, AllocError> {
        let mut text = self.copied(line)?;
        let Some(mut script) = self.script.take() else {
            return Ok(text);
        };
        let taken = if line == "END" {
            let Script { name, text: bytes } = script;
            self.files.set(name.as_str(), bytes)
        } else {
            let added = add_lines(line, &mut script.text);
            self.script = Some(script);
            added
        };
        if let Err(fault) = taken {
            self.say_fault(fault, &mut text)?;
        }
        Ok(text)
    }

    /// Runs the command or the directive of the line, and appends its answer. Whether there is an
    /// answer is told.
    fn answer<T: Threads + Wait + Sync>(
        &mut self,
        rt: &T,
        line: &str,
        text: &mut Vec<u8>,
    ) -> Result<bool, Fault> {
        match line.strip_prefix("$ ") {
            Some(command) => self.run(rt, command, text),
            None if is_directive(line) => {
                let directive = directive_of(self.alloc, line)?;
                self.direct(directive, text)
            }
            None => Err(Fault::Form),
        }
    }

    /// Runs a command, and appends what it prints, or the first lines of it, and its status, which
    /// is left out where it is 0.
    fn run<T: Threads + Wait + Sync>(
        &mut self,
        rt: &T,
        command: &str,
        text: &mut Vec<u8>,
    ) -> Result<bool, Fault> {
        let words = self.words_of(command)?;
        let names = self.names_in(&words)?;
        let mut shelf = self.files.shelf(&names, self.shelf_fails.take())?;
        let mut plan = Vec::new(self.alloc);
        if let Some(call) = self.sink_fails.take() {
            plan.push(call).map_err(|_| Fault::Memory)?;
        }
        let mut out = FailingSink::new(self.alloc, plan);
        let status = top(rt, self.alloc, &words, &mut shelf, &mut out, &IdleGate);
        self.files.take_new(&names, &shelf)?;
        match self.first.take() {
            Some(count) => push_first(out.bytes(), count, text)?,
            None => text.extend_from_slice(out.bytes())?,
        }
        let code = status.code();
        if code != 0 {
            let line = format!(in self.alloc; "status {code}\n")?;
            text.extend_from_slice(line.as_bytes())?;
        }
        Ok(true)
    }

    /// The words of a command's line, behind the program's name.
    fn words_of(&self, command: &str) -> Result<Vec<String>, Fault> {
        let mut words = Vec::new(self.alloc);
        let program = String::from_str(self.alloc, PROGRAM)?;
        words.push(program).map_err(|_| Fault::Memory)?;
        for word in command.split(' ') {
            let word = String::from_str(self.alloc, word)?;
            words.push(word).map_err(|_| Fault::Memory)?;
        }
        Ok(words)
    }

    /// What may name a file in a command: each word, and the value of an option with `=`.
    fn names_in(&self, words: &[String]) -> Result<Vec<String>, Fault> {
        let mut names = Vec::new(self.alloc);
        for word in words {
            let word = word.as_str();
            if let Some((_, value)) = word.split_once('=') {
                let value = String::from_str(self.alloc, value)?;
                names.push(value).map_err(|_| Fault::Memory)?;
            }
            let name = String::from_str(self.alloc, word)?;
            names.push(name).map_err(|_| Fault::Memory)?;
        }
        Ok(names)
    }

    /// Does what a directive says, and appends its answer, if it has one.
    fn direct(&mut self, directive: Directive<'_>, text: &mut Vec<u8>) -> Result<bool, Fault> {
        match directive {
            Directive::Script(name) => self.open_script(name)?,
            Directive::Fill { name, byte, count } => {
                let bytes = vec![in self.alloc; byte; count]?;
                self.files.set(name, bytes)?;
            }
            Directive::Put { name, at, bytes } => self.files.put(name, at, &bytes)?,
            Directive::Sums(name) => self.files.make_sums(name)?,
            Directive::Cut { name, count } => self.files.cut(name, count)?,
            Directive::Copy { from, to } => self.files.copy(from, to)?,
            Directive::Remove(name) => self.files.remove(name)?,
            Directive::ShelfFails(call) => self.shelf_fails = Some(call),
            Directive::SinkFails(call) => self.sink_fails = Some(call),
            Directive::First(count) => self.first = Some(count),
            asking => {
                self.tell(&asking, text)?;
                return Ok(true);
            }
        }
        Ok(false)
    }

    /// The lines that follow are of the script with this name.
    fn open_script(&mut self, name: &str) -> Result<(), Fault> {
        self.script = Some(Script {
            name: String::from_str(self.alloc, name)?,
            text: Vec::new(self.alloc),
        });
        Ok(())
    }

    /// Appends the answer of a directive that asks.
    fn tell(&self, directive: &Directive<'_>, text: &mut Vec<u8>) -> Result<(), Fault> {
        match directive {
            Directive::Same { first, second } => {
                let is_same = self.files.get(first)? == self.files.get(second)?;
                let told = if is_same { "same" } else { "differ" };
                text.extend_from_slice(told.as_bytes())?;
            }
            Directive::Show { name, at, count } => {
                let bytes = self.files.part(name, *at, *count)?;
                let digits = hex::encode(self.alloc, bytes)?;
                text.extend_from_slice(digits.as_bytes())?;
            }
            Directive::Names => text.extend_from_slice(&self.files.names()?)?,
            _ => return Err(Fault::Form),
        }
        text.push(b'\n').map_err(|_| Fault::Memory)
    }
}

/// Appends the lines that a line of a script stands for: `repeat N LINE` is N lines.
fn add_lines(line: &str, script: &mut Vec<u8>) -> Result<(), Fault> {
    let Some(repeated) = line.strip_prefix("repeat ") else {
        push_line(line, script)?;
        return Ok(());
    };
    let (count, line) = repeated.split_once(' ').ok_or(Fault::Form)?;
    let count = count.parse::<u16>().map_err(|_| Fault::Number)?;
    push_repeated(count, line, script)?;
    Ok(())
}
