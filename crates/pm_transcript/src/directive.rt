//! The lines of a transcript that act on files, or on how the next command meets its shelf and
//! its sink.
use crate::fault::Fault;
use hex::FromHexError;
use std::alloc::Global;

/// A directive.
#[derive(Drop)]
pub enum Directive<'a> {
    /// `script NAME <<END`: the lines up to `END` become the file.
    Script(&'a str),
    /// `fill NAME HEX COUNT`: the file becomes so many bytes of this value.
    Fill {
        name: &'a str,
        byte: u8,
        count: usize,
    },
    /// `put NAME AT HEX`: the file's bytes from this place on become these.
    Put {
        name: &'a str,
        at: usize,
        bytes: Vec<u8>,
    },
    /// `sums NAME`: both pairs of the pool's header get their sums.
    Sums(&'a str),
    /// `cut NAME COUNT`: the file keeps its first bytes, so many.
    Cut {
        name: &'a str,
        count: usize,
    },
    /// `copy FROM TO`: the second file becomes as the first.
    Copy {
        from: &'a str,
        to: &'a str,
    },
    /// `remove NAME`: the file is there no longer.
    Remove(&'a str),
    /// `same A B`: answers whether two files are equal.
    Same {
        first: &'a str,
        second: &'a str,
    },
    /// `show NAME AT COUNT`: answers with bytes of the file.
    Show {
        name: &'a str,
        at: usize,
        count: usize,
    },
    /// `names`: answers with the names of all files, in rising order.
    Names,
    /// `shelf fails N`: in the next command a call of the shelf fails, after so many others as
    /// are told here: N - 1.
    ShelfFails(u64),
    /// `sink fails N`: in the next command a call of the sink fails, after so many others as are
    /// told here: N - 1.
    SinkFails(u64),
    /// `first N`: of what the next command prints only the first lines are answered, so many.
    First(usize),
}

/// Whether a line begins as a directive does.
pub fn is_directive(line: &str) -> bool {
    match line.split_once(' ') {
        Some((word, _)) => matches!(
            word,
            "script"
                | "fill"
                | "put"
                | "sums"
                | "cut"
                | "copy"
                | "remove"
                | "same"
                | "show"
                | "shelf"
                | "sink"
                | "first"
        ),
        None => line == "names",
    }
}

/// The directive that a line is.
pub fn directive_of(alloc: Global, line: &str) -> Result<Directive<'_>, Fault> {
    let words: Vec<&str> = line.split(' ').collect(alloc)?;
    match words.as_slice() {
        [word] if *word == "names" => Ok(Directive::Names),
        [word, operand] => about_one(word, operand),
        [word, first, second] => about_two(word, first, second),
        [word, name, first, second] => about_bytes(alloc, word, name, (first, second)),
        _ => Err(Fault::Form),
    }
}

/// A directive of one word more.
fn about_one<'a>(word: &str, operand: &'a str) -> Result<Directive<'a>, Fault> {
    match word {
        "sums" => Ok(Directive::Sums(operand)),
        "remove" => Ok(Directive::Remove(operand)),
        "first" => Ok(Directive::First(place(operand)?)),
        _ => Err(Fault::Form),
    }
}

/// A directive of two words more.
fn about_two<'a>(word: &str, first: &'a str, second: &'a str) -> Result<Directive<'a>, Fault> {
    match word {
        "script" if second == "<<END" => Ok(Directive::Script(first)),
        "cut" => Ok(Directive::Cut {
            name: first,
            count: place(second)?,
        }),
        "copy" => Ok(Directive::Copy {
            from: first,
            to: second,
        }),
        "same" => Ok(Directive::Same { first, second }),
        "shelf" if first == "fails" => Ok(Directive::ShelfFails(call(second)?)),
        "sink" if first == "fails" => Ok(Directive::SinkFails(call(second)?)),
        _ => Err(Fault::Form),
    }
}

/// A directive about bytes of a file.
fn about_bytes<'a>(
    alloc: Global,
    word: &str,
    name: &'a str,
    operands: (&str, &str),
) -> Result<Directive<'a>, Fault> {
    let (first, second) = operands;
    match word {
        "fill" => Ok(Directive::Fill {
            name,
            byte: byte(alloc, first)?,
            count: place(second)?,
        }),
        "put" => Ok(Directive::Put {
            name,
            at: place(first)?,
            bytes: bytes(alloc, second)?,
        }),
        "show" => Ok(Directive::Show {
            name,
            at: place(first)?,
            count: place(second)?,
        }),
        _ => Err(Fault::Form),
    }
}

/// A place in a file, a count of its bytes, or a count of lines.
fn place(word: &str) -> Result<usize, Fault> {
    word.parse::<usize>().map_err(|_| Fault::Number)
}

/// How many calls are before the one of this number, the first being 1.
fn call(word: &str) -> Result<u64, Fault> {
    match word.parse::<u64>() {
        Ok(number) if number > 0 => Ok(number - 1),
        _ => Err(Fault::Number),
    }
}

/// The bytes that the word writes in hexadecimal digits.
fn bytes(alloc: Global, word: &str) -> Result<Vec<u8>, Fault> {
    match hex::decode(alloc, word) {
        Ok(bytes) => Ok(bytes),
        Err(FromHexError::OutOfMemory) => Err(Fault::Memory),
        Err(_) => Err(Fault::Hex),
    }
}

/// The one byte that the word writes.
fn byte(alloc: Global, word: &str) -> Result<u8, Fault> {
    match bytes(alloc, word)?.as_slice() {
        [byte] => Ok(*byte),
        _ => Err(Fault::Hex),
    }
}
