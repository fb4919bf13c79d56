ghost use Rattle.std.specs.Prelude.{◌≡◌, ◌++◌, IfOk, codes, string_bytes};
ghost use Rattle.pm_image.specs.Texts.{fault_text};
ghost use Rattle.pm_layout.specs.Texts.{bad_shape_text};
ghost use Rattle.pm_pool.specs.Texts.{create_fault_text};
ghost use Rattle.pm_commands.specs.Lines.{bad_script_line, fault_line, failure_line, failure_status, fewer_lanes_line, other_layout_line, refused_line, usage_line};

use crate::status::Status;
use pm_image::{ImageFault, text_of_fault};
use pm_layout::BadShape;
use pm_objects::Sequence;
use pm_pool::CreateFault;
use pm_script::BadLine;
use std::alloc::{AllocError, Global};

/// Why a command ended with another status than 0.
#[derive(Drop)]
pub enum Failure<'a> {
    /// The words are faulty, and this text says more.
    Usage(String),
    /// Lanes or zones are not 1 to 32.
    BadShape,
    /// Another value of the new pool is refused.
    BadValue(CreateFault),
    /// The pool that a command needs has this fault.
    Faulty(ImageFault),
    /// The pool that was checked has this fault, and was not mended.
    Fault(ImageFault),
    /// Another layout name was asked for than the pool has, which is kept.
    OtherLayout { asked: &'a str, kept: Sequence<u8> },
    /// The script is of so many lanes, and the pool has fewer, as many as are kept.
    FewerLanes { asked: u64, kept: u64 },
    /// This name could not be read.
    NotRead(&'a str),
    /// This name has more bytes than what it is read for.
    TooLong(&'a str),
    /// This is the first bad line of the script, or the first that does not run.
    BadScript(BadLine),
    /// This name could not be written.
    NotWritten(&'a str),
    /// There was no memory.
    NoMemory,
}

/// The line that tells of the failure, with its line feed.
pub fn failure_line(alloc: Global, failure: &Failure<'_>) -> Result<Vec<u8>, AllocError>
    ensures { IfOk result (λ text. text.items ≡ failure_line failure.now) }
{
    match failure {
        Failure::Usage(more) => usage_lines(alloc, more),
        Failure::BadShape => bad_shape_line(alloc),
        Failure::BadValue(fault) => bad_value_line(alloc, *fault),
        Failure::Faulty(found) => faulty_line(alloc, *found),
        Failure::Fault(found) => fault_line(alloc, *found),
        Failure::OtherLayout { asked, kept } => other_layout_line(alloc, asked, kept.as_slice()),
        Failure::FewerLanes { asked, kept } => fewer_lanes_line(alloc, *asked, *kept),
        Failure::NotRead(name) => named_line(alloc, b"read fault ", name),
        Failure::TooLong(name) => named_line(alloc, b"too long ", name),
        Failure::BadScript(bad) => bad_script_line(alloc, *bad),
        Failure::NotWritten(name) => named_line(alloc, b"write fault ", name),
        Failure::NoMemory => Vec::from_slice(alloc, b"no memory\n"),
    }
}

/// The line of faulty words, and what more is said of them.
fn usage_lines(alloc: Global, more: &str) -> Result<Vec<u8>, AllocError>
    ensures { IfOk result (λ text. text.items ≡ usage_line ++ more.now) }
{
    let mut text = Vec::from_slice(alloc, b"usage\n")?;
    text.extend_from_slice(more.as_bytes())?;
    Ok(text)
}

/// The line of a shape that is refused.
fn bad_shape_line(alloc: Global) -> Result<Vec<u8>, AllocError>
    ensures { IfOk result (λ text. text.items ≡ refused_line bad_shape_text) }
{
    let text = format!(in alloc; "refused {}\n", BadShape)?;
    Ok(text.into_bytes())
}

/// The line of another value that is refused.
fn bad_value_line(alloc: Global, fault: CreateFault) -> Result<Vec<u8>, AllocError>
    ensures { IfOk result (λ text. text.items ≡ refused_line (create_fault_text fault)) }
{
    let text = format!(in alloc; "refused {fault}\n")?;
    Ok(text.into_bytes())
}

/// The line of a checked pool's fault.
fn fault_line(alloc: Global, found: ImageFault) -> Result<Vec<u8>, AllocError>
    ensures { IfOk result (λ text. text.items ≡ fault_line found) }
{
    let fault = text_of_fault(alloc, found)?;
    let text = format!(in alloc; "fault {fault}\n")?;
    Ok(text.into_bytes())
}

/// The line that tells of an image's fault.
fn faulty_line(alloc: Global, found: ImageFault) -> Result<Vec<u8>, AllocError>
    ensures { IfOk result (λ text. text.items ≡ refused_line (fault_text found)) }
{
    let fault = text_of_fault(alloc, found)?;
    let text = format!(in alloc; "refused {fault}\n")?;
    Ok(text.into_bytes())
}

/// The line of a pool that has another layout name than was asked for.
fn other_layout_line(alloc: Global, asked: &str, kept: &[u8]) -> Result<Vec<u8>, AllocError>
    ensures { IfOk result (λ text. text.items ≡ other_layout_line asked.now kept.now) }
{
    let mut text = Vec::from_slice(alloc, b"refused Layout asked ")?;
    text.extend_from_slice(asked.as_bytes())?;
    text.extend_from_slice(b" kept ")?;
    text.extend_from_slice(kept)?;
    text.push(b'\n')?;
    Ok(text)
}

/// The line of a script that is of more lanes than run.
fn fewer_lanes_line(alloc: Global, asked: u64, kept: u64) -> Result<Vec<u8>, AllocError>
    ensures { IfOk result (λ text. text.items ≡ fewer_lanes_line asked kept) }
{
    let text = format!(in alloc; "refused Lanes asked {asked} kept {kept}\n")?;
    Ok(text.into_bytes())
}

/// The line of a script's first bad line.
fn bad_script_line(alloc: Global, bad: BadLine) -> Result<Vec<u8>, AllocError>
    ensures { IfOk result (λ text. text.items ≡ bad_script_line bad) }
{
    let text = format!(in alloc; "{bad}\n")?;
    Ok(text.into_bytes())
}

/// What befell a name, with the name and a line feed.
fn named_line(alloc: Global, what: &[u8], name: &str) -> Result<Vec<u8>, AllocError>
    ensures { IfOk result (λ text. text.items ≡ what.now ++ name.now ++ codes "\n") }
{
    let mut text = Vec::from_slice(alloc, what)?;
    text.extend_from_slice(name.as_bytes())?;
    text.push(b'\n')?;
    Ok(text)
}

/// The status of a command that failed so.
pub fn failure_status(failure: &Failure<'_>) -> Status
    ensures { result ≡ failure_status failure.now }
{
    match failure {
        Failure::Usage(_) => Status::Usage,
        Failure::BadShape
        | Failure::BadValue(_)
        | Failure::Faulty(_)
        | Failure::Fault(_)
        | Failure::OtherLayout { .. }
        | Failure::FewerLanes { .. } => Status::Refused,
        Failure::NotRead(_) | Failure::TooLong(_) => Status::ReadFault,
        Failure::BadScript(_) => Status::BadScript,
        Failure::NotWritten(_) => Status::WriteFault,
        Failure::NoMemory => Status::NoMemory,
    }
}
