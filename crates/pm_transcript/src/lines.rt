//! Lines of a text: what is added to a script, and what is shown of an answer.
ghost use Rattle.std.specs.Prelude.{◌≡◌, ◌++◌, OnOk};
ghost use Rattle.pm_transcript.specs.Lines.{repeated, shown, with_feed};

use std::alloc::AllocError;

/// Appends a line with its line feed.
pub fn push_line(line: &str, text: &mut Vec<u8>) -> Result<(), AllocError>
    ensures { OnOk result (text.new.items ≡ text.old.items ++ with_feed line.now) }
{
    text.extend_from_slice(line.as_bytes())?;
    text.push(b'\n')?;
    Ok(())
}

/// Appends a line so many times.
pub fn push_repeated(count: u16, line: &str, text: &mut Vec<u8>) -> Result<(), AllocError>
    ensures { OnOk result (text.new.items ≡ text.old.items ++ repeated count (with_feed line.now)) }
{
    for _ in 0..count {
        push_line(line, text)?;
    }
    Ok(())
}

/// Appends the first lines of an answer, so many, and `..` where it has more.
pub fn push_first(answer: &[u8], count: usize, text: &mut Vec<u8>) -> Result<(), AllocError>
    ensures { OnOk result (text.new.items ≡ text.old.items ++ shown answer.now count) }
{
    let mut left = count;
    for byte in answer {
        if left == 0 {
            return text.extend_from_slice(b"..\n");
        }
        text.push(*byte)?;
        if *byte == b'\n' {
            left -= 1;
        }
    }
    Ok(())
}
