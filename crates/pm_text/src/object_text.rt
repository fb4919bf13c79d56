//! The lines of one object, appended to a text.
ghost use Rattle.std.specs.Prelude.{◌≡◌, ◌==◌, ◌++◌, OnOk};
ghost use Rattle.std.specs.List.{list_all};
ghost use Rattle.pm_text.specs.Dump.{object_line, line_of_piece, data_lines, members_line, object_text};

use crate::digits::{push_decimal, push_hex};
use pm_objects::Object;
use std::alloc::AllocError;

/// Bytes of a line of data.
const PIECE_BYTES: usize = 16;

/// Appends all lines of an object: its own line, its bytes and its members.
pub(crate) fn push_object(out: &mut Vec<u8>, off: u64, object: &Object) -> Result<(), AllocError>
    ensures { OnOk result (out.new.items ≡ out.old.items ++ object_text (off, object.now)) }
{
    push_object_line(out, off, object)?;
    push_data_lines(out, object.bytes.as_slice())?;
    push_members_line(out, object.members.as_slice())?;
    Ok(())
}

/// Appends the line of the object's offset, type and size.
fn push_object_line(out: &mut Vec<u8>, off: u64, object: &Object) -> Result<(), AllocError>
    ensures { OnOk result (out.new.items ≡ out.old.items ++ object_line off object.now) }
{
    out.extend_from_slice(b"object ")?;
    push_decimal(out, off)?;
    out.extend_from_slice(b" type ")?;
    push_decimal(out, object.kind)?;
    out.extend_from_slice(b" size ")?;
    push_decimal(out, object.bytes.as_slice().len() as u64)?;
    out.push(b'\n')?;
    Ok(())
}

/// Appends a line for each 16 bytes, except where all of them are 0.
fn push_data_lines(out: &mut Vec<u8>, bytes: &[u8]) -> Result<(), AllocError>
    ensures { OnOk result (out.new.items ≡ out.old.items ++ data_lines bytes.now) }
{
    for (k, piece) in bytes.chunks(PIECE_BYTES).enumerate() {
        push_data_line(out, PIECE_BYTES * k, piece)?;
    }
    Ok(())
}

/// Appends the line of these bytes, unless all of them are 0.
fn push_data_line(out: &mut Vec<u8>, at: usize, piece: &[u8]) -> Result<(), AllocError>
    ensures { OnOk result (out.new.items ≡ out.old.items ++ line_of_piece at piece.now) }
{
    if is_zero(piece) {
        return Ok(());
    }
    out.extend_from_slice(b"data ")?;
    push_decimal(out, at as u64)?;
    out.push(b' ')?;
    push_hex(out, piece)?;
    out.push(b'\n')?;
    Ok(())
}

/// Whether each of these bytes is 0.
fn is_zero(bytes: &[u8]) -> bool
    ensures { result ≡ list_all (λ byte. byte == 0) bytes.now }
{
    bytes.iter().all(|byte| *byte == 0)
}

/// Appends the line of the members' offsets, where there are members.
fn push_members_line(out: &mut Vec<u8>, members: &[u64]) -> Result<(), AllocError>
    ensures { OnOk result (out.new.items ≡ out.old.items ++ members_line members.now) }
{
    if members.is_empty() {
        return Ok(());
    }
    out.extend_from_slice(b"members")?;
    for member in members {
        out.push(b' ')?;
        push_decimal(out, *member)?;
    }
    out.push(b'\n')?;
    Ok(())
}
