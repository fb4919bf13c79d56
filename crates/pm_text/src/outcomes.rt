//! What a call came to, appended to a text: its fate, its values, and why it was refused.
ghost use Rattle.std.specs.Prelude.{◌≡◌, ◌++◌, OnOk};
ghost use Rattle.pm_objects.specs.Texts.{error_text, refusal_text};
ghost use Rattle.pm_text.specs.Report.{fate_text, members_text, value_text};

use crate::digits::{push_decimal, push_hex};
use pm_objects::{Fate, Refusal, TxErr, Value};
use std::alloc::AllocError;

/// Appends a call's fate; `at` is the line that aborted it.
pub(crate) fn push_fate(out: &mut Vec<u8>, fate: Fate, at: u64) -> Result<(), AllocError>
    ensures { OnOk result (out.new.items ≡ out.old.items ++ fate_text fate at) }
{
    match fate {
        Fate::Done => out.extend_from_slice(b"done")?,
        Fate::Kept => out.extend_from_slice(b"kept")?,
        Fate::Lost => out.extend_from_slice(b"lost")?,
        Fate::Aborted(why) => {
            out.extend_from_slice(b"aborted ")?;
            push_error(out, why)?;
            out.extend_from_slice(b" at ")?;
            push_decimal(out, at)?;
        }
        Fate::Refused(refusal) => {
            out.extend_from_slice(b"refused ")?;
            push_refusal(out, refusal)?;
        }
    }
    Ok(())
}

/// Appends why a transaction was aborted.
fn push_error(out: &mut Vec<u8>, error: TxErr) -> Result<(), AllocError>
    ensures { OnOk result (out.new.items ≡ out.old.items ++ error_text error) }
{
    let text = error.to_string(*out.allocator())?;
    out.extend_from_slice(text.as_bytes())
}

/// Appends a value.
pub(crate) fn push_value(out: &mut Vec<u8>, value: &Value) -> Result<(), AllocError>
    ensures { OnOk result (out.new.items ≡ out.old.items ++ value_text value.now) }
{
    match value {
        Value::Offset(off) => push_decimal(out, *off)?,
        Value::Number(number) => push_decimal(out, *number)?,
        Value::Bytes(bytes) => push_hex(out, bytes.as_slice())?,
        Value::Members(offs) => push_members(out, offs.as_slice())?,
        Value::Refused(refusal) => push_refusal(out, *refusal)?,
    }
    Ok(())
}

/// Appends members' offsets with commas between them, or `none`.
fn push_members(out: &mut Vec<u8>, offs: &[u64]) -> Result<(), AllocError>
    ensures { OnOk result (out.new.items ≡ out.old.items ++ members_text offs.now) }
{
    let Some((first, others)) = offs.split_first() else {
        return out.extend_from_slice(b"none");
    };
    push_decimal(out, *first)?;
    for off in others {
        out.push(b',')?;
        push_decimal(out, *off)?;
    }
    Ok(())
}

/// Appends a refusal's text.
fn push_refusal(out: &mut Vec<u8>, refusal: Refusal) -> Result<(), AllocError>
    ensures { OnOk result (out.new.items ≡ out.old.items ++ refusal_text refusal) }
{
    let text = refusal.to_string(*out.allocator())?;
    out.extend_from_slice(text.as_bytes())
}
