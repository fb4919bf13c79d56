ghost use Rattle.std.specs.Prelude.{◌≡◌, ◌++◌, IfOk, OnOk};
ghost use Rattle.pm_text.specs.Dump.{root_line, dump_text};

use crate::digits::push_decimal;
use crate::object_text::push_object;
use pm_objects::PoolView;
use std::alloc::{AllocError, Global};

/// The text of the pool: a line for its root, and then for each object, in the order of the view, a line with its offset and
/// size in bytes, a line for each 16 of its bytes that aren't all 0, and a line with its members' offsets where it has any.
/// Each line ends in a line feed. All memory is taken here, and the only error is that it lacks.
pub fn dump_text(alloc: Global, pool: &PoolView) -> Result<Vec<u8>, AllocError>
    ensures { IfOk result (λ text. text.items ≡ dump_text pool.now) }
{
    let mut out = Vec::new(alloc);
    push_root_line(&mut out, pool.root)?;
    for (off, object) in pool.objects.as_slice() {
        push_object(&mut out, *off, object)?;
    }
    Ok(out)
}

/// Appends the line of the root's offset.
fn push_root_line(out: &mut Vec<u8>, root: Option<u64>) -> Result<(), AllocError>
    ensures { OnOk result (out.new.items ≡ out.old.items ++ root_line root) }
{
    match root {
        Some(off) => {
            out.extend_from_slice(b"root ")?;
            push_decimal(out, off)?;
            out.push(b'\n')?;
        }
        None => out.extend_from_slice(b"root none\n")?,
    }
    Ok(())
}
