//! The lines of an image's facts, appended to a text.

ghost use Rattle.std.specs.Prelude.{◌≡◌, ◌≤◌, ◌++◌, All, OnOk, length};
ghost use Rattle.pm_image.specs.Means.{IsMeaning};
ghost use Rattle.pm_image.specs.Steps.{HasLanes};
ghost use Rattle.pm_info.specs.Facts.{count_lines, name_line, number_line, object_lines, pool_lines, root_line, HasFewBytes};

use crate::counts::{data_bytes, record_count, run_count, sealed_count};
use pm_layout::WORD_BYTES;
use pm_objects::PoolView;
use pm_raw::RawImage;
use std::alloc::{AllocError, Global};

/// The word of the header that has the version.
const VERSION_AT: u64 = 1;

/// Appends the lines of who the pool is, what shape it has, and where its root is.
#[tactic(auto, unfolding(crate::specs::Facts::pool_lines))]
pub fn push_pool_lines(
    alloc: Global,
    out: &mut Vec<u8>,
    image: &RawImage,
    pool: &PoolView,
) -> Result<(), AllocError>
    requires lanes { HasLanes image.now pool.now.lanes }
    ensures { OnOk result (out.new.items ≡ out.old.items ++ pool_lines image.now pool.now) }
{
    push_number(alloc, out, "version", image.word(VERSION_AT))?;
    push_number(alloc, out, "pool", pool.id)?;
    push_name(out, pool.name.as_slice())?;
    push_number(alloc, out, "lanes", pool.lanes)?;
    push_number(alloc, out, "zones", pool.zones)?;
    push_number(alloc, out, "bytes", WORD_BYTES * image.len())?;
    push_root(alloc, out, pool.root)
}

/// Appends the lines of the objects and of their bytes.
#[tactic(auto, unfolding(crate::specs::Facts::object_lines))]
pub fn push_object_lines(
    alloc: Global,
    out: &mut Vec<u8>,
    pool: &PoolView,
) -> Result<(), AllocError>
    requires sizes { All HasFewBytes pool.now.objects }
    requires few { length pool.now.objects ≤ 131072 }
    ensures { OnOk result (out.new.items ≡ out.old.items ++ object_lines pool.now) }
{
    let objects = pool.objects.as_slice();
    push_number(alloc, out, "objects", objects.len() as u64)?;
    push_number(alloc, out, "data", data_bytes(objects))
}

/// Appends the lines of the runs, the sealed lanes and the valid undo records.
#[tactic(auto, unfolding(crate::specs::Facts::count_lines))]
pub fn push_count_lines(
    alloc: Global,
    out: &mut Vec<u8>,
    image: &RawImage,
    pool: &PoolView,
) -> Result<(), AllocError>
    requires meaning { IsMeaning image.now pool.now }
    requires lanes { HasLanes image.now pool.now.lanes }
    ensures { OnOk result (out.new.items ≡ out.old.items ++ count_lines image.now pool.now) }
{
    push_number(alloc, out, "runs", run_count(alloc, image, pool)?)?;
    push_number(alloc, out, "sealed", sealed_count(image, pool.lanes))?;
    push_number(alloc, out, "records", record_count(image, pool.lanes))
}

/// Appends a line with a number.
fn push_number(alloc: Global, out: &mut Vec<u8>, what: &str, number: u64) -> Result<(), AllocError>
    ensures { OnOk result (out.new.items ≡ out.old.items ++ number_line what.now number) }
{
    let line = format!(in alloc; "{what} {number}\n")?;
    out.extend_from_slice(line.as_bytes())?;
    Ok(())
}

/// Appends the line of the layout name.
fn push_name(out: &mut Vec<u8>, name: &[u8]) -> Result<(), AllocError>
    ensures { OnOk result (out.new.items ≡ out.old.items ++ name_line name.now) }
{
    out.extend_from_slice(b"layout ")?;
    out.extend_from_slice(name)?;
    out.push(b'\n')?;
    Ok(())
}

/// Appends the line of the root's offset.
fn push_root(alloc: Global, out: &mut Vec<u8>, root: Option<u64>) -> Result<(), AllocError>
    ensures { OnOk result (out.new.items ≡ out.old.items ++ root_line root) }
{
    match root {
        Some(off) => push_number(alloc, out, "root", off),
        None => {
            out.extend_from_slice(b"root none\n")?;
            Ok(())
        }
    }
}
