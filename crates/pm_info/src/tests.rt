use super::*;
use pm_image::ImageFault;
use pm_layout::Shape;
use pm_pool::create;
use pm_shelf::{FailingSink, ListSink};
use std::test::Fail;

/// The text of a new pool.
#[test]
fn new_pool(rt: HostRuntime) -> Result<(), Fail> {
    let shape = Shape::new(1, 1).ok().ok_or("a shape")?;
    let image = create(rt.alloc(), shape, 7, "demo", 64)
        .ok()
        .ok_or("values in range")?;
    let text = info_text(rt.alloc(), &image).ok().ok_or("a pool")?;
    let want =
        b"version 1\npool 7\nlayout demo\nlanes 1\nzones 1\nbytes 278528\nroot 16512\nobjects 1\ndata 64\nruns 1\nsealed 0\nrecords 0\n";
    assert_eq!(rt; text.as_slice(), want.as_slice());
    Ok(())
}
