use super::*;
use pm_header::HeaderFault;
use pm_image::ImageFault;
use pm_layout::Shape;
use pm_pool::create;
use pm_raw::RawImage;
use std::alloc::Global;
use std::test::Fail;

/// A pool with one lane, one zone, id 7 and layout demo.
fn pool(alloc: Global) -> Result<RawImage, Fail> {
    let shape = Shape::new(1, 1).ok().ok_or("a shape")?;
    let image = create(alloc, shape, 7, "demo", 64)
        .ok()
        .ok_or("values in range")?;
    Ok(image)
}

/// A damaged main pair and a damaged copy are mended, where that is asked for, to the pool as it was.
#[test]
fn headers_are_mended(rt: HostRuntime) -> Result<(), Fail> {
    for (word, fault) in [(2, HeaderFault::HeaderMain), (258, HeaderFault::HeaderCopy)] {
        let mut image = pool(rt.alloc())?;
        assert!(rt; word < image.len());
        let kept = image.word(word);
        image.set(word, 8);
        let found = ImageFault::Header(fault);
        let told = check(rt.alloc(), &mut image, false)?;
        assert_eq!(rt; told, Verdict::Fault(found));
        assert!(rt; word < image.len());
        assert_eq!(rt; image.word(word), 8);
        let told = check(rt.alloc(), &mut image, true)?;
        assert_eq!(rt; told, Verdict::Mended(found));
        let told = check(rt.alloc(), &mut image, false)?;
        assert_eq!(rt; told, Verdict::Consistent);
        assert!(rt; word < image.len());
        assert_eq!(rt; image.word(word), kept);
    }
    Ok(())
}

/// A pool whose header can be mended, and that has another fault too, stays as it is.
#[test]
fn another_fault_is_not_mended(rt: HostRuntime) -> Result<(), Fail> {
    let mut image = pool(rt.alloc())?;
    assert!(rt; image.len() > 512);
    image.set(2, 8);
    image.set(512, 0);
    let told = check(rt.alloc(), &mut image, true)?;
    assert_eq!(rt;
        told,
        Verdict::Fault(ImageFault::Header(HeaderFault::HeaderMain))
    );
    assert!(rt; image.len() > 512);
    assert_eq!(rt; image.word(2), 8);
    Ok(())
}
