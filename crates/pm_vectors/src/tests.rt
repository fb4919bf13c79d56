use super::*;
use pm_check::{Verdict, check};
use pm_image::text_of_fault;
use pm_raw::RawImage;
use pm_words::words_of;
use std::alloc::Global;
use std::test::Fail;

/// What a check tells of these bytes; their number, where they are no words.
fn told(alloc: Global, bytes: &[u8]) -> Result<String, Fail> {
    if bytes.len() % 8 != 0 {
        return Ok(format!(in alloc; "Size {}", bytes.len())?);
    }
    let mut words = vec![in alloc; 0u64; bytes.len() / 8]?;
    words_of(bytes, &mut words);
    let mut image = RawImage::from_words(alloc, &words)?;
    match check(alloc, &mut image, false)? {
        Verdict::Fault(found) => Ok(text_of_fault(alloc, found)?),
        _ => Ok(String::from_str(alloc, "no fault")?),
    }
}

/// Each damage is told by its fault.
#[test]
fn faults(rt: HostRuntime) -> Result<(), Fail> {
    for damage in DAMAGES {
        let bytes = damaged_pool(rt.alloc(), &damage)?;
        let found = told(rt.alloc(), &bytes)?;
        assert!(rt; found.as_str() == damage.fault);
    }
    Ok(())
}
