use super::*;
use pm_layout::Shape;
use std::test::Fail;

/// The words of new pools that are not zero, but for the header page's, worked by hand from docs/FORMAT.md.
#[test]
fn pools_by_hand(rt: HostRuntime) -> Result<(), Fail> {
    let small = Shape::new(1, 1).ok().ok_or("a shape")?;
    let image = create(rt.alloc(), small, 7, "demo", 64)
        .ok()
        .ok_or("values in range")?;
    assert_eq!(rt; image.len(), 34_816);
    let table = [
        (0, 0x4c4f_4f50_424f_4d50),
        (2, 7),
        (5, 278_528),
        (64, 16_512),
        (258, 7),
        (512, 1),
        (513, 0),
        (1536, 513),
        (1537, 0),
        (2048, 1),
        (2056, 0),
        (2057, 64),
        (2064, 0),
    ];
    for (word, value) in table {
        assert!(rt; word < image.len());
        assert_eq!(rt; image.word(word), value, "word {word}");
    }
    Ok(())
}
