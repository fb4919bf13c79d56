use super::*;
use pm_layout::Shape;
use std::test::Fail;

/// A pool of one lane and one zone: a run of 31 blocks of two lines at chunk 0, whose first and last block are allocated, and a huge
/// block of three chunks at chunk 5.
#[test]
fn a_run_and_a_huge_block(rt: HostRuntime) -> Result<(), Fail> {
    let mut words = vec![in rt.alloc(); 0; 34_816]?;
    words[1536] = 513;
    words[2048] = 1_073_741_825;
    words[1541] = 770;
    let occupancy = occupancy_of(rt.alloc(), &words, Shape::new(1, 1)?)?;
    assert_eq!(rt; occupancy.runs.len(), 68);
    assert_eq!(rt; occupancy.zones.len(), 32);
    assert_eq!(rt; occupancy.runs.get(4).copied(), Some(0xFFFF_FFFF_C000_0001));
    for page in 5..68 {
        assert_eq!(rt;
            occupancy.runs.get(page).copied(),
            Some(0xFFFF_FFFF_FFFF_FFFF),
            "page {page}"
        );
    }
    assert_eq!(rt; occupancy.zones.first().copied(), Some(0xE1));
    Ok(())
}

/// Memory is ample for the largest pool, whose last chunk is a run of two blocks of 31 lines, the second of them allocated.
#[test]
fn the_largest_pool(rt: HostRuntime) -> Result<(), Fail> {
    let mut words = vec![in rt.alloc(); 0; 1_098_240]?;
    words[1_065_023] = 7937;
    words[1_097_728] = 2;
    let occupancy = occupancy_of(rt.alloc(), &words, Shape::new(32, 32)?)?;
    assert_eq!(rt; occupancy.runs.len(), 2145);
    assert_eq!(rt; occupancy.runs.last().copied(), Some(0xFFFF_FFFF_FFFF_FFFE));
    assert_eq!(rt;
        occupancy.zones.last().copied(),
        Some(0x8000_0000_0000_0000)
    );
    assert_eq!(rt; occupancy.zones.first().copied(), Some(0));
    Ok(())
}
