use super::*;
use crate::spans::plan;
use pm_world::KeptRecord;
use std::test::Fail;

/// Five words that follow one another need two records: four in the first.
#[test]
fn records_of_a_range(rt: HostRuntime) -> Result<(), Fail> {
    let Some(spans) = plan(&[], 16, 40) else {
        return Ok(assert!(rt; false));
    };
    let expected = [Span { word: 2, count: 4 }, Span { word: 6, count: 1 }];
    assert_eq!(rt; spans.as_slice(), expected.as_slice());
    Ok(())
}

/// A word that has a record needs none, and parts those around it.
#[test]
fn recorded_words_are_left_out(rt: HostRuntime) -> Result<(), Fail> {
    let recorded = [KeptRecord {
        word: 3,
        count: 2,
        old: [7, 8, 0, 0],
    }];
    let Some(spans) = plan(&recorded, 16, 40) else {
        return Ok(assert!(rt; false));
    };
    let expected = [Span { word: 2, count: 1 }, Span { word: 5, count: 2 }];
    assert_eq!(rt; spans.as_slice(), expected.as_slice());
    assert!(rt; plan(&recorded, 24, 0).is_some());
    Ok(())
}

/// Sixty-four records are as many as there are slots.
#[test]
fn more_records_than_slots(rt: HostRuntime) -> Result<(), Fail> {
    assert!(rt; plan(&[], 0, 2048).is_some());
    assert!(rt; plan(&[], 0, 2049).is_none());
    Ok(())
}
