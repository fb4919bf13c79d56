ghost use Rattle.std.specs.Prelude.{◌≡◌, ◌+◌, ◌*◌, ◌<◌, ◌≤◌, ◌++◌, drop, length, slice_set, take};
ghost use Rattle.pm_raw.specs.Line.{with_line};

use super::*;
use std::test::Fail;

/// Writes word `j` of line `i`.
#[tactic(auto, using(crate::proofs::LineWrites::with_line_set))]
fn put(image: &mut RawImage, i: u64, j: usize, value: u64)
    requires has_line { 8 * i + 8 ≤ length image.old }
    requires in_line { j < 8 }
    ensures { image.new ≡ slice_set image.old (8 * i + j) value }
{
    image.line_mut(i)[j] = value;
}

/// Writes the eight words of line `i`.
#[tactic(auto, using(crate::proofs::LineWrites::with_line_is))]
fn fill(image: &mut RawImage, i: u64, words: &[u64])
    requires has_line { 8 * i + 8 ≤ length image.old }
    requires is_line { length words.now ≡ 8 }
    ensures line { image.new ≡ with_line image.old i words.now }
    ensures parts { image.new ≡ take (8 * i) image.old ++ words.now ++ drop (8 * i + 8) image.old }
{
    image.line_mut(i).copy_from_slice(words);
}

#[test]
fn reads_and_writes_words_and_lines(rt: HostRuntime) -> Result<(), Fail> {
    let mut image = RawImage::new(rt.alloc(), 16)?;
    assert_eq!(rt; image.len(), 16);
    assert!(rt; !image.is_empty());
    image.set(3, 7);
    put(&mut image, 1, 2, 9);
    for (i, want) in [(0, 0), (3, 7), (4, 0), (9, 0), (10, 9), (15, 0)] {
        assert_eq!(rt; image.word(i), want, "at {i}");
    }
    assert_eq!(rt; image.line(1), [0, 0, 9, 0, 0, 0, 0, 0].as_slice());
    fill(&mut image, 1, &[1, 2, 3, 4, 5, 6, 7, 8]);
    assert_eq!(rt; image.line(0), [0, 0, 0, 7, 0, 0, 0, 0].as_slice());
    assert_eq!(rt; image.line(1), [1, 2, 3, 4, 5, 6, 7, 8].as_slice());
    Ok(())
}

#[test]
fn too_many_words_find_no_memory(rt: HostRuntime) {
    for words in [1 << 60, 1 << 61, u64::MAX] {
        assert!(rt; RawImage::new(rt.alloc(), words).is_err(), "at {words}");
    }
}
