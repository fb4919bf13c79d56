use super::*;

/// A class, the least and the greatest size that takes it, and the bytes that fit.
const CLASSES: [(Class, u64, u64, u64); 12] = [
    (Class::Lines(2), 0, 64, 64),
    (Class::Lines(3), 65, 128, 128),
    (Class::Lines(4), 129, 192, 192),
    (Class::Lines(5), 193, 256, 256),
    (Class::Lines(7), 257, 384, 384),
    (Class::Lines(9), 385, 512, 512),
    (Class::Lines(15), 513, 896, 896),
    (Class::Lines(31), 897, 1920, 1920),
    (Class::Chunks(1), 1921, 4032, 4032),
    (Class::Chunks(18), 69_569, 73_664, 73_664),
    (Class::Chunks(49), 196_545, 200_640, 200_640),
    (Class::Chunks(64), 257_985, 262_080, 262_080),
];

#[test]
fn classes(rt: HostRuntime) {
    for (class, least, greatest, room) in CLASSES {
        assert!(rt; least <= MAX_SIZE && greatest <= MAX_SIZE);
        assert_eq!(rt; class_of(least), class, "at {least}");
        assert_eq!(rt; class_of(greatest), class, "at {greatest}");
        assert_eq!(rt; usable(least), room, "at {least}");
        assert_eq!(rt; usable(greatest), room, "at {greatest}");
    }
    assert_eq!(rt; class_of(70_000), Class::Chunks(18));
    assert_eq!(rt; class_of(200_000), Class::Chunks(49));
}

#[test]
fn runs(rt: HostRuntime) {
    for (lines, blocks) in [
        (2, 31),
        (3, 21),
        (4, 15),
        (5, 12),
        (7, 9),
        (9, 7),
        (15, 4),
        (31, 2),
        (0, 0),
        (1, 0),
        (6, 0),
        (32, 0),
        (u64::MAX, 0),
    ] {
        assert_eq!(rt; blocks_of(lines), blocks, "at {lines}");
    }
}

#[test]
fn lengths(rt: HostRuntime) {
    for (lanes, zones, bytes) in [(1, 1, 278_528), (32, 32, 8_785_920), (1, 2, 544_768)] {
        let made = Shape::new(lanes, zones).ok();
        assert_eq!(rt;
            made.map(|shape| shape.size()),
            Some(bytes),
            "at {lanes} and {zones}"
        );
        assert_eq!(rt; Shape::of_bytes(bytes), made, "at {bytes}");
        assert_eq!(rt; Shape::of_bytes(bytes - 1), None, "below {bytes}");
        assert_eq!(rt; Shape::of_bytes(bytes + 1), None, "above {bytes}");
    }
    for bytes in [0, 4096, u64::MAX] {
        assert_eq!(rt; Shape::of_bytes(bytes), None, "at {bytes}");
    }
    for (lanes, zones) in [(0, 1), (1, 0), (33, 1), (1, 33)] {
        assert_eq!(rt;
            Shape::new(lanes, zones),
            Err(BadShape),
            "at {lanes} and {zones}"
        );
    }
    assert_eq!(rt;
        format!(in rt.alloc(); "{BadShape}").ok().as_deref(),
        Some("BadShape")
    );
}

#[test]
fn places(rt: HostRuntime) -> Result<(), BadShape> {
    for (lanes, zones, first_chunk) in [(1, 1, 16_384), (2, 1, 24_576), (32, 32, 270_336)] {
        let shape = Shape::new(lanes, zones)?;
        let chunk = shape.chunk_at(0, 0);
        assert_eq!(rt; chunk, first_chunk, "with {lanes} lanes");
        assert_eq!(rt;
            block_at(chunk, 2, 0),
            first_chunk + 64,
            "with {lanes} lanes"
        );
        assert_eq!(rt; shape.lane_at(0), 4096);
        assert_eq!(rt; shape.zone_at(0), first_chunk - 4096);
    }
    one_shape_per_length();
    Ok(())
}

#[test]
fn kinds(rt: HostRuntime) -> Result<(), BadShape> {
    let shape = Shape::new(1, 1)?;
    for (word, kind) in [
        (64, PlaceKind::Root),
        (63, PlaceKind::Other),
        (512, PlaceKind::Lane(0)),
        (1535, PlaceKind::Lane(0)),
        (1536, PlaceKind::Descriptor(0, 0)),
        (1599, PlaceKind::Descriptor(0, 63)),
        (1600, PlaceKind::Other),
        (2047, PlaceKind::Other),
        (2048, PlaceKind::Chunk(0, 0)),
        (2559, PlaceKind::Chunk(0, 0)),
        (2560, PlaceKind::Chunk(0, 1)),
        (34_815, PlaceKind::Chunk(0, 63)),
        (34_816, PlaceKind::Other),
        (u64::MAX, PlaceKind::Other),
    ] {
        assert_eq!(rt; shape.place_kind(word), kind, "at {word}");
    }
    one_kind_per_word();
    Ok(())
}
