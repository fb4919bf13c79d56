ghost use Rattle.std.specs.Prelude.{◌≡◌};
ghost use Rattle.pm_vectors.specs.Damages.{lane_count};

/// How many lanes a pool has.
#[derive(Clone, Copy, Debug, PartialEq, Eq)]
pub enum Lanes {
    One,
    Two,
}

impl Lanes {
    /// Their number.
    pub fn count(self) -> u64
        ensures { result ≡ lane_count self }
    {
        match self {
            Lanes::One => 1,
            Lanes::Two => 2,
        }
    }
}

/// A damage of a pool.
#[derive(Clone, Copy, Debug)]
pub struct Damage {
    /// What it is, in a word or two.
    pub name: &'static str,
    /// The lanes of the pool that is damaged, which has one zone, id 7, layout name `demo` and a root of 64 bytes.
    pub lanes: Lanes,
    /// The words that are written over the pool's, one after the other: a word's number, and what it becomes.
    pub edits: &'static [(u64, u64)],
    /// The bytes that are left, from the first on.
    pub bytes: usize,
    /// The first fault of what is left, as it is printed.
    pub fault: &'static str,
}

/// Bytes of the pool with one lane, and of that with two.
const SMALL: usize = 278_528;

const WIDE: usize = 286_720;

/// Damages of each kind, in the order in which faults are looked for.
pub const DAMAGES: [Damage; 32] = [
    Damage {
        name: "nothing is left",
        lanes: Lanes::One,
        edits: &[],
        bytes: 0,
        fault: "Size 0",
    },
    Damage {
        name: "the last byte is cut off",
        lanes: Lanes::One,
        edits: &[],
        bytes: SMALL - 1,
        fault: "Size 278527",
    },
    Damage {
        name: "the last word is cut off",
        lanes: Lanes::One,
        edits: &[],
        bytes: SMALL - 8,
        fault: "Size 278520",
    },
    Damage {
        name: "every byte is zero",
        lanes: Lanes::One,
        edits: &[
            (0, 0),
            (1, 0),
            (2, 0),
            (3, 0),
            (4, 0),
            (5, 0),
            (6, 0),
            (7, 0),
            (8, 0),
            (64, 0),
            (256, 0),
            (257, 0),
            (258, 0),
            (259, 0),
            (260, 0),
            (261, 0),
            (262, 0),
            (263, 0),
            (264, 0),
            (512, 0),
            (1536, 0),
            (2048, 0),
            (2057, 0),
        ],
        bytes: SMALL,
        fault: "NotPool",
    },
    Damage {
        name: "the id of the main pair",
        lanes: Lanes::One,
        edits: &[(2, 8)],
        bytes: SMALL,
        fault: "HeaderMain",
    },
    Damage {
        name: "the id of the copy",
        lanes: Lanes::One,
        edits: &[(258, 8)],
        bytes: SMALL,
        fault: "HeaderCopy",
    },
    Damage {
        name: "the id of both pairs",
        lanes: Lanes::One,
        edits: &[(2, 8), (258, 8)],
        bytes: SMALL,
        fault: "HeaderBoth",
    },
    Damage {
        name: "the copy of another pool's header",
        lanes: Lanes::One,
        edits: &[(258, 8), (263, 0x561f62e2f4e6984f)],
        bytes: SMALL,
        fault: "HeaderDiffer",
    },
    Damage {
        name: "version 3",
        lanes: Lanes::One,
        edits: &[
            (1, 3),
            (7, 0x561f62f0f4e69850),
            (257, 3),
            (263, 0x561f62f0f4e69850),
        ],
        bytes: SMALL,
        fault: "Version 3",
    },
    Damage {
        name: "the header of a pool with two lanes",
        lanes: Lanes::One,
        edits: &[
            (3, 2),
            (5, 286720),
            (7, 0x561fe2e0f4e6b84f),
            (259, 2),
            (261, 286720),
            (263, 0x561fe2e0f4e6b84f),
        ],
        bytes: SMALL,
        fault: "Shape",
    },
    Damage {
        name: "id 0",
        lanes: Lanes::One,
        edits: &[
            (2, 0),
            (7, 0x561f6292f4e69847),
            (258, 0),
            (263, 0x561f6292f4e69847),
        ],
        bytes: SMALL,
        fault: "Shape",
    },
    Damage {
        name: "generation 0",
        lanes: Lanes::One,
        edits: &[(512, 0)],
        bytes: SMALL,
        fault: "Lane 0",
    },
    Damage {
        name: "generation past the last",
        lanes: Lanes::One,
        edits: &[(512, 0x4000000000000001)],
        bytes: SMALL,
        fault: "Lane 0",
    },
    Damage {
        name: "seal 65",
        lanes: Lanes::One,
        edits: &[(513, 65)],
        bytes: SMALL,
        fault: "Lane 0",
    },
    Damage {
        name: "a sealed entry behind the pool",
        lanes: Lanes::One,
        edits: &[(513, 2), (520, 278528), (521, 1), (522, 4096), (523, 2)],
        bytes: SMALL,
        fault: "Redo lane 0 entry 0",
    },
    Damage {
        name: "a sealed entry of no operation",
        lanes: Lanes::One,
        edits: &[(513, 2), (520, 16515), (521, 1), (522, 4096), (523, 2)],
        bytes: SMALL,
        fault: "Redo lane 0 entry 0",
    },
    Damage {
        name: "a last entry that sets no generation",
        lanes: Lanes::One,
        edits: &[(513, 1), (520, 16512), (521, 2)],
        bytes: SMALL,
        fault: "Redo lane 0 entry 0",
    },
    Damage {
        name: "a record of an unaligned place",
        lanes: Lanes::One,
        edits: &[
            (648, 1),
            (649, 16513),
            (650, 1),
            (651, 0),
            (652, 0),
            (653, 0),
            (654, 0),
            (655, 0x3062400004083),
        ],
        bytes: SMALL,
        fault: "Undo lane 0 slot 0",
    },
    Damage {
        name: "a record of five words",
        lanes: Lanes::One,
        edits: &[
            (648, 1),
            (649, 16512),
            (650, 5),
            (651, 0),
            (652, 0),
            (653, 0),
            (654, 0),
            (655, 0x3064000004086),
        ],
        bytes: SMALL,
        fault: "Undo lane 0 slot 0",
    },
    Damage {
        name: "two records of one word",
        lanes: Lanes::One,
        edits: &[
            (648, 1),
            (649, 16512),
            (650, 1),
            (651, 0),
            (652, 0),
            (653, 0),
            (654, 0),
            (655, 0x3061800004082),
            (656, 1),
            (657, 16512),
            (658, 1),
            (659, 0),
            (660, 0),
            (661, 0),
            (662, 0),
            (663, 0x3061800004082),
        ],
        bytes: SMALL,
        fault: "Clash 16512",
    },
    Damage {
        name: "a run of six lines",
        lanes: Lanes::One,
        edits: &[(1537, 1537)],
        bytes: SMALL,
        fault: "Chunk 0 1",
    },
    Damage {
        name: "a block past the zone",
        lanes: Lanes::One,
        edits: &[(1599, 514)],
        bytes: SMALL,
        fault: "Chunk 0 63",
    },
    Damage {
        name: "blocks that overlap",
        lanes: Lanes::One,
        edits: &[(1537, 514), (1538, 514)],
        bytes: SMALL,
        fault: "Chunk 0 1",
    },
    Damage {
        name: "a bit past the blocks",
        lanes: Lanes::One,
        edits: &[(2048, 2147483649)],
        bytes: SMALL,
        fault: "Bitmap 0 0",
    },
    Damage {
        name: "size 0",
        lanes: Lanes::One,
        edits: &[(2057, 0)],
        bytes: SMALL,
        fault: "Block 16512",
    },
    Damage {
        name: "a size of another class",
        lanes: Lanes::One,
        edits: &[(2057, 65)],
        bytes: SMALL,
        fault: "Block 16512",
    },
    Damage {
        name: "a word of the header line that is not used",
        lanes: Lanes::One,
        edits: &[(2062, 1)],
        bytes: SMALL,
        fault: "Block 16512",
    },
    Damage {
        name: "a next without a list",
        lanes: Lanes::One,
        edits: &[(2058, 16512)],
        bytes: SMALL,
        fault: "Link 16512",
    },
    Damage {
        name: "a list without a head",
        lanes: Lanes::One,
        edits: &[(2060, 16640)],
        bytes: SMALL,
        fault: "Link 16512",
    },
    Damage {
        name: "a first that is no member",
        lanes: Lanes::One,
        edits: &[(2061, 16512)],
        bytes: SMALL,
        fault: "Link 16512",
    },
    Damage {
        name: "a root that is no object",
        lanes: Lanes::One,
        edits: &[(64, 16640)],
        bytes: SMALL,
        fault: "Root 16640",
    },
    Damage {
        name: "entries of two lanes for one bit",
        lanes: Lanes::Two,
        edits: &[
            (513, 2),
            (520, 24704),
            (521, 1),
            (522, 4096),
            (523, 2),
            (1537, 2),
            (1544, 24704),
            (1545, 1),
            (1546, 12288),
            (1547, 2),
        ],
        bytes: WIDE,
        fault: "Clash 24704",
    },
];
