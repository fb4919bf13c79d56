/// What is done again and again.
#[derive(Clone, Copy)]
pub enum Kind {
    /// A store of the kit's table.
    RawStore,
    /// An OR of the kit's table.
    RawOr,
    /// Nothing: the clock alone is read, as often as for ORs.
    Clock,
    /// A step of a lane.
    Lane(LaneStep),
}

/// What a lane does again and again.
#[derive(Clone, Copy)]
pub enum LaneStep {
    /// It stores a word; after each 512 stores it flushes the line and drains.
    Store,
    /// It sets a bit of a word, 32 times as it applies the log of a call.
    Or,
    /// It takes a line's lock for writing, and gives it back.
    Lock,
}

/// What the command line asks for.
#[derive(Clone, Copy)]
pub struct Asked {
    pub kind: Kind,
    /// So many times 512 steps.
    pub rounds: u64,
}

impl Kind {
    /// The kind of this name.
    fn of_name(name: &str) -> Option<Kind> {
        match name {
            "raw-store" => Some(Kind::RawStore),
            "raw-or" => Some(Kind::RawOr),
            "clock" => Some(Kind::Clock),
            "lane-store" => Some(Kind::Lane(LaneStep::Store)),
            "lane-or" => Some(Kind::Lane(LaneStep::Or)),
            "lane-lock" => Some(Kind::Lane(LaneStep::Lock)),
            _ => None,
        }
    }
}

impl Asked {
    /// The words after the program's name are a kind's name and a number.
    pub fn of_words(words: &[String]) -> Option<Asked> {
        let kind = Kind::of_name(words.get(1)?.as_str())?;
        let rounds = words.get(2)?.parse::<u64>().ok()?;
        Some(Asked { kind, rounds })
    }
}
