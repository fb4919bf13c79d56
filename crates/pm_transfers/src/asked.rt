use pm_layout::Shape;

/// What the command line asks for.
#[derive(Clone, Copy)]
pub struct Asked {
    /// What the transfers are drawn from, and how many there are.
    pub seed: u64,
    pub count: u64,
    /// The pool's lanes and zones.
    pub shape: Shape,
    /// Whether the time is printed.
    pub timed: bool,
}

impl Asked {
    /// The words after the program's name are four numbers, and then perhaps one more word.
    pub fn of_words(words: &[String]) -> Option<Asked> {
        let seed = number_at(words, 1)?;
        let count = number_at(words, 2)?;
        let lanes = number_at(words, 3)?;
        let zones = number_at(words, 4)?;
        Some(Asked {
            seed,
            count,
            shape: Shape::new(lanes, zones).ok()?,
            timed: words.get(5).is_some_and(|word| word.as_str() == "timed"),
        })
    }
}

/// The word at this place as a number.
fn number_at(words: &[String], at: usize) -> Option<u64> {
    words.get(at)?.parse::<u64>().ok()
}
