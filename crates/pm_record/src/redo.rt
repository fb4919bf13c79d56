ghost use Rattle.std.specs.Prelude.{◌≡◌, ◌↔◌, ◌<◌, ◌%◌, ℕ, length, slice_index, IsNone, IfSome};
ghost use Rattle.std.specs.Int.{bit_at};
ghost use Rattle.pm_record.specs.Redo.{redo_words, redo_of, redo_mask, applied, op_code, op_of};
ghost use Rattle.pm_record.specs.declared.redo.Redo.{Redo};

use pm_layout::WORD_BYTES;

/// What an entry does to its word.
#[derive(Clone, Copy, Debug, PartialEq, Eq, Default, Drop)]
pub enum Op {
    /// The word becomes the value.
    #[default]
    Set,
    /// The value's set bits are set.
    Or,
    /// The value's clear bits are cleared.
    And,
}

/// A change of one word.
#[derive(Clone, Copy, Debug, PartialEq, Eq, Default, Drop)]
pub struct Redo {
    /// The word's place, a byte offset; a multiple of 8 in an entry that is spelled.
    pub place: u64,
    /// What is done.
    pub op: Op,
    /// The value that it is done with.
    pub value: u64,
}

impl Redo {
    /// Writes the entry into a pair of words: the place with the operation's number in its low three bits, and the
    /// value.
    pub fn encode(&self, pair: &mut [u64])
        requires pair { length pair.old ≡ 2 }
        requires aligned { self.now.place % 8 ≡ 0 }
        ensures { pair.new ≡ redo_words self.now }
    {
        pair[0] = self.place + self.op.code();
        pair[1] = self.value;
    }

    /// The entry in a pair of words; `None` exactly where the low three bits of the first are above 2, which is no
    /// operation.
    pub fn decode(pair: &[u64]) -> Option<Redo>
        requires { length pair.now ≡ 2 }
        ensures value { result ≡ redo_of pair.now }
        ensures spelled { IfSome result (λ e. pair.now ≡ redo_words e) }
        ensures aligned { IfSome result (λ e. e.place % 8 ≡ 0) }
        ensures found { (e : Redo) → e.place % 8 ≡ 0 → pair.now ≡ redo_words e → result ≡ Some e }
        ensures none { IsNone result ↔ (2 < slice_index pair.now 0 % 8) }
    {
        // Places are multiples of the bytes of a word, and the operation's number is below them.
        let code = pair[0] % WORD_BYTES;
        let op = Op::from_code(code)?;
        Some(Redo {
            place: pair[0] - code,
            op,
            value: pair[1],
        })
    }

    /// The entry's bits: all of the word for `Set`, the value's set bits for `Or`, its clear bits for `And`.
    pub fn mask(&self) -> u64
        ensures { result ≡ redo_mask self.now }
    {
        match self.op {
            Op::Set => u64::MAX,
            Op::Or => self.value,
            Op::And => !self.value,
        }
    }
}

impl Op {
    /// The number that stands for the operation, 0 to 2.
    fn code(self) -> u64
        ensures { result ≡ op_code self }
    {
        match self {
            Op::Set => 0,
            Op::Or => 1,
            Op::And => 2,
        }
    }

    /// The operation with this number; `None` above 2.
    fn from_code(code: u64) -> Option<Op>
        ensures { result ≡ op_of code }
    {
        match code {
            0 => Some(Op::Set),
            1 => Some(Op::Or),
            2 => Some(Op::And),
            _ => None,
        }
    }
}

/// The word with the entry applied: the value for `Set`, `word | value` for `Or`, `word & value` for `And`. Bits that
/// are not the entry's stay, and its own become those of the value.
pub fn apply(op: &Redo, word: u64) -> u64
    ensures value { result ≡ applied op.now word }
    ensures outside { (k : ℕ) → k < 64 → bit_at (redo_mask op.now) k ≡ 0 → bit_at result k ≡ bit_at word k }
    ensures inside { (k : ℕ) → k < 64 → bit_at (redo_mask op.now) k ≡ 1 → bit_at result k ≡ bit_at op.now.value k }
{
    let value = op.value;
    match op.op {
        Op::Set => value,
        Op::Or => word | value,
        Op::And => word & value,
    }
}
