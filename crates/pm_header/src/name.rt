ghost use Rattle.std.specs.Prelude.{◌≡◌, ◌≢◌, ◌<◌, ◌≤◌, ◌↔◌, ℕ, List, length, slice_index, IsSome, IfSome, IsTrue};
ghost use Rattle.pm_header.specs.Name.{IsName, IsNameByte, name_bytes};

use std::marker::Model;

/// The most bytes of a layout name: 63.
const MAX_NAME: usize = pm_layout::MAX_NAME as usize;

/// The bytes of the line that a name stands in: 64.
pub(crate) const LINE_BYTES: usize = pm_layout::LINE_BYTES as usize;

/// A layout name: 1 to 63 bytes of 0x21 to 0x7E, so that a zero always follows it in its line. Contracts
/// see the list of its bytes.
#[derive(Drop)]
pub struct Name {
    /// The name, and zeros up to the line's end.
    line: [u8; LINE_BYTES],
    len: usize,
}

impl Model for Name {
    ghost use Rattle.std.specs.Prelude.{◌≡◌, ℕ, List, take, ◌≤◌};
    ghost use Rattle.pm_header.specs.Name.{IsNameIn};

    ghost Value = { List ℕ };

    ghost view = { λ n. take n.len n.line };

    ghost invariant = { λ n. IsNameIn n.line n.len };
}

impl Name {
    /// The name with these bytes; `None` exactly where they are no layout name.
    pub fn new(text: &[u8]) -> Option<Name>
        ensures names { IsSome result ↔ IsName text.now }
        ensures value { IfSome result (λ name. name ≡ text.now) }
    {
        if !is_name(text) {
            return None;
        }
        Some(Name {
            line: line_of(text),
            len: text.len(),
        })
    }

    /// The name in a name line: its bytes up to the first zero, where zeros alone follow it. `None` where
    /// the line is that of no name.
    pub(crate) fn of_line(line: &[u8]) -> Option<Name>
        ensures spelled { IfSome result (λ name. line.now ≡ name_bytes name) }
        ensures names { IfSome result IsName }
        ensures again { (name : List ℕ) → IsName name → line.now ≡ name_bytes name → result ≡ Some name }
    {
        let name = Name::new(&line[..front_length(line)])?;
        if name.line() == line {
            Some(name)
        } else {
            None
        }
    }

    /// The bytes of the name.
    pub fn as_bytes(&self) -> &[u8]
        ensures value { result.now ≡ self.now }
        ensures name { IsName self.now }
    {
        &self.line[..self.len]
    }

    /// The 64 bytes of the name's line: the name, and then zeros.
    pub fn line(&self) -> &[u8]
        ensures value { result.now ≡ name_bytes self.now }
        ensures whole { length result.now ≡ 64 }
    {
        &self.line
    }
}

/// The number of bytes before the first zero; of all of them where there is none.
fn front_length(line: &[u8]) -> usize
    ensures within { result ≤ length line.now }
    ensures before { (k : ℕ) → k < result → slice_index line.now k ≢ 0 }
    ensures zero { result < length line.now → slice_index line.now result ≡ 0 }
{
    for (i, byte) in line.iter().enumerate() {
        if *byte == 0 {
            return i;
        }
    }
    line.len()
}

/// The line that begins with these bytes.
fn line_of(text: &[u8]) -> [u8; LINE_BYTES]
    requires { length text.now ≤ 63 }
    ensures { result ≡ name_bytes text.now }
{
    let mut line = [0; LINE_BYTES];
    line[..text.len()].copy_from_slice(text);
    line
}

fn is_name(text: &[u8]) -> bool
    ensures { IsTrue result ↔ IsName text.now }
{
    !text.is_empty() && text.len() <= MAX_NAME && text.iter().all(|byte| is_name_byte(*byte))
}

fn is_name_byte(byte: u8) -> bool
    ensures { IsTrue result ↔ IsNameByte byte }
{
    (0x21..=0x7e).contains(&byte)
}
