ghost use Rattle.std.specs.Prelude.{◌≡◌, ◌+◌, ◌*◌, ◌≤◌, length};
ghost use Rattle.pm_words.specs.Words.{words_of, bytes_of, patched};

use byteorder::{ByteOrder, LittleEndian};

/// Reads words: `out[i]` becomes the number in bytes `8 i` to `8 i + 7`, the lowest byte first.
pub fn words_of(bytes: &[u8], out: &mut [u64])
    requires { length bytes.now ≡ 8 * length out.old }
    ensures { out.new ≡ words_of bytes.now }
{
    LittleEndian::read_u64_into(bytes, out);
}

/// Writes words: bytes `8 i` to `8 i + 7` of `out` become `words[i]`, the lowest byte first.
pub fn bytes_of(words: &[u64], out: &mut [u8])
    requires { length out.old ≡ 8 * length words.now }
    ensures bytes { out.new ≡ bytes_of words.now }
    ensures words { words_of out.new ≡ words.now }
{
    LittleEndian::write_u64_into(words, out);
}

/// The word with its bytes from byte `from` on replaced by these, and the others as they were. Byte 0 is the lowest.
pub fn patch(word: u64, from: usize, bytes: &[u8]) -> u64
    requires { from + length bytes.now ≤ 8 }
    ensures { result ≡ patched from bytes.now word }
{
    let mut whole = word.to_le_bytes();
    whole[from..from + bytes.len()].copy_from_slice(bytes);
    u64::from_le_bytes(whole)
}
