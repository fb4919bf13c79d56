ghost use Rattle.std.specs.Prelude.{◌≡◌, ◌↔◌, ℕ, List, length, drop, take, IsSome, IfSome, IfOk, IfErr, slice_index};
ghost use Rattle.pm_header.specs.Pairs.{main_pair, copy_pair, IsGood, IsLineOf, IsPairOf, IsHeaderIn, HasOneGood, with_main_copied, with_copy_restored};
ghost use Rattle.pm_header.specs.Faults.{IsFault};
ghost use Rattle.pm_header.specs.declared.fault.HeaderFault.{HeaderFault};
ghost use Rattle.pm_header.specs.declared.header.Header.{Header};

use crate::fault::HeaderFault;
use crate::header::Header;
use crate::name::{LINE_BYTES, Name};
use crate::spelling::{COPY_WORD, LINE_WORDS, MAGIC, PAIR_WORDS};
use pm_layout::VERSION;
use pm_words::{bytes_of, sum64};

/// Reads the header that both pairs of the header page's 512 words spell. An error is the page's one fault, and
/// leaves nothing behind: docs/FORMAT.md, "Header page".
pub fn decode(page: &[u64]) -> Result<Header, HeaderFault>
    requires { length page.now ≡ 512 }
    ensures read { IfOk result (IsHeaderIn page.now) }
    ensures again { (header : Header) → IsHeaderIn page.now header → result ≡ Ok header }
    ensures fault { IfErr result (IsFault page.now) }
    ensures exact { (fault : HeaderFault) → IsFault page.now fault → result ≡ Err fault }
{
    read_pairs(page)
}

/// The header that both pairs spell, or the first fault.
fn read_pairs(page: &[u64]) -> Result<Header, HeaderFault>
    requires { length page.now ≡ 512 }
    ensures read { IfOk result (IsHeaderIn page.now) }
    ensures fault { IfErr result (IsFault page.now) }
{
    let main = &page[..PAIR_WORDS];
    let copy = &page[COPY_WORD..COPY_WORD + PAIR_WORDS];
    if main[0] != MAGIC && copy[0] != MAGIC {
        return Err(HeaderFault::NotPool);
    }
    let header = match (header_in(main), header_in(copy)) {
        (Some(header), Some(_)) => header,
        (None, Some(_)) => return Err(HeaderFault::HeaderMain),
        (Some(_), None) => return Err(HeaderFault::HeaderCopy),
        (None, None) => return Err(HeaderFault::HeaderBoth),
    };
    if main != copy {
        return Err(HeaderFault::HeaderDiffer);
    }
    if header.version != VERSION {
        return Err(HeaderFault::Version(header.version));
    }
    Ok(header)
}

/// Writes the good pair of the header page's 512 words over the other one. The other words of the page stay.
pub fn copy_good(page: &mut [u64])
    requires page { length page.old ≡ 512 }
    requires one_good { HasOneGood page.old }
    ensures main_good { IsGood (main_pair page.old) → page.new ≡ with_main_copied page.old }
    ensures copy_good { ¬ IsGood (main_pair page.old) → page.new ≡ with_copy_restored page.old }
{
    if header_in(&page[..PAIR_WORDS]).is_some() {
        page.copy_within(..PAIR_WORDS, COPY_WORD);
    } else {
        page.copy_within(COPY_WORD..COPY_WORD + PAIR_WORDS, 0);
    }
}

/// The header of a pair; `None` exactly where the pair is not good.
fn header_in(words: &[u64]) -> Option<Header>
    requires { length words.now ≡ 16 }
    ensures good { IsSome result ↔ IsGood words.now }
    ensures spelled { IfSome result (IsPairOf words.now) }
{
    let (front, line) = words.split_at(LINE_WORDS);
    if front[0] != MAGIC || front[6] != sum64(line) || front[7] != sum64(&front[..7]) {
        return None;
    }
    let name = name_in(line)?;
    Some(Header {
        version: front[1],
        id: front[2],
        lanes: front[3],
        zones: front[4],
        bytes: front[5],
        name,
    })
}

/// The name that the words of a name line spell; `None` where they spell none.
fn name_in(line: &[u64]) -> Option<Name>
    requires { length line.now ≡ 8 }
    ensures spelled { IfSome result (IsLineOf line.now) }
    ensures again { (name : List ℕ) → IsLineOf line.now name → result ≡ Some name }
{
    let mut bytes = [0; LINE_BYTES];
    bytes_of(line, &mut bytes);
    Name::of_line(&bytes)
}
