ghost use Rattle.std.specs.Prelude.{Some};
ghost use Rattle.pm_header.specs.Texts.{header_fault_text};

use std::error::Error;
use std::fmt;

/// What is wrong with a header page: the first of these that applies.
#[derive(Clone, Copy, Debug, PartialEq, Eq)]
pub enum HeaderFault {
    /// Neither pair begins with the magic: the file is no pool.
    NotPool,
    /// The main pair is damaged, and the copy is good.
    HeaderMain,
    /// The copy is damaged, and the main pair is good.
    HeaderCopy,
    /// Both pairs are damaged, and at least one begins with the magic.
    HeaderBoth,
    /// Both pairs are good, and they differ.
    HeaderDiffer,
    /// The pairs are good and the same, and have this version in place of 1.
    Version(u64),
}

impl fmt::Display for HeaderFault {
    ghost output = { λ fault. Some (header_fault_text fault) };

    fn fmt<W: fmt::Write>(&self, f: &mut fmt::Formatter<W>) -> fmt::Result {
        match self {
            HeaderFault::NotPool => f.write_str("NotPool"),
            HeaderFault::HeaderMain => f.write_str("HeaderMain"),
            HeaderFault::HeaderCopy => f.write_str("HeaderCopy"),
            HeaderFault::HeaderBoth => f.write_str("HeaderBoth"),
            HeaderFault::HeaderDiffer => f.write_str("HeaderDiffer"),
            HeaderFault::Version(version) => write!(f, "Version {version}"),
        }
    }
}

impl Error for HeaderFault {}
