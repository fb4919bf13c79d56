use pm_layout::LINE_BYTES;

/// A block of the heap that is allocated.
#[derive(Clone, Copy, Debug, PartialEq, Eq)]
pub struct Block {
    /// The place of its header line, in bytes from the pool's start.
    pub place: u64,
    /// Its lines, of 64 bytes each, the header line among them.
    pub lines: u64,
}

impl Block {
    ghost use Rattle.std.specs.Prelude.{◌≡◌};
    ghost use Rattle.pm_image.specs.Blocks.{IsAddressable};
    ghost use Rattle.pm_image.specs.Contents.{offset_in};

    /// The offset of the object in the block: the place of the line behind its header line.
    pub fn offset(&self) -> u64
        requires { IsAddressable self.now }
        ensures { result ≡ offset_in self.now }
    {
        self.place + LINE_BYTES
    }
}
