//! A sink in memory, which never fails.
ghost use Rattle.std.specs.Prelude.{◌≡◌, List, [], ℕ, Some};

use crate::{Sink, SinkFault};
use std::alloc::Global;
use std::marker::Model;

/// Keeps the bytes in memory. It never answers `Failed`, and its count of faults is 0.
#[derive(Debug, Drop)]
pub struct ListSink {
    bytes: Vec<u8>,
}

impl Model for ListSink {
    ghost Value = { List ℕ };

    ghost view = { λ sink. sink.bytes.items };
}

impl ListSink {
    /// A sink into which nothing was put.
    pub fn new(alloc: Global) -> Self
        ensures { result ≡ [] }
    {
        ListSink {
            bytes: Vec::new(alloc),
        }
    }

    /// The bytes put so far, in order.
    pub fn bytes(&self) -> &[u8]
        ensures { result.now ≡ self.now }
    {
        &self.bytes
    }
}

impl Sink for ListSink {
    ghost told = { λ sink. Some sink };

    ghost faults = { λ _. 0 };

    fn put(&mut self, bytes: &[u8]) -> Result<(), SinkFault> {
        self.bytes.extend_from_slice(bytes)?;
        Ok(())
    }
}
