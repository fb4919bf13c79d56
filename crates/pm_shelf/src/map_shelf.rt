//! A shelf in memory, which never fails.
ghost use Rattle.std.specs.Prelude.{◌≡◌, ◌≢◌, ◌↔◌, ◌+◌, ℕ, ◌≤◌, List, [], IsTrue, OnOk, OnErr, IsErrOf, option_copied};
ghost use Rattle.pm_shelf.specs.Outside.{IsWhole, IsFront, IsMissing, IsThere, Adds, MayAddPart};

use crate::{Shelf, ShelfFault};
use std::alloc::Global;
use std::collections::BTreeMap;

/// Names with bytes in memory. It never answers `Failed`, and its count of faults is 0.
#[derive(Debug, Drop)]
pub struct MapShelf {
    alloc: Global,
    files: BTreeMap<String, Vec<u8>>,
}

impl MapShelf {
    ghost use Rattle.pm_shelf.specs.MapShelf.{held_by, name_count};

    /// A shelf with no names.
    pub fn new(alloc: Global) -> Self
        ensures empty { (name : List ℕ) → held_by result name ≡ None }
        ensures count { name_count result ≡ 0 }
    {
        MapShelf {
            alloc,
            files: BTreeMap::new(alloc),
        }
    }

    /// The bytes of a name, or `None` where it is not there.
    pub fn get(&self, name: &str) -> Option<&[u8]>
        ensures { option_copied result ≡ held_by self.now name.now }
    {
        self.files.get(name).map(|bytes| bytes.as_slice())
    }

    /// How many names there are.
    pub fn len(&self) -> usize
        ensures { result ≡ name_count self.now }
    {
        self.files.len()
    }

    /// Whether there is no name.
    pub fn is_empty(&self) -> bool
        ensures { IsTrue result ↔ (name_count self.now ≡ 0) }
    {
        self.files.is_empty()
    }
}

impl Shelf for MapShelf {
    ghost use Rattle.pm_shelf.specs.MapShelf.{map_content, name_count};

    ghost content = { map_content };

    ghost faults = { λ _. 0 };

    /// As the trait says, and it never fails.
    fn read(&mut self, name: &str, limit: u64, into: &mut Vec<u8>) -> Result<(), ShelfFault>
        requires { into.old.items ≡ [] }
        ensures content { map_content self.new ≡ map_content self.old }
        ensures whole { OnOk result (IsWhole (map_content self.old) name.now limit into.new.items) }
        ensures too_long { IsErrOf result ShelfFault.TooLong →
            IsFront (map_content self.old) name.now limit into.new.items }
        ensures missing { IsErrOf result ShelfFault.Missing →
            IsMissing (map_content self.old) name.now }
        ensures never_exists { IsErrOf result ShelfFault.Exists → ⊥ }
        ensures never_failed { IsErrOf result ShelfFault.Failed → ⊥ }

        ensures count_kept { name_count self.new ≡ name_count self.old }
    {
        let bytes = self.get(name).ok_or(ShelfFault::Missing)?;
        if bytes.len() as u64 > limit {
            into.extend_from_slice(&bytes[..limit as usize + 1])?;
            return Err(ShelfFault::TooLong);
        }
        into.extend_from_slice(bytes)?;
        Ok(())
    }

    /// As the trait says, and each error leaves the shelf as it was.
    fn write(&mut self, name: &str, bytes: &[u8]) -> Result<(), ShelfFault>
        ensures added { OnOk result
            (Adds (map_content self.old) (map_content self.new) name.now bytes.now) }
        ensures exists { IsErrOf result ShelfFault.Exists →
            IsThere (map_content self.old) name.now
            × (map_content self.new ≡ map_content self.old) }
        ensures never_failed { IsErrOf result ShelfFault.Failed → ⊥ }
        ensures part { OnErr result
            (MayAddPart (map_content self.old) (map_content self.new) name.now bytes.now) }
        ensures never_missing { IsErrOf result ShelfFault.Missing → ⊥ }
        ensures never_too_long { IsErrOf result ShelfFault.TooLong → ⊥ }

        ensures counted { OnOk result (name_count self.new ≡ name_count self.old + 1) }
        ensures kept { OnErr result (map_content self.new ≡ map_content self.old) }
        ensures count_kept { OnErr result (name_count self.new ≡ name_count self.old) }
    {
        if self.files.contains_key(name) {
            return Err(ShelfFault::Exists);
        }
        let name = String::from_str(self.alloc, name)?;
        let bytes = bytes.to_vec(self.alloc)?;
        self.files.insert(name, bytes)?;
        Ok(())
    }
}
