ghost use Rattle.std.specs.Prelude.{◌≡◌, ◌<◌, List, [], ◌∷◌, ◌++◌, length, IfOk};
ghost use Rattle.pm_memory.specs.Changes.{change_flushed, changes_flushed, changes_drained, CanAdd, IsLeastUnflushed};
ghost use Rattle.pm_view.specs.declared.change.Change.{Change};

use pm_layout::LINE_WORDS;
use pm_view::{Change, MAX_CHANGES};
use std::alloc::{AllocError, Global};
use std::marker::Model;

/// A lane's undrained changes, the oldest first, with room for all that there may be. Contracts
/// see the list.
#[derive(Drop)]
pub struct Changes {
    items: Vec<Change>,
}

impl Model for Changes {
    ghost use Rattle.std.specs.Prelude.{◌≤◌, List, vec_capacity};
    ghost use Rattle.pm_view.specs.declared.change.Change.{Change};

    ghost Value = { List Change };

    ghost view = { λ c. c.items.items };

    ghost invariant = { λ c. 512 ≤ vec_capacity c.items };
}

impl Changes {
    /// No changes.
    pub fn new(alloc: Global) -> Result<Changes, AllocError>
        ensures { IfOk result (λ changes. changes ≡ []) }
    {
        Ok(Changes {
            items: Vec::with_capacity(alloc, MAX_CHANGES)?,
        })
    }

    /// The changes.
    pub fn as_slice(&self) -> &[Change]
        ensures { result.now ≡ self.now }
    {
        self.items.as_slice()
    }

    /// Adds a change.
    pub fn add(&mut self, change: Change)
        requires { CanAdd self.old }
        ensures { self.new ≡ self.old ++ change ∷ [] }
    {
        let pushed = self.items.push(change);
        prove!(pushed.is_ok());
    }

    /// The least line with an unflushed change.
    pub fn first_unflushed(&self) -> Option<u64>
        ensures { IsLeastUnflushed self.now result }
    {
        let mut first = None;
        for change in self.items.iter() {
            first = lesser(first, *change);
        }
        first
    }

    /// Marks the changes in a line.
    pub fn flush(&mut self, line: u64)
        ensures { self.new ≡ changes_flushed line self.old }
    {
        for change in self.items.iter_mut() {
            *change = marked(*change, line);
        }
    }

    /// Drops the marked changes.
    pub fn drain(&mut self)
        ensures { self.new ≡ changes_drained self.old }
    {
        self.items.retain(|change| !change.flushed);
    }
}

/// The least line with an unflushed change among some changes and one more.
fn lesser(first: Option<u64>, change: Change) -> Option<u64>
    ensures { (changes : List Change) → IsLeastUnflushed changes first → IsLeastUnflushed (changes ++ change ∷ []) result }
{
    let line = change.word / LINE_WORDS;
    match first {
        _ if change.flushed => first,
        Some(least) if least <= line => first,
        _ => Some(line),
    }
}

/// The change after a flush of the line.
fn marked(change: Change, line: u64) -> Change
    ensures { result ≡ change_flushed line change }
{
    if change.word / LINE_WORDS == line {
        Change {
            flushed: true,
            ..change
        }
    } else {
        change
    }
}
