//! Files in memory, which a transcript damages and compares.
ghost use Rattle.std.specs.Prelude.{◌≡◌, ℕ, List, IfOk, None, OnOk, Some};
ghost use Rattle.pm_transcript.specs.Pieces.{piece};

use crate::fault::Fault;
use crate::header_sums::make_sums;
use crate::pieces::{overwrite, piece};
use pm_shelf::{FailingShelf, Shelf};
use std::alloc::{AllocError, Global};
use std::collections::BTreeMap;

/// Files with their names.
#[derive(Drop)]
pub struct Files {
    alloc: Global,
    files: BTreeMap<String, Vec<u8>>,
}

impl Files {
    ghost use Rattle.pm_transcript.specs.Files.{HasSet, held_by};

    /// No file is there.
    pub fn new(alloc: Global) -> Self
        ensures { (name : List ℕ) → held_by result name ≡ None }
    {
        Files {
            alloc,
            files: BTreeMap::new(alloc),
        }
    }

    /// The bytes of a file.
    pub fn get(&self, name: &str) -> Result<&[u8], Fault>
        ensures { IfOk result (λ bytes. held_by self.now name.now ≡ Some bytes.now) }
    {
        match self.files.get(name) {
            Some(bytes) => Ok(bytes.as_slice()),
            None => Err(Fault::Missing),
        }
    }

    /// Makes these the file's bytes, whether it is there or not.
    pub fn set(&mut self, name: &str, bytes: Vec<u8>) -> Result<(), Fault>
        ensures { OnOk result (HasSet self.old self.new name.now (Some bytes.items)) }
    {
        let name = String::from_str(self.alloc, name)?;
        match self.files.insert(name, bytes) {
            Ok(_) => Ok(()),
            Err(_) => Err(Fault::Memory),
        }
    }

    /// Makes the second file as the first.
    pub fn copy(&mut self, from: &str, to: &str) -> Result<(), Fault>
        ensures { OnOk result (HasSet self.old self.new to.now (held_by self.old from.now)) }
    {
        let bytes = self.get(from)?.to_vec(self.alloc)?;
        self.set(to, bytes)
    }

    /// Removes a file.
    pub fn remove(&mut self, name: &str) -> Result<(), Fault>
        ensures { OnOk result (HasSet self.old self.new name.now None) }
    {
        if self.files.remove(name).is_none() {
            return Err(Fault::Missing);
        }
        Ok(())
    }

    /// Makes the file's bytes from this place on these.
    pub fn put(&mut self, name: &str, at: usize, bytes: &[u8]) -> Result<(), Fault> {
        let file = self.files.get_mut(name).ok_or(Fault::Missing)?;
        overwrite(file.as_mut_slice(), at, bytes).ok_or(Fault::End)
    }

    /// Keeps only the file's first bytes, so many.
    pub fn cut(&mut self, name: &str, count: usize) -> Result<(), Fault> {
        let file = self.files.get_mut(name).ok_or(Fault::Missing)?;
        if count > file.len() {
            return Err(Fault::End);
        }
        file.truncate(count);
        Ok(())
    }

    /// Gives both pairs of the pool's header their sums.
    pub fn make_sums(&mut self, name: &str) -> Result<(), Fault> {
        let file = self.files.get_mut(name).ok_or(Fault::Missing)?;
        make_sums(file.as_mut_slice()).ok_or(Fault::End)
    }

    /// Bytes of the file, so many from this place on.
    pub fn part(&self, name: &str, at: usize, count: usize) -> Result<&[u8], Fault>
        ensures { IfOk result (λ bytes. (file : List ℕ) × (held_by self.now name.now ≡ Some file)
            × (bytes.now ≡ piece file at count)) }
    {
        piece(self.get(name)?, at, count).ok_or(Fault::End)
    }

    /// The names of all files, in rising order, with a blank before each but the first.
    pub fn names(&self) -> Result<Vec<u8>, AllocError> {
        let mut text = Vec::new(self.alloc);
        for name in self.files.keys() {
            if !text.is_empty() {
                text.push(b' ')?;
            }
            text.extend_from_slice(name.as_bytes())?;
        }
        Ok(text)
    }

    /// A shelf with those files that a command may name: it reads and writes no other name. Of its
    /// calls the one after so many others fails, if there is a number.
    pub fn shelf(
        &self,
        names: &[String],
        failing: Option<u64>,
    ) -> Result<FailingShelf, AllocError> {
        let mut plan = Vec::new(self.alloc);
        if let Some(call) = failing {
            let written = names
                .iter()
                .filter(|name| self.files.contains_key(name.as_str()));
            plan.push((written.count() as u64).saturating_add(call))?;
        }
        let mut shelf = FailingShelf::new(self.alloc, plan);
        for name in names {
            if let Some(bytes) = self.files.get(name.as_str()) {
                // a name that stands there twice is written once
                let _ = shelf.write(name.as_str(), bytes.as_slice());
            }
        }
        Ok(shelf)
    }

    /// Takes over what a command has added to its shelf.
    pub fn take_new(&mut self, names: &[String], shelf: &FailingShelf) -> Result<(), Fault> {
        for name in names {
            let name = name.as_str();
            if self.files.contains_key(name) {
                continue;
            }
            if let Some(bytes) = shelf.get(name) {
                let bytes = bytes.to_vec(self.alloc)?;
                self.set(name, bytes)?;
            }
        }
        Ok(())
    }
}
