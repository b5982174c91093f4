//! A folder in memory that never fails.
//! This project's own.
ghost use Rattle.std.specs.Prelude.{◌≡◌, List, ℕ, [], OnOk, OnErr};
ghost use Rattle.rcp_base.specs.Files.{with_file};
ghost use Rattle.rcp_base.specs.States.{Reads};

use crate::{Folder, Memory, ReadError};
use std::alloc::Global;
use std::collections::BTreeMap;

/// Files in memory, whose reads fail only where memory runs out or no file has the name.
#[derive(Drop)]
pub struct SureFolder {
    alloc: Global,
    held: BTreeMap<String, Vec<u8>>,
}

impl SureFolder {
    ghost use Rattle.rcp_base.specs.SureFolder.{sure_files, sure_folder_state};

    /// A folder without a file.
    pub fn new(alloc: Global) -> SureFolder
        ensures { (name : List ℕ) → sure_files result name ≡ None }
    {
        SureFolder {
            alloc,
            held: BTreeMap::new(alloc),
        }
    }

    /// Puts these bytes under this name, in place of what is there.
    pub fn put(&mut self, name: &str, bytes: &[u8]) -> Result<(), Memory>
        ensures ok { OnOk result ((other : List ℕ) →
            sure_files self.new other ≡ with_file (sure_files self.old) name.now bytes.now other) }
        ensures err { OnErr result ((other : List ℕ) →
            sure_files self.new other ≡ sure_files self.old other) }
    {
        let name = String::from_str(self.alloc, name)?;
        let bytes = bytes.to_vec(self.alloc)?;
        self.held.insert(name, bytes)?;
        Ok(())
    }

    /// Reads a file of at most `limit` bytes.
    pub(crate) fn copy_file(
        &self,
        name: &str,
        limit: u64,
        into: &mut Vec<u8>,
    ) -> Result<(), ReadError>
        requires { into.old.items ≡ [] }
        ensures reads { Reads (sure_folder_state self.now) (sure_folder_state self.now)
            name.now limit result into.new.items }
        ensures missing { sure_files self.now name.now ≡ None → result ≡ Err ReadError.Failed }
    {
        let Some(bytes) = self.held.get(name) else {
            return Err(ReadError::Failed);
        };
        if into.extend_from_slice(bytes).is_err() {
            Err(ReadError::Memory)
        } else if bytes.len() as u64 > limit {
            Err(ReadError::TooLong)
        } else {
            Ok(())
        }
    }
}

impl Folder for SureFolder {
    ghost use Rattle.rcp_base.specs.SureFolder.{sure_folder_state};

    ghost state = { sure_folder_state };

    fn read(
        &mut self,
        _alloc: Global,
        name: &str,
        limit: u64,
        into: &mut Vec<u8>,
    ) -> Result<(), ReadError> {
        self.copy_file(name, limit, into)
    }
}
