//! A folder in memory that fails where it is told to.
//! This project's own.
ghost use Rattle.std.specs.Prelude.{◌≡◌, ◌↔◌, List, ℕ, [], OnOk, OnErr};
ghost use Rattle.rcp_base.specs.Files.{with_file};
ghost use Rattle.rcp_base.specs.States.{IsLater, Reads};
ghost use Rattle.rcp_base.specs.Calls.{no_calls, with_failure, after_call};

use crate::calls::Calls;
use crate::{Folder, Memory, ReadError, SureFolder};
use std::alloc::Global;

/// Files in memory. A read fails where its call is listed, where no file has the name, and where memory runs out.
#[derive(Drop)]
pub struct MemFolder {
    held: SureFolder,
    calls: Calls,
}

impl MemFolder {
    ghost use Rattle.rcp_base.specs.MemFolder.{memory_files, memory_calls};

    /// A folder without a file, in which no call is listed.
    pub fn new(alloc: Global) -> MemFolder
        ensures files { (name : List ℕ) → memory_files result name ≡ None }
        ensures calls { memory_calls result ≡ no_calls }
    {
        MemFolder {
            held: SureFolder::new(alloc),
            calls: Calls::new(alloc),
        }
    }

    /// Puts these bytes under this name, in place of what is there.
    pub fn put(&mut self, name: &str, bytes: &[u8]) -> Result<(), Memory>
        ensures ok { OnOk result ((other : List ℕ) →
            memory_files self.new other
            ≡ with_file (memory_files self.old) name.now bytes.now other) }
        ensures err { OnErr result ((other : List ℕ) →
            memory_files self.new other ≡ memory_files self.old other) }
        ensures calls { memory_calls self.new ≡ memory_calls self.old }
    {
        self.held.put(name, bytes)
    }

    /// Lists a call of `read` that is to fail. The first call is number 1.
    pub fn fail_at(&mut self, call: u32) -> Result<(), Memory>
        ensures ok { OnOk result
            (memory_calls self.new ≡ with_failure (memory_calls self.old) call 0) }
        ensures err { OnErr result (memory_calls self.new ≡ memory_calls self.old) }
        ensures files { memory_files self.new ≡ memory_files self.old }
    {
        self.calls.fail_at(call, 0)
    }
}

impl Folder for MemFolder {
    ghost use Rattle.rcp_base.specs.MemFolder.{memory_calls, memory_folder_state, FailsNext};

    ghost state = { memory_folder_state };

    fn read(
        &mut self,
        _alloc: Global,
        name: &str,
        limit: u64,
        into: &mut Vec<u8>,
    ) -> Result<(), ReadError>
        requires { into.old.items ≡ [] }
        ensures reads { Reads (memory_folder_state self.old) (memory_folder_state self.new)
            name.now limit result into.new.items }
        ensures later { IsLater (memory_folder_state self.old) (memory_folder_state self.new) }

        // Beside the trait's clauses: it fails at its listed calls and for missing names alone.
        ensures failed { (result ≡ Err ReadError.Failed) ↔ FailsNext self.old name.now }
        ensures calls { memory_calls self.new ≡ after_call (memory_calls self.old) }
    {
        if self.calls.next().is_some() {
            return Err(ReadError::Failed);
        }
        self.held.copy_file(name, limit, into)
    }
}
