//! The folder that files are read from.
//! This project's own.
ghost use Rattle.std.specs.Prelude.{◌≡◌, []};
ghost use Rattle.rcp_base.specs.States.{FolderState, IsLater, Reads};

use std::alloc::Global;

/// Why a file was not read.
#[derive(Clone, Copy, Debug, PartialEq, Eq)]
pub enum ReadError {
    /// The folder failed, or has no such file.
    Failed,
    /// The file has more bytes than the limit.
    TooLong,
    /// Out of memory.
    Memory,
}

/// A folder, by the files that it holds and by how often it has failed.
pub trait Folder {
    ghost state: { Self → FolderState };

    /// Reads a file of at most `limit` bytes. After `Failed` or `Memory`, `into` may hold anything.
    fn read(
        &mut self,
        alloc: Global,
        name: &str,
        limit: u64,
        into: &mut Vec<u8>,
    ) -> Result<(), ReadError>
        requires { into.old.items ≡ [] }
        ensures reads { Reads (state self.old) (state self.new) name.now limit
            result into.new.items }
        ensures later { IsLater (state self.old) (state self.new) };
}
