//! The folder that holds the system's files.
//! This project's own.
ghost use Rattle.std.specs.Prelude.{◌≡◌, ◌≢◌, ◌≤◌, ◌<◌, ◌+◌, [], vec_len, None, OnOk};
ghost use Rattle.std.specs.Io.KnownBytes.{Consumes, IsAtEnd};

use rcp_base::{Folder, ReadError};
use std::alloc::Global;
use std::fs;
use std::io::Read;
use std::rt::Files;

/// The most bytes that one read takes.
const PIECE: usize = 4_096;

/// The files that the runtime `R` opens, and how often opening or reading one was refused.
///
/// This is the trusted edge. It tells no bytes: that the system opens the file of the name asked
/// for, and what that file holds, are premises, and no part of what is proved.
#[derive(Drop)]
pub struct StdFolder<R> {
    runtime: R,
    faults: u64,
}

impl<R: Files> StdFolder<R> {
    ghost use Rattle.rcp_cli.specs.StdFolder.{std_folder_state};

    /// The folder before its first failure.
    pub fn new(runtime: R) -> StdFolder<R>
        ensures { std_folder_state result ≡ record { files = None; faults = 0 } }
    {
        StdFolder { runtime, faults: 0 }
    }
}

impl<R: Files> Folder for StdFolder<R> {
    ghost use Rattle.rcp_cli.specs.StdFolder.{std_folder_state};

    ghost state = { λ folder. std_folder_state folder };

    fn read(
        &mut self,
        _alloc: Global,
        name: &str,
        limit: u64,
        into: &mut Vec<u8>,
    ) -> Result<(), ReadError> {
        let answer = match fs::open(&self.runtime, name) {
            Ok(mut file) => read_up_to(&mut file, limit, into),
            Err(_) => Err(ReadError::Failed),
        };
        if let Err(ReadError::Failed) = answer {
            self.faults = self.faults.saturating_add(1);
        }
        answer
    }
}

// Reads to the end, or one byte past the limit. What was taken of the reader stands in `into`,
// unless memory ran out.
fn read_up_to<R: Read>(reader: &mut R, limit: u64, into: &mut Vec<u8>) -> Result<(), ReadError>
    requires { into.old.items ≡ [] }
    ensures whole { OnOk result (IsAtEnd (R.remaining reader.new)) }
    ensures within { OnOk result (vec_len into.new ≤ limit) }
    ensures too_long { result ≡ Err ReadError.TooLong → limit < vec_len into.new }

    // After every answer.
    ensures bounded { vec_len into.new ≤ limit + 1 }
    ensures bytes { result ≢ Err ReadError.Memory →
        Consumes (R.remaining reader.old) (R.remaining reader.new) into.new.items }
{
    let mut buffer = [0u8; PIECE];
    'reading: while into.len() as u64 <= limit {
        let left = limit - into.len() as u64;
        let room = if left < PIECE as u64 {
            left as usize + 1
        } else {
            PIECE
        };
        let piece = &mut buffer[..room];
        match reader.read(piece) {
            Err(_) => return Err(ReadError::Failed),
            Ok(0) => return Ok(()),
            Ok(count) => {
                if into.extend_from_slice(&piece[..count]).is_err() {
                    return Err(ReadError::Memory);
                }
            }
        }
    }
    Err(ReadError::TooLong)
}

#[cfg(test)]
mod tests {
    use super::*;
    use std::test::Fail;
    use std::{env, process};

    // The system holds the files, and no clause says what it gives.
    #[test]
    fn reads_files(rt: HostRuntime) -> Result<(), Fail> {
        let alloc = rt.alloc();
        let temporary = env::temp_dir(&rt)?;
        let place = temporary.as_str();
        let id = process::id(rt.process());
        let name = format!(in alloc; "{place}/rcp_cli_folder_{id}")?;
        let mut held = Vec::new(alloc);
        for index in 0..10_000u16 {
            held.push((index % 251) as u8)?;
        }
        fs::write(&rt, name.as_str(), held.as_slice())?;
        let mut folder = StdFolder::new(&rt);

        for (limit, wanted) in [
            (u64::MAX, Ok(())),
            (10_001, Ok(())),
            (10_000, Ok(())),
            (9_999, Err(ReadError::TooLong)),
            (4_096, Err(ReadError::TooLong)),
            (0, Err(ReadError::TooLong)),
        ] {
            let mut into = Vec::new(alloc);
            let answer = folder.read(alloc, name.as_str(), limit, &mut into);
            assert_eq!(rt; answer, wanted, "limit {limit}");
            if wanted.is_ok() {
                assert!(rt; into == held, "limit {limit}");
            } else {
                assert!(rt; into.len() as u64 > limit, "limit {limit}");
            }
        }
        assert_eq!(rt; folder.faults, 0);

        // A missing file cannot be opened, and a folder of the system opens but cannot be read.
        fs::remove_file(&rt, name.as_str())?;
        for (other, faults) in [(name.as_str(), 1), (place, 2)] {
            let mut into = Vec::new(alloc);
            let answer = folder.read(alloc, other, u64::MAX, &mut into);
            assert_eq!(rt; answer, Err(ReadError::Failed), "{other}");
            assert_eq!(rt; folder.faults, faults, "{other}");
        }
        Ok(())
    }
}
