//! The sink over a writer of the system.
//! This project's own.
ghost use Rattle.std.specs.Prelude.{OnOk, OnErr};
ghost use Rattle.std.specs.Io.KnownBytes.{Appends};
ghost use Rattle.rcp_base.specs.Writing.{AppendsFront};

use rcp_base::{Sink, WriteError};
use std::io::Write;

/// The writer `W`, and how often it has refused bytes or a flush.
///
/// This is the trusted edge. It tells what its writer tells, and a file or the standard output tells
/// no bytes: that the bytes which the system took stand there is a premise, and no part of what is
/// proved.
#[derive(Drop)]
pub struct StdOut<W> {
    writer: W,
    faults: u64,
}

impl<W: Write> StdOut<W> {
    ghost use Rattle.std.specs.Prelude.{◌≡◌};
    ghost use Rattle.rcp_cli.specs.StdOut.{std_out_state};

    /// The sink before its first failure.
    pub fn new(writer: W) -> StdOut<W>
        ensures { std_out_state W.contents result
            ≡ record { written = W.contents writer; faults = 0 } }
    {
        StdOut { writer, faults: 0 }
    }
}

impl<W: Write> Sink for StdOut<W> {
    ghost use Rattle.rcp_cli.specs.StdOut.{std_out_state};

    ghost state = { λ sink. std_out_state W.contents sink };

    fn write_all(&mut self, bytes: &[u8]) -> Result<(), WriteError> {
        let answer = write_pieces(&mut self.writer, bytes);
        if answer.is_err() {
            self.faults = self.faults.saturating_add(1);
        }
        answer
    }
}

// Writes all the bytes, piece by piece, and flushes. After an error, a front of them was written.
fn write_pieces<W: Write>(writer: &mut W, bytes: &[u8]) -> Result<(), WriteError>
    ensures ok { OnOk result (Appends (W.contents writer.old) (W.contents writer.new) bytes.now) }
    ensures err { OnErr result
        (AppendsFront (W.contents writer.old) (W.contents writer.new) bytes.now) }
{
    let mut rest = bytes;
    'writing: while !rest.is_empty() {
        match writer.write(rest) {
            Err(_) | Ok(0) => return Err(WriteError::Failed),
            Ok(count) => rest = &rest[count..],
        }
    }
    writer.flush().map_err(|_| WriteError::Failed)
}

#[cfg(test)]
mod tests {
    use super::*;
    use std::test::Fail;
    use std::{env, fs, process};

    // The system holds the files, and no clause says what it keeps.
    #[test]
    fn writes_files(rt: HostRuntime) -> Result<(), Fail> {
        let alloc = rt.alloc();
        let temporary = env::temp_dir(&rt)?;
        let place = temporary.as_str();
        let id = process::id(rt.process());
        let name = format!(in alloc; "{place}/rcp_cli_sink_{id}")?;

        let mut out = StdOut::new(fs::create(&rt, name.as_str())?);
        for piece in ["frame 0\n", "", "vote out 1\n", "end 1\n"] {
            assert_eq!(rt; out.write_all(piece.as_bytes()), Ok(()), "{piece:?}");
        }
        assert_eq!(rt; out.faults, 0);
        let text = fs::read_to_string(&rt, name.as_str())?;
        assert_eq!(rt; text.as_str(), "frame 0\nvote out 1\nend 1\n");

        // A file that was opened to be read takes no bytes.
        let mut shut = StdOut::new(fs::open(&rt, name.as_str())?);
        fs::remove_file(&rt, name.as_str())?;
        assert_eq!(rt; shut.write_all(b"frame 0\n"), Err(WriteError::Failed));
        assert_eq!(rt; shut.faults, 1);
        Ok(())
    }
}
