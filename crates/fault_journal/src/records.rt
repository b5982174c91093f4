//! The records of a journal's bytes, one at a time.
//! This project's own.
ghost use Rattle.std.specs.Prelude.{◌≡◌, true, IfOk};
ghost use Rattle.csv.specs.Reading.{stops_reader};
ghost use Rattle.fault_journal.specs.Journal.{records_of};
ghost use Rattle.fault_journal.specs.Records.{Takes};

use csv::{ByteRecord, ErrorKind, Reader, ReaderBuilder};
use rcp_base::Memory;
use std::alloc::Global;
use std::marker::Model;

/// A record at hand, and those after it, which are still to be read.
#[derive(Drop)]
pub struct Records<'a> {
    reader: Reader<&'a [u8]>,
    row: ByteRecord,
}

impl<'a> Model for Records<'a> {
    ghost use Rattle.fault_journal.specs.Records.{RecordsView, records_view, CanReadOn};

    ghost Value = { RecordsView };

    ghost view = { λ a. records_view a.reader a.row };

    ghost invariant = { λ a. CanReadOn a.reader };
}

impl<'a> Records<'a> {
    /// Before the first record, so that none is at hand.
    pub fn new(alloc: Global, bytes: &'a [u8]) -> Records<'a>
        ensures { result.left ≡ records_of bytes.now }
    {
        Records {
            reader: ReaderBuilder::new()
                .has_headers(false)
                .flexible(true)
                .from_reader(alloc, bytes),
            row: ByteRecord::new(alloc),
        }
    }

    /// Goes on to the next record, and says whether there was one. Records of any width are never refused.
    pub fn advance(&mut self) -> Result<bool, Memory>
        ensures { IfOk result (λ found. Takes self.old.left found self.new) }
    {
        let found = match self.reader.read_byte_record(&mut self.row) {
            Ok(found) => found,
            Err(error) => return Err(memory_of(error.into_kind())),
        };
        Ok(found)
    }

    /// The record at hand.
    pub fn fields(&self) -> &ByteRecord
        ensures { result.now ≡ self.now.at_hand }
    {
        &self.row
    }
}

// What stops a reader of a slice. A slice has no errors of its own, so that only memory can run out.
fn memory_of(kind: ErrorKind) -> Memory
    requires { stops_reader kind ≡ true }
{
    match kind {
        ErrorKind::OutOfMemory | ErrorKind::Io(_) => Memory,
        _ => unreachable!(),
    }
}
