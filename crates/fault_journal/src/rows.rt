//! Reads all rows of a journal, in one pass over its records.
//! This project's own.
ghost use Rattle.std.specs.Prelude.{◌≡◌, ◌+◌, ◌^◌, ◌<◌, [], length, reverse};
ghost use Rattle.csv.specs.Records.{fields_of};
ghost use Rattle.rcp_base.specs.Answers.{Gives};
ghost use Rattle.fault_journal.specs.Fault.{is_journal_memory};
ghost use Rattle.rcp_model.specs.Plan.{IsPlan};
ghost use Rattle.fault_journal.specs.Journal as journal;
ghost use Rattle.fault_journal.specs.Rows.{after_header, has_field, has_header, journal_of};

use crate::fault::JournalFault;
use crate::records::Records;
use crate::row::{Kind, Row};
use crate::row_reader::read_row;
use crate::seen::Seen;
use csv::ByteRecord;
use rcp_base::MAX_JOURNAL;
use rcp_model::PlanParts;
use std::alloc::Global;

/// The rows of a journal but its end row, in their order, and the number of frames.
#[derive(Debug, Drop)]
pub struct Rows {
    pub rows: Vec<Row>,
    pub frames: u32,
}

/// What the bytes of a journal give, or the first test that they fail.
pub fn read_rows(alloc: Global, plan: &PlanParts, bytes: &[u8]) -> Result<Rows, JournalFault>
    requires { IsPlan plan.now }
    ensures { Gives is_journal_memory journal_of result (journal.journal_rows plan.now bytes.now) }
{
    if bytes.len() as u64 > MAX_JOURNAL {
        return Err(JournalFault::TooLong);
    }
    let mut records = Records::new(alloc, bytes);
    read_header(&mut records)?;
    rows_after_header(alloc, plan, &mut records)
}

// Goes on to the header.
#[tactic(auto, using(crate::proofs::RowsLemmas::header_by_place))]
fn read_header(records: &mut Records<'_>) -> Result<(), JournalFault>
    ensures { Gives is_journal_memory (λ _. records.new.left) result
        (after_header records.old.left) }
{
    if records.advance()? && is_header(records.fields()) {
        Ok(())
    } else {
        Err(JournalFault::Header)
    }
}

fn is_header(row: &ByteRecord) -> bool
    ensures { result ≡ has_header (fields_of row.now) }
{
    row.len() == 6
        && has_field(row, 0, b"frame")
        && has_field(row, 1, b"kind")
        && has_field(row, 2, b"a")
        && has_field(row, 3, b"b")
        && has_field(row, 4, b"c")
        && has_field(row, 5, b"d")
}

fn has_field(row: &ByteRecord, place: usize, text: &[u8]) -> bool
    ensures { result ≡ has_field (fields_of row.now) place text.now }
{
    match row.get(place) {
        Some(field) => field == text,
        None => false,
    }
}

// The rows of the records that are left, up to the end row, after which there must be none.
fn rows_after_header(
    alloc: Global,
    plan: &PlanParts,
    records: &mut Records<'_>,
) -> Result<Rows, JournalFault>
    requires plan { IsPlan plan.now }
    requires few { length records.old.left + 1 < 2 ^ 32 }
    ensures { Gives is_journal_memory journal_of result
        (journal.rows_from plan.now 1 [] records.old.left) }
{
    let mut seen = Seen::new(alloc)?;
    let mut rows = Vec::new(alloc);
    let mut number = 1;
    'rows: while records.advance()? {
        let row = read_row(plan, number, &mut seen, records.fields())?;
        if row.kind == Kind::End {
            return end_of_rows(records, number, rows, row.frame);
        }
        rows.push(row)?;
        number += 1;
    }
    Err(JournalFault::End { row: number })
}

// The rows, if the end row of this number is the last record.
fn end_of_rows(
    records: &mut Records<'_>,
    number: u32,
    rows: Vec<Row>,
    frames: u32,
) -> Result<Rows, JournalFault>
    requires { number + length records.old.left < 2 ^ 32 }
    ensures { Gives is_journal_memory journal_of result
        (journal.rows_at_end number (reverse rows.items) frames records.old.left) }
{
    if records.advance()? {
        Err(JournalFault::End { row: number + 1 })
    } else {
        Ok(Rows { rows, frames })
    }
}
