//! Reads one row, by what has been seen of those before.
//! This project's own.
ghost use Rattle.std.specs.Prelude.{◌≡◌, [], ◌∷◌, List, option_map, IfOk};
ghost use Rattle.csv.specs.Records.{fields_of};
ghost use Rattle.rcp_model.specs.Plan.{IsPlan};
ghost use Rattle.fault_journal.specs.declared.row.Row.{Row};
ghost use Rattle.fault_journal.specs.Journal as journal;
ghost use Rattle.fault_journal.specs.Seen.{Knows};

use crate::columns::written_row;
use crate::fault::JournalFault;
use crate::kind::kind_of;
use crate::limits::{is_within_limits, packed};
use crate::row::Row;
use crate::seen::Seen;
use csv::ByteRecord;
use rcp_model::PlanParts;

/// The row of a record, which then has been seen too, or the first test that it fails.
#[tactic(auto, unfolding(crate::specs::Journal::row_of))]
pub fn read_row(
    plan: &PlanParts,
    number: u32,
    seen: &mut Seen,
    fields: &ByteRecord,
) -> Result<Row, JournalFault>
    requires { IsPlan plan.now }
    ensures row { (before : List Row) → Knows before seen.old
        → result ≡ journal.row_of plan.now number before (fields_of fields.now) }
    ensures seen { (before : List Row) → Knows before seen.old
        → IfOk result (λ row. Knows (row ∷ before) seen.new) }
{
    let six = six_fields(fields).ok_or(JournalFault::Width { row: number })?;
    let kind = kind_of(six.kind).ok_or(JournalFault::Kind { row: number })?;
    let texts = [six.a, six.b, six.c, six.d];
    let written = written_row(plan, number, six.frame, kind, texts)?;
    if !seen.may_come(&written) {
        return Err(JournalFault::Order { row: number });
    }
    if !is_within_limits(plan, &written) {
        return Err(JournalFault::Limit { row: number });
    }
    let row = packed(plan, &written);
    if seen.has(&row) {
        return Err(JournalFault::Repeated { row: number });
    }
    seen.add(&row);
    Ok(row)
}

// The fields of a record that has six.
#[derive(Clone, Copy)]
struct SixFields<'a> {
    frame: &'a [u8],
    kind: &'a [u8],
    a: &'a [u8],
    b: &'a [u8],
    c: &'a [u8],
    d: &'a [u8],
}

#[tactic(auto, using(crate::proofs::RowLemmas::absent_is_after))]
fn six_fields(fields: &ByteRecord) -> Option<SixFields<'_>>
    ensures { option_map (λ six. record {
      frame = six.frame.now;
      kind = six.kind.now;
      columns = six.a.now ∷ six.b.now ∷ six.c.now ∷ six.d.now ∷ [];
    }) result ≡ journal.six_fields (fields_of fields.now) }
{
    if fields.len() != 6 {
        return None;
    }
    Some(SixFields {
        frame: fields.get(0)?,
        kind: fields.get(1)?,
        a: fields.get(2)?,
        b: fields.get(3)?,
        c: fields.get(4)?,
        d: fields.get(5)?,
    })
}
