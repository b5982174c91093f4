//! A journal: the rows of all frames of a run, filled in one frame after the other.
//! This project's own.
ghost use Rattle.std.specs.Prelude.{◌≡◌, ◌≢◌, ◌<◌, ◌≤◌, Ok, All, IfOk, IfErr, length, take, slice_index_or};
ghost use Rattle.rcp_base.specs.Answers.{IsFaultOr};
ghost use Rattle.fault_journal.specs.Fault.{is_journal_memory};
ghost use Rattle.rcp_model.specs.declared.plan.PlanParts.{PlanParts};
ghost use Rattle.rcp_model.specs.History.{History};
ghost use Rattle.rcp_model.specs.FrameRows.{AreRowsOf, no_rows};
ghost use Rattle.fault_journal.specs.declared.row.Row.{Row};
ghost use Rattle.fault_journal.specs.Filling.{IsRowOf, CanTake, put_row, put_all};
ghost use Rattle.fault_journal.specs.History.{journal_result};
ghost use Rattle.fault_journal.specs.Telling.{IsJournalOf, Tells, history_in};

use crate::fault::JournalFault;
use crate::row::{Kind, Row};
use crate::rows::read_rows;
use layer_stack::{FrameIn, Inputs};
use rcp_model::Plan;
use std::alloc::Global;

/// The rows of all frames of a run. Filling in a frame takes no memory, however many rows it has.
#[derive(Debug, Drop)]
pub struct Journal {
    // In the order of their frames.
    rows: Vec<Row>,
    frames: u32,
    // How many rows are those of frames that are done.
    place: usize,
    done: u32,
}

impl Journal {
    /// The journal that bytes hold, before its first frame, or the first test that they fail.
    pub fn check(alloc: Global, plan: &Plan, bytes: &[u8]) -> Result<Journal, JournalFault>
        ensures verdict { IfOk result (λ journal.
            journal_result plan.now bytes.now ≡ Ok (history_in plan.now journal)) }
        ensures journal { IfOk result (IsJournalOf plan.now) }
        ensures fault { IfErr result (λ fault.
            IsFaultOr (is_journal_memory fault) fault (journal_result plan.now bytes.now)) }
    {
        let read = read_rows(alloc, plan.parts(), bytes)?;
        Ok(Journal {
            rows: read.rows,
            frames: read.frames,
            place: 0,
            done: 0,
        })
    }

    /// Goes back to before the first frame.
    pub fn rewind(&mut self)
        ensures tells { (plan : PlanParts) (history : History)
            → Tells self.old plan history → Tells self.new plan history }
        ensures done { self.new.done ≡ 0 }
    {
        self.place = 0;
        self.done = 0;
    }
}

impl Inputs for Journal {
    ghost use Rattle.fault_journal.specs.Telling.{Tells};

    ghost tells = { Tells };

    ghost done = { λ journal. journal.done };

    fn frames(&self) -> u32 {
        self.frames
    }

    fn done(&self) -> u32 {
        self.done
    }

    fn fill(&mut self, input: &mut FrameIn) {
        clear_rows(input);
        let rest = &self.rows[self.place..];
        let count = count_of_frame(rest, self.done);
        put_rows(input, &rest[..count]);
        self.place += count;
        self.done += 1;
    }
}

// Goes on to the next frame over the sensors so far.
#[tactic(auto, using(crate::proofs::JournalLemmas::cleared_of_plan))]
fn clear_rows(input: &mut FrameIn)
    ensures { (plan : PlanParts) → AreRowsOf plan input.old
        → input.new ≡ no_rows plan input.old.sensors }
{
    input.next_frame();
}

// How many rows of a frame come first.
fn count_of_frame(rows: &[Row], frame: u32) -> usize
    ensures within { result ≤ length rows.now }
    ensures same { All (λ row. row.frame ≡ frame) (take result rows.now) }
    ensures other { (d : Row) → result < length rows.now
        → (slice_index_or rows.now result d).frame ≢ frame }
{
    for (place, row) in rows.iter().enumerate() {
        if row.frame != frame {
            return place;
        }
    }
    rows.len()
}

// Puts rows into a frame, one after the other.
fn put_rows(input: &mut FrameIn, rows: &[Row])
    requires ready { (plan : PlanParts) × CanTake plan input.old × All (IsRowOf plan) rows.now }
    ensures { input.new ≡ put_all input.old rows.now }
{
    for row in rows {
        put(input, row);
    }
}

// Puts a row into a frame.
#[tactic(auto, unfolding(crate::specs::Filling::put_row))]
fn put(input: &mut FrameIn, row: &Row)
    requires ready { (plan : PlanParts) × CanTake plan input.old × IsRowOf plan row.now }
    ensures { input.new ≡ put_row input.old row.now }
{
    let replica = u32::from(row.replica);
    let receiver = u32::from(row.receiver);
    let item = u32::from(row.item);
    match row.kind {
        Kind::Sensor => input.set_sensor(item, row.value),
        Kind::Down => input.set_down(replica),
        Kind::Cell => input.set_cell(replica, item, row.value),
        Kind::Slot => input.set_slot(replica, row.value as u32),
        Kind::Act => input.set_act(replica, item, row.value),
        Kind::Lie => input.set_lie(replica, receiver, item, row.value),
        Kind::LieSlot => input.set_lieslot(replica, receiver, row.value as u32),
        Kind::Drop => input.set_drop(replica, receiver),
        Kind::Skew => input.set_skew(replica, row.value),
        Kind::Rate => input.set_rate(replica, row.value),
        Kind::Delay => input.set_delay(replica, receiver, row.value),
        Kind::End => {}
    }
}
