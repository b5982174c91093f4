//! The journal that a number gives, frame by frame.
//! This project's own.
ghost use Rattle.std.specs.Prelude.{◌≡◌, ◌≤◌, ◌++◌, IfOk, OnOk};
ghost use Rattle.rcp_base.specs.declared.TheConstants.{MAX_FRAMES};
ghost use Rattle.rcp_model.specs.Plan.{IsPlan};
ghost use Rattle.journal_gen.specs.Generator as spec;
ghost use Rattle.journal_gen.specs.Generator.{journal_text, rows_text, seed_after};
ghost use Rattle.journal_gen.specs.Laws.{IsGuarded, IsJournalOf};

use crate::draws::Draws;
use crate::line::{Column, put_line};
use crate::rows::{put_fault_rows, put_sensor_rows};
use rcp_base::Memory;
use rcp_model::{Plan, PlanParts};
use std::alloc::Global;

// More bytes than the header, the end row and the rows that come first take.
const ROOM: usize = 100;

// More bytes than a frame's rows take, taken over many frames.
const ROOM_OF_FRAME: usize = 42;

/// The journal of so many frames that a number gives over a plan of this recovery length: sensor values, and where there
/// are three replicas or more a fault in one frame of each period. It is accepted, and the guard holds in each frame.
#[tactic(auto, using(crate::proofs::LawLemmas::bytes_are_guarded))]
pub fn generate(
    alloc: Global,
    plan: &Plan,
    length: u32,
    number: u64,
    frames: u32,
) -> Result<Vec<u8>, Memory>
    requires recovery { 1 ≤ length }
    requires some { 1 ≤ frames }
    requires few { frames ≤ MAX_FRAMES }
    ensures text { IfOk result
        (λ text. text.items ≡ journal_text plan.now length number frames) }
    ensures accepted { IfOk result (λ text. IsJournalOf plan.now frames text.items) }
    ensures guarded { IfOk result (λ text. IsGuarded plan.now length text.items) }
{
    let mut text = Vec::with_capacity(alloc, ROOM + frames as usize * ROOM_OF_FRAME)?;
    put_journal(&mut text, plan.parts(), length, number, frames)?;
    Ok(text)
}

#[tactic(auto, unfolding(crate::specs::Generator::journal_text, crate::specs::Written::row_text))]
fn put_journal(
    text: &mut Vec<u8>,
    parts: &PlanParts,
    recovery: u32,
    number: u64,
    frames: u32,
) -> Result<(), Memory>
    requires plan { IsPlan parts.now }
    ensures { OnOk result (text.new.items
        ≡ text.old.items ++ journal_text parts.now recovery number frames) }
{
    text.extend_from_slice(b"frame,kind,a,b,c,d\n")?;
    put_frames(text, parts, recovery, number, frames)?;
    put_line(text, frames, b"end", &[Column::Nothing; 4])
}

// Adds the rows of the first so many frames.
fn put_frames(
    text: &mut Vec<u8>,
    parts: &PlanParts,
    recovery: u32,
    number: u64,
    frames: u32,
) -> Result<(), Memory>
    requires plan { IsPlan parts.now }
    ensures { OnOk result (text.new.items ≡ text.old.items
        ++ rows_text parts.now (spec.rows_before parts.now recovery number frames)) }
{
    let mut draws = Draws::new(number);
    for frame in 0..frames {
        put_frame(text, parts, recovery, frame, &mut draws)?;
    }
    Ok(())
}

// Adds the rows of a frame.
#[tactic(auto, using(crate::proofs::TextLemmas::rows_text_more), unfolding(crate::specs::Generator::rows_of_frame))]
fn put_frame(
    text: &mut Vec<u8>,
    parts: &PlanParts,
    recovery: u32,
    frame: u32,
    draws: &mut Draws,
) -> Result<(), Memory>
    requires plan { IsPlan parts.now }
    ensures text { OnOk result (text.new.items ≡ text.old.items
        ++ rows_text parts.now (spec.rows_of_frame parts.now recovery frame draws.old.seed)) }
    ensures seed { OnOk result (draws.new.seed
        ≡ seed_after parts.now recovery frame draws.old.seed) }
{
    put_sensor_rows(text, parts, frame, draws.draw())?;
    put_fault_rows(text, parts, recovery, frame, draws)
}
