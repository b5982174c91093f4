//! What is kept of a plan.
//! This project's own.
ghost use Rattle.std.specs.Prelude.{◌≡◌, ◌==◌, ◌<◌, IfOk, length};
ghost use Rattle.std.specs.List.{list_any};
ghost use Rattle.rcp_base.specs.Tables.{table};
ghost use Rattle.rcp_model.specs.declared.plan.PlanParts.{PlanParts};
ghost use Rattle.rcp_model.specs.Ballot as model;
ghost use Rattle.rcp_model.specs.Plan.{IsPlan};
ghost use Rattle.vote_pattern.specs.Votes.{is_in};
ghost use Rattle.replica_parts.specs.Setting.{HasPlan, IsSettingOf};

use rcp_base::Memory;
use rcp_model::{Plan, PlanParts, Timing};
use std::alloc::Global;
use vote_pattern::Pattern;

/// The sizes of a plan, its timing, and which of its cells are voted by the median. It has no vote pattern.
#[derive(Debug, Drop)]
pub struct Setting {
    pub(crate) replicas: u32,
    pub(crate) cells: u32,
    pub(crate) actuators: u32,
    pub(crate) slots: u32,
    pub(crate) timing: Timing,
    // By cell.
    pub(crate) medians: Vec<bool>,
}

impl Setting {
    /// The setting of a plan.
    pub fn new(alloc: Global, plan: &Plan) -> Result<Setting, Memory>
        ensures { IfOk result (IsSettingOf plan.now) }
    {
        setting_of(alloc, plan.parts())
    }

    /// How many replicas there are.
    pub fn replicas(&self) -> u32
        ensures { result ≡ self.now.replicas }
    {
        self.replicas
    }

    /// How many cells there are.
    pub fn cells(&self) -> u32
        ensures { result ≡ self.now.cells }
    {
        self.cells
    }

    /// How many actuators there are.
    pub fn actuators(&self) -> u32
        ensures { result ≡ self.now.actuators }
    {
        self.actuators
    }

    /// Whether a cell is voted by the median.
    #[tactic(auto, using(crate::proofs::SettingLemmas::medians_long, crate::proofs::SettingLemmas::median_at))]
    pub fn is_median(&self, cell: u32) -> bool
        requires of { HasPlan self.now }
        requires cell { cell < self.now.cells }
        ensures { (plan : PlanParts) → IsSettingOf plan self.now
            → result ≡ model.is_median plan cell }
    {
        self.medians[cell as usize]
    }
}

/// Whether a slot votes a cell; one that isn't there has no vote.
pub fn has_vote(votes: &Pattern, slot: u32, cell: u32) -> bool
    ensures { result ≡ is_in votes.now slot cell }
{
    slot < votes.slots() && cell < votes.cells() && votes.has(slot, cell)
}

// The setting of parts that keep the rules of a plan.
fn setting_of(alloc: Global, parts: &PlanParts) -> Result<Setting, Memory>
    requires { IsPlan parts.now }
    ensures { IfOk result (IsSettingOf parts.now) }
{
    let medians = medians_of(alloc, parts.cells.len(), parts.medians.as_slice())?;
    Ok(Setting {
        replicas: parts.replicas,
        cells: parts.cells.len() as u32,
        actuators: parts.actuators.len() as u32,
        slots: parts.slots.len() as u32,
        timing: parts.timing,
        medians,
    })
}

// Of so many cells, which are among these numbers.
fn medians_of(alloc: Global, cells: usize, numbers: &[u16]) -> Result<Vec<bool>, Memory>
    ensures { IfOk result (λ medians. medians.items
        ≡ table cells (λ cell. list_any (λ median. median == cell) numbers.now)) }
{
    let mut medians = Vec::new(alloc);
    for cell in 0..cells {
        medians.push(is_among(numbers, cell))?;
    }
    Ok(medians)
}

// Whether a cell is among these numbers.
fn is_among(numbers: &[u16], cell: usize) -> bool
    ensures { result ≡ list_any (λ median. median == cell) numbers.now }
{
    numbers.iter().any(|number| usize::from(*number) == cell)
}
