//! The timing of a document: ten integers.
//! This project's own.
ghost use Rattle.std.specs.Prelude.{◌≡◌};
ghost use Rattle.toml.specs.View.{table_view};
ghost use Rattle.rcp_base.specs.Answers.{Gives};
ghost use Rattle.task_file.specs.Document as found;
ghost use Rattle.task_file.specs.Fault.{is_file_memory};
ghost use Rattle.task_file.specs.TimingSection as spec;

use crate::document::{has_only, integer_at, table_at};
use crate::fault::FileFault;
use crate::path::{Key, Section};
use crate::places::{of_key, of_section};
use crate::sections::{Bounds, Phases};
use rcp_model::Timing;
use toml::Table;

#[tactic(auto, unfolding(crate::specs::TimingSection::ticks_at))]
fn ticks_at(timing: &Table, at: Key, name: &str) -> Result<i64, FileFault>
    ensures { Gives is_file_memory (λ ticks. ticks) result
        (spec.ticks_at at name.now (table_view timing.now)) }
{
    integer_at(timing, name, 0, 1_000_000_000).ok_or(FileFault::Shape {
        path: of_key(Section::Timing, at),
    })
}

fn has_timing_keys(table: &Table) -> bool
    ensures { result ≡ found.has_only spec.timing_keys (table_view table.now) }
{
    has_only(
        table,
        &[
            "compute",
            "broadcast",
            "vote",
            "sync",
            "skew",
            "drift_ppm",
            "delay_min",
            "delay_max",
            "skew_limit",
            "drift_limit_ppm",
        ],
    )
}

#[tactic(auto, unfolding(crate::specs::TimingSection::phases_of))]
fn phases_of(table: &Table) -> Result<Phases, FileFault>
    ensures { Gives is_file_memory (λ phases. phases) result
        (spec.phases_of (table_view table.now)) }
{
    Ok(Phases {
        compute: ticks_at(table, Key::Compute, "compute")?,
        broadcast: ticks_at(table, Key::Broadcast, "broadcast")?,
        vote: ticks_at(table, Key::Vote, "vote")?,
        sync: ticks_at(table, Key::Sync, "sync")?,
    })
}

#[tactic(auto, unfolding(crate::specs::TimingSection::bounds_of))]
fn bounds_of(table: &Table) -> Result<Bounds, FileFault>
    ensures { Gives is_file_memory (λ bounds. bounds) result
        (spec.bounds_of (table_view table.now)) }
{
    Ok(Bounds {
        skew: ticks_at(table, Key::Skew, "skew")?,
        drift_ppm: ticks_at(table, Key::DriftPpm, "drift_ppm")?,
        delay_min: ticks_at(table, Key::DelayMin, "delay_min")?,
        delay_max: ticks_at(table, Key::DelayMax, "delay_max")?,
        skew_limit: ticks_at(table, Key::SkewLimit, "skew_limit")?,
        drift_limit_ppm: ticks_at(table, Key::DriftLimitPpm, "drift_limit_ppm")?,
    })
}

fn timing_of(table: &Table) -> Result<Timing, FileFault>
    ensures { Gives is_file_memory (λ timing. timing) result
        (spec.timing_of (table_view table.now)) }
{
    let phases = phases_of(table)?;
    let bounds = bounds_of(table)?;
    if !has_timing_keys(table) {
        return Err(FileFault::Shape {
            path: of_key(Section::Timing, Key::Unknown),
        });
    }
    Ok(timing_with(phases, bounds))
}

fn timing_with(phases: Phases, bounds: Bounds) -> Timing
    ensures { result ≡ spec.timing_with phases bounds }
{
    Timing {
        compute: phases.compute,
        broadcast: phases.broadcast,
        vote: phases.vote,
        sync: phases.sync,
        skew: bounds.skew,
        drift_ppm: bounds.drift_ppm,
        delay_min: bounds.delay_min,
        delay_max: bounds.delay_max,
        skew_limit: bounds.skew_limit,
        drift_limit_ppm: bounds.drift_limit_ppm,
    }
}

fn timing_table(document: &Table) -> Result<&Table, FileFault>
    ensures { Gives is_file_memory (λ table. table_view table.now) result
        (spec.timing_table (table_view document.now)) }
{
    table_at(document, "timing").ok_or(FileFault::Shape {
        path: of_section(Section::Timing),
    })
}

/// The timing of a document.
pub fn timing_section(document: &Table) -> Result<Timing, FileFault>
    ensures { Gives is_file_memory (λ timing. timing) result
        (spec.timing_section (table_view document.now)) }
{
    let table = timing_table(document)?;
    timing_of(table)
}
