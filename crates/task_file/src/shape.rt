//! The shape of a document: what its sections give, or the first thing that is not as it should be.
//! This project's own.
ghost use Rattle.std.specs.Prelude.{◌≡◌, map, IfOk};
ghost use Rattle.toml.specs.View.{table_view};
ghost use Rattle.rcp_base.specs.Answers.{Gives};
ghost use Rattle.task_file.specs.Document as found;
ghost use Rattle.task_file.specs.Fault.{is_file_memory};
ghost use Rattle.task_file.specs.Shape as spec;
ghost use Rattle.task_file.specs.inner.Limits.{AreShortSections};
ghost use Rattle.task_file.specs.inner.SectionViews.{variable_view, text_view, slot_view, sections_view};

mod slots;
mod tables;
mod texts;
mod timing;
mod variables;

use crate::document::has_only;
use crate::fault::FileFault;
use crate::path::{Key, Section};
use crate::places::of_section;
use crate::sections::{RawSlot, RawText, RawVariable, Sections, Settings};
use rcp_base::{
    List, MAX_ACTUATORS, MAX_CELLS, MAX_RECOVERY, MAX_REPLICAS, MAX_SENSORS, MAX_SLOTS, MAX_TASKS,
};
use slots::each_slot;
use std::alloc::Global;
use tables::{maybe_integer, maybe_tables_at, tables_at, top_integer};
use texts::each_text;
use timing::timing_section;
use toml::Table;
use variables::each_variable;

fn format_in(document: &Table) -> Result<Option<i64>, FileFault>
    ensures { Gives is_file_memory (λ format. format) result
        (spec.format_in (table_view document.now)) }
{
    maybe_integer(Section::Format, 1, 2, "format", document)
}

fn is_second(format: Option<i64>) -> bool
    ensures { result ≡ spec.is_second format }
{
    match format {
        Some(format) => format == 2,
        None => false,
    }
}

fn replicas_in(document: &Table) -> Result<i64, FileFault>
    ensures { Gives is_file_memory (λ n. n) result (spec.replicas_in (table_view document.now)) }
{
    top_integer(
        Section::Replicas,
        1,
        MAX_REPLICAS as i64,
        "replicas",
        document,
    )
}

fn limit_in(second: bool, document: &Table) -> Result<Option<i64>, FileFault>
    ensures { Gives is_file_memory (λ limit. limit) result
        (spec.limit_in second (table_view document.now)) }
{
    if !second {
        return Ok(None);
    }
    let most = MAX_RECOVERY as i64;
    maybe_integer(Section::RecoveryLimit, 1, most, "recovery_limit", document)
}

fn sensor_section<'a>(
    alloc: Global,
    document: &'a Table,
) -> Result<List<RawVariable<'a>>, FileFault>
    ensures { Gives is_file_memory (map variable_view) result
        (spec.sensor_section (table_view document.now)) }
{
    let values = maybe_tables_at(Section::Sensor, MAX_SENSORS, "sensor", document)?;
    each_variable(alloc, Section::Sensor, false, values)
}

fn cell_section<'a>(
    alloc: Global,
    second: bool,
    document: &'a Table,
) -> Result<List<RawVariable<'a>>, FileFault>
    ensures { Gives is_file_memory (map variable_view) result
        (spec.cell_section second (table_view document.now)) }
{
    let values = tables_at(Section::Cell, 1, MAX_CELLS, "cell", document)?;
    each_variable(alloc, Section::Cell, second, values)
}

fn task_section<'a>(alloc: Global, document: &'a Table) -> Result<List<RawText<'a>>, FileFault>
    ensures { Gives is_file_memory (map text_view) result
        (spec.task_section (table_view document.now)) }
{
    let values = tables_at(Section::Task, 1, MAX_TASKS, "task", document)?;
    each_text(alloc, Section::Task, Key::Body, "body", values)
}

fn slot_section<'a>(alloc: Global, document: &'a Table) -> Result<List<RawSlot<'a>>, FileFault>
    ensures { Gives is_file_memory (map slot_view) result
        (spec.slot_section (table_view document.now)) }
{
    let values = tables_at(Section::Slot, 1, MAX_SLOTS, "slot", document)?;
    each_slot(alloc, values)
}

fn actuator_section<'a>(alloc: Global, document: &'a Table) -> Result<List<RawText<'a>>, FileFault>
    ensures { Gives is_file_memory (map text_view) result
        (spec.actuator_section (table_view document.now)) }
{
    let values = maybe_tables_at(Section::Actuator, MAX_ACTUATORS, "actuator", document)?;
    each_text(alloc, Section::Actuator, Key::Value, "value", values)
}

fn has_top_keys(second: bool, document: &Table) -> bool
    ensures { result ≡ found.has_only (spec.top_keys second) (table_view document.now) }
{
    if second {
        has_only(
            document,
            &[
                "recovery_limit",
                "format",
                "replicas",
                "timing",
                "sensor",
                "cell",
                "task",
                "slot",
                "actuator",
            ],
        )
    } else {
        has_only(
            document,
            &[
                "format", "replicas", "timing", "sensor", "cell", "task", "slot", "actuator",
            ],
        )
    }
}

// The settings of a document.
fn settings_of(document: &Table) -> Result<Settings, FileFault>
    ensures { Gives is_file_memory (λ settings. settings) result
        (spec.settings_of (table_view document.now)) }
{
    let second = is_second(format_in(document)?);
    let replicas = replicas_in(document)?;
    let limit = limit_in(second, document)?;
    let timing = timing_section(document)?;
    Ok(Settings {
        second,
        replicas,
        limit,
        timing,
    })
}

/// The sections of a document of the right shape.
#[tactic(auto, unfolding(crate::specs::Shape::sections_of))]
pub fn sections_of<'a>(alloc: Global, document: &'a Table) -> Result<Sections<'a>, FileFault>
    ensures sections { Gives is_file_memory sections_view result
        (spec.sections_of (table_view document.now)) }
    ensures limits { IfOk result (λ sections. AreShortSections (sections_view sections)) }
{
    let settings = settings_of(document)?;
    let sensors = sensor_section(alloc, document)?;
    let cells = cell_section(alloc, settings.second, document)?;
    let tasks = task_section(alloc, document)?;
    let slots = slot_section(alloc, document)?;
    let actuators = actuator_section(alloc, document)?;
    if !has_top_keys(settings.second, document) {
        return Err(FileFault::Shape {
            path: of_section(Section::Unknown),
        });
    }
    Ok(Sections {
        replicas: settings.replicas,
        limit: settings.limit,
        timing: settings.timing,
        sensors,
        cells,
        tasks,
        slots,
        actuators,
    })
}
