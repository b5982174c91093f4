//! The parts of a plan from the sections of a task file.
//! This project's own.
ghost use Rattle.std.specs.Prelude.{◌≡◌, ◌≤◌, ◌≤ℤ◌, pos, [], length, map, None, option_map, IfOk, IfSome};
ghost use Rattle.rcp_base.specs.Answers.{Gives, unless_fault, natural_of};
ghost use Rattle.rcp_model.specs.TimingRules.{AreInRange};
ghost use Rattle.task_file.specs.inner.Limits.{AreShortSections};
ghost use Rattle.task_file.specs.Names.{raw_names, first_bad_name};
ghost use Rattle.task_file.specs.inner.NameLists.{lists_of};
ghost use Rattle.task_file.specs.inner.SectionViews.{variable_view, sections_view};
ghost use Rattle.task_file.specs.TaskFile as spec;
ghost use Rattle.task_file.specs.inner.TextRowsView.{text_rows_view};
ghost use Rattle.task_file.specs.Fault.{is_file_memory};

use crate::clashes::check_slots;
use crate::fault::FileFault;
use crate::names::{NameLists, read_names};
use crate::sections::{RawVariable, Sections};
use crate::slots::slot_rows_of;
use crate::texts::{TextRows, read_texts};
use clock_model::check_timing;
use rcp_base::{List, MAX_CELLS, MAX_RECOVERY, Memory, Name};
use rcp_model::{PlanParts, SlotRow, Timing, Variable};
use std::alloc::Global;

/// The parts of the plan, tested group by group: names, texts, entries of slots, clashes, timing.
#[tactic(auto, unfolding(crate::specs::TaskFile::parts_of_sections))]
pub fn parts_of_sections(alloc: Global, sections: &Sections<'_>) -> Result<PlanParts, FileFault>
    requires { AreShortSections (sections_view sections.now) }
    ensures { Gives is_file_memory (λ parts. parts) result
        (spec.parts_of_sections (sections_view sections.now)) }
{
    let names = read_names(alloc, sections)?;
    parts_over(alloc, sections, &names)
}

// The parts over the names of the sections, none of which is bad.
#[tactic(auto, unfolding(crate::specs::TaskFile::parts_of_sections))]
fn parts_over(
    alloc: Global,
    sections: &Sections<'_>,
    names: &NameLists<'_>,
) -> Result<PlanParts, FileFault>
    requires limits { AreShortSections (sections_view sections.now) }
    requires good { first_bad_name (sections_view sections.now) ≡ None }
    requires names { names.now ≡ lists_of (sections_view sections.now) }
    ensures { Gives is_file_memory (λ parts. parts) result
        (spec.parts_of_sections (sections_view sections.now)) }
{
    let rows = read_texts(alloc, sections, names)?;
    let slots = slot_rows_of(alloc, &names.tasks, &names.cells, sections.slots.as_slice())?;
    check_slots(alloc, rows.tasks.as_slice(), slots.as_slice())?;
    check_rules(&sections.timing)?;
    Ok(plan_parts(alloc, sections, names, rows, slots)?)
}

fn check_rules(timing: &Timing) -> Result<(), FileFault>
    requires { AreInRange timing.now }
    ensures { Gives is_file_memory (λ done. []) result
        (unless_fault (spec.timing_fault timing.now)) }
{
    match check_timing(timing) {
        Ok(()) => Ok(()),
        Err(rule) => Err(FileFault::Timing { rule }),
    }
}

fn plan_parts(
    alloc: Global,
    sections: &Sections<'_>,
    names: &NameLists<'_>,
    rows: TextRows,
    slots: List<SlotRow>,
) -> Result<PlanParts, Memory>
    requires limits { AreShortSections (sections_view sections.now) }
    requires names { names.now ≡ lists_of (sections_view sections.now) }
    ensures { IfOk result (λ parts. parts ≡ spec.plan_parts (sections_view sections.now)
        (text_rows_view rows) slots) }
{
    let sensors = variables_of(alloc, names.sensors.as_slice(), sections.sensors.as_slice())?;
    let cells = variables_of(alloc, names.cells.as_slice(), sections.cells.as_slice())?;
    let medians = medians_of(alloc, sections.cells.as_slice())?;
    Ok(PlanParts {
        replicas: sections.replicas as u32,
        timing: sections.timing,
        sensors,
        cells,
        tasks: rows.tasks,
        slots,
        actuators: rows.actuators,
        medians,
        recovery_limit: limit_of(sections.limit),
    })
}

// Sensors or cells, with their names.
fn variables_of(
    alloc: Global,
    names: &[Name],
    raws: &[RawVariable<'_>],
) -> Result<List<Variable>, Memory>
    requires { names.now ≡ raw_names (map variable_view raws.now) }
    ensures { IfOk result
        (λ variables. variables ≡ spec.variables_of (map variable_view raws.now)) }
{
    let mut variables = List::new(alloc);
    for (i, raw) in raws.iter().enumerate() {
        variables.push(variable_of(names[i], raw))?;
    }
    Ok(variables)
}

fn variable_of(name: Name, raw: &RawVariable<'_>) -> Variable
    ensures { result ≡ record { name = name; initial = raw.now.initial } }
{
    Variable {
        name,
        initial: raw.initial,
    }
}

// The numbers of the cells that the median votes.
fn medians_of(alloc: Global, cells: &[RawVariable<'_>]) -> Result<List<u16>, Memory>
    requires { length cells.now ≤ MAX_CELLS }
    ensures { IfOk result (λ medians. medians ≡ spec.medians_from 0 (map variable_view cells.now)) }
{
    let mut medians = List::new(alloc);
    for (i, cell) in cells.iter().enumerate() {
        if cell.median {
            medians.push(i as u16)?;
        }
    }
    Ok(medians)
}

fn limit_of(limit: Option<i64>) -> Option<u32>
    requires { IfSome limit (λ nodes. (pos 1 ≤ℤ nodes) × (nodes ≤ℤ pos MAX_RECOVERY)) }
    ensures { result ≡ option_map natural_of limit }
{
    match limit {
        Some(nodes) => Some(nodes as u32),
        None => None,
    }
}
