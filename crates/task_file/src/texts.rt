//! The texts of the task language in a task file: each body, and then each actuator's value.
//! This project's own.
ghost use Rattle.std.specs.Prelude.{◌≡◌, ◌≤◌, length, map};
ghost use Rattle.rcp_base.specs.Answers.{Gives, each_from};
ghost use Rattle.task_file.specs.inner.Limits.{AreShortSections, AreShort};
ghost use Rattle.task_file.specs.Names.{text_names};
ghost use Rattle.task_file.specs.inner.NameLists.{lists_of};
ghost use Rattle.task_file.specs.inner.SectionViews.{text_view, sections_view};
ghost use Rattle.task_file.specs.Texts as spec;
ghost use Rattle.task_file.specs.inner.TextRowsView.{text_rows_view};
ghost use Rattle.task_file.specs.Fault.{is_file_memory};

use crate::fault::FileFault;
use crate::names::NameLists;
use crate::path::{Key, Section};
use crate::places::of_table_key;
use crate::sections::{RawText, Sections};
use rcp_base::{List, MAX_ACTUATORS, MAX_BODY, MAX_CELLS, MAX_SENSORS, MAX_TASKS, Name};
use rcp_model::{ActuatorRow, Task};
use std::alloc::Global;
use task_lang::{parse_body, parse_expr};

/// The tasks and actuators that the texts of a file write.
#[derive(Drop)]
pub struct TextRows {
    pub tasks: List<Task>,
    pub actuators: List<ActuatorRow>,
}

/// What the texts of a file write, over the names of its sections.
#[tactic(auto, unfolding(crate::specs::Texts::text_rows_of))]
pub fn read_texts(
    alloc: Global,
    sections: &Sections<'_>,
    names: &NameLists<'_>,
) -> Result<TextRows, FileFault>
    requires limits { AreShortSections (sections_view sections.now) }
    requires names { names.now ≡ lists_of (sections_view sections.now) }
    ensures { Gives is_file_memory text_rows_view result
        (spec.text_rows_of (sections_view sections.now)) }
{
    let sensors = names.sensors.as_slice();
    let cells = names.cells.as_slice();
    let tasks = tasks_of(
        alloc,
        sensors,
        cells,
        names.tasks.as_slice(),
        sections.tasks.as_slice(),
    )?;
    let actuators = actuators_of(
        alloc,
        sensors,
        cells,
        names.actuators.as_slice(),
        sections.actuators.as_slice(),
    )?;
    Ok(TextRows { tasks, actuators })
}

fn tasks_of(
    alloc: Global,
    sensors: &[Name],
    cells: &[Name],
    names: &[Name],
    texts: &[RawText<'_>],
) -> Result<List<Task>, FileFault>
    requires sensors { length sensors.now ≤ MAX_SENSORS }
    requires cells { length cells.now ≤ MAX_CELLS }
    requires names { names.now ≡ text_names (map text_view texts.now) }
    requires texts { length texts.now ≤ MAX_TASKS }
    requires short { AreShort (map text_view texts.now) }
    ensures { Gives is_file_memory (λ tasks. tasks) result
        (each_from (spec.task_of sensors.now cells.now) 0 (map text_view texts.now)) }
{
    let mut tasks = List::new(alloc);
    for (i, text) in texts.iter().enumerate() {
        tasks.push(task_of(alloc, sensors, cells, i, names[i], text.text)?)?;
    }
    Ok(tasks)
}

fn actuators_of(
    alloc: Global,
    sensors: &[Name],
    cells: &[Name],
    names: &[Name],
    texts: &[RawText<'_>],
) -> Result<List<ActuatorRow>, FileFault>
    requires sensors { length sensors.now ≤ MAX_SENSORS }
    requires cells { length cells.now ≤ MAX_CELLS }
    requires names { names.now ≡ text_names (map text_view texts.now) }
    requires texts { length texts.now ≤ MAX_ACTUATORS }
    requires short { AreShort (map text_view texts.now) }
    ensures { Gives is_file_memory (λ actuators. actuators) result
        (each_from (spec.actuator_of sensors.now cells.now) 0 (map text_view texts.now)) }
{
    let mut actuators = List::new(alloc);
    for (i, text) in texts.iter().enumerate() {
        actuators.push(actuator_of(alloc, sensors, cells, i, names[i], text.text)?)?;
    }
    Ok(actuators)
}

#[tactic(auto, using(task_lang::proofs::AnswerLaws::body_answers_read))]
fn task_of(
    alloc: Global,
    sensors: &[Name],
    cells: &[Name],
    i: usize,
    name: Name,
    text: &str,
) -> Result<Task, FileFault>
    requires sensors { length sensors.now ≤ MAX_SENSORS }
    requires cells { length cells.now ≤ MAX_CELLS }
    requires i { i ≤ MAX_TASKS }
    requires text { length text.now ≤ MAX_BODY }
    ensures { Gives is_file_memory (λ task. task) result
        (spec.task_of sensors.now cells.now i (record { name = name; text = text.now })) }
{
    match parse_body(alloc, name, text, sensors, cells) {
        Ok(task) => Ok(task),
        Err(fault) => Err(FileFault::of_text(
            of_table_key(Section::Task, i as u32, Key::Body),
            fault,
        )),
    }
}

#[tactic(auto, using(task_lang::proofs::AnswerLaws::expression_answers_read))]
fn actuator_of(
    alloc: Global,
    sensors: &[Name],
    cells: &[Name],
    i: usize,
    name: Name,
    text: &str,
) -> Result<ActuatorRow, FileFault>
    requires sensors { length sensors.now ≤ MAX_SENSORS }
    requires cells { length cells.now ≤ MAX_CELLS }
    requires i { i ≤ MAX_ACTUATORS }
    requires text { length text.now ≤ MAX_BODY }
    ensures { Gives is_file_memory (λ actuator. actuator) result
        (spec.actuator_of sensors.now cells.now i (record { name = name; text = text.now })) }
{
    match parse_expr(alloc, text, sensors, cells) {
        Ok(value) => Ok(ActuatorRow { name, value }),
        Err(fault) => Err(FileFault::of_text(
            of_table_key(Section::Actuator, i as u32, Key::Value),
            fault,
        )),
    }
}
