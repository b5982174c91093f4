//! The names of a task file: each is a name, and none stands twice in its set.
//! This project's own.
ghost use Rattle.std.specs.Prelude.{◌≡◌, ◌≤◌, [], ◌∷◌, ◌++◌, length, map, if◌then◌else◌, IfOk};
ghost use Rattle.rcp_base.specs.Answers.{Gives};
ghost use Rattle.task_file.specs.declared.path.Section.TheVariants as section;
ghost use Rattle.task_file.specs.inner.Limits.{AreShortSections};
ghost use Rattle.task_file.specs.Names.{raw_names, text_names};
ghost use Rattle.task_file.specs.inner.NameLists as spec;
ghost use Rattle.task_file.specs.inner.SectionViews.{variable_view, text_view, sections_view};
ghost use Rattle.task_file.specs.Fault.{is_file_memory};

use crate::fault::FileFault;
use crate::name_list::NameList;
use crate::path::{Key, Section};
use crate::places::of_table_key;
use crate::sections::{RawText, RawVariable, Sections};
use rcp_base::{MAX_TASKS, Memory};
use std::alloc::Global;

/// The names of the sections, in their order.
#[derive(Drop)]
pub struct NameLists<'a> {
    pub sensors: NameList<'a>,
    pub cells: NameList<'a>,
    pub tasks: NameList<'a>,
    pub actuators: NameList<'a>,
}

/// The names of the sections, where none is bad.
#[tactic(auto, unfolding(crate::specs::Names::first_bad_name))]
pub fn read_names<'a>(alloc: Global, sections: &Sections<'a>) -> Result<NameLists<'a>, FileFault>
    requires { AreShortSections (sections_view sections.now) }
    ensures { Gives is_file_memory (λ names. names) result
        (spec.names_of_sections (sections_view sections.now)) }
{
    let sensors = sensor_names(alloc, sections.sensors.as_slice())?;
    let cells = variable_names(alloc, Section::Cell, &sensors, sections.cells.as_slice())?;
    let tasks = text_names(alloc, Section::Task, sections.tasks.as_slice())?;
    let actuators = text_names(alloc, Section::Actuator, sections.actuators.as_slice())?;
    Ok(NameLists {
        sensors,
        cells,
        tasks,
        actuators,
    })
}

fn sensor_names<'a>(alloc: Global, sensors: &[RawVariable<'a>]) -> Result<NameList<'a>, FileFault>
    requires { length sensors.now ≤ MAX_TASKS }
    ensures { Gives is_file_memory (λ names. names) result
        (spec.names_from section.Sensor [] (raw_names (map variable_view sensors.now))) }
{
    variable_names(alloc, Section::Sensor, &NameList::new(alloc), sensors)
}

// The names of sensors or cells, none of which stands before.
fn variable_names<'a>(
    alloc: Global,
    at: Section,
    before: &NameList<'a>,
    variables: &[RawVariable<'a>],
) -> Result<NameList<'a>, FileFault>
    requires { length variables.now ≤ MAX_TASKS }
    ensures { Gives is_file_memory (λ names. names) result
        (spec.names_from at before.now (raw_names (map variable_view variables.now))) }
{
    let mut names = NameList::new(alloc);
    for (i, variable) in variables.iter().enumerate() {
        if !add_name(before, &mut names, variable.name)? {
            return Err(bad_name(at, i));
        }
    }
    Ok(names)
}

// The names of tasks or actuators.
fn text_names<'a>(
    alloc: Global,
    at: Section,
    texts: &[RawText<'a>],
) -> Result<NameList<'a>, FileFault>
    requires { length texts.now ≤ MAX_TASKS }
    ensures { Gives is_file_memory (λ names. names) result
        (spec.names_from at [] (text_names (map text_view texts.now))) }
{
    let mut names = NameList::new(alloc);
    for (i, text) in texts.iter().enumerate() {
        if !names.add(text.name)? {
            return Err(bad_name(at, i));
        }
    }
    Ok(names)
}

fn bad_name(at: Section, index: usize) -> FileFault
    requires { index ≤ MAX_TASKS }
    ensures { result ≡ spec.bad_name at index }
{
    FileFault::BadName {
        path: of_table_key(at, index as u32, Key::Name),
    }
}

// Adds the name that a text is, where it stands in neither list, and tells whether it did.
fn add_name<'a>(
    before: &NameList<'a>,
    names: &mut NameList<'a>,
    text: &'a str,
) -> Result<bool, Memory>
    ensures new { IfOk result (λ new. new ≡ spec.is_new_name (before.now ++ names.old) text.now) }
    ensures names { IfOk result
        (λ new. names.new ≡ (if new then names.old ++ text.now ∷ [] else names.old)) }
{
    if before.has(text) {
        return Ok(false);
    }
    names.add(text)
}
