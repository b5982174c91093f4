//! The text of a place in a task file: `slot[0].tasks[1]`, as far as the place goes.
//! This project's own.
ghost use Rattle.std.specs.Prelude.{◌≡◌, IfOk};
ghost use Rattle.task_file.specs.PathText as spec;

use crate::path::{Key, Path, Section};
use rcp_base::Memory;
use std::alloc::Global;
use std::fmt;

/// The text of a place, as `Display` writes it.
pub fn path_text(alloc: Global, path: &Path) -> Result<Vec<u8>, Memory>
    ensures { IfOk result (λ text. text.items ≡ spec.path_text path.now) }
{
    Ok(path.to_string(alloc)?.into_bytes())
}

impl fmt::Display for Path {
    ghost use Rattle.std.specs.Prelude.{Some};
    ghost use Rattle.task_file.specs.PathText.{path_text};

    ghost output = { λ path. Some (path_text path) };

    fn fmt<W: fmt::Write>(&self, f: &mut fmt::Formatter<W>) -> fmt::Result {
        let section = self.section;
        let index = Bracketed(self.index);
        let key = Dotted(self.key);
        let item = Bracketed(self.item);
        write!(f, "{section}{index}{key}{item}")
    }
}

impl fmt::Display for Section {
    ghost use Rattle.std.specs.Prelude.{Some};
    ghost use Rattle.task_file.specs.PathText.{section_word};

    ghost output = { λ section. Some (section_word section) };

    fn fmt<W: fmt::Write>(&self, f: &mut fmt::Formatter<W>) -> fmt::Result {
        f.write_str(section_word(self))
    }
}

impl fmt::Display for Key {
    ghost use Rattle.std.specs.Prelude.{Some};
    ghost use Rattle.task_file.specs.PathText.{key_word};

    ghost output = { λ key. Some (key_word key) };

    fn fmt<W: fmt::Write>(&self, f: &mut fmt::Formatter<W>) -> fmt::Result {
        f.write_str(key_word(self))
    }
}

// A number in brackets, where there is one.
#[derive(Clone, Copy)]
struct Bracketed(Option<u32>);

impl fmt::Display for Bracketed {
    ghost use Rattle.std.specs.Prelude.{Some};
    ghost use Rattle.task_file.specs.PathText.{bracketed};

    ghost output = { λ number. Some (bracketed number.0) };

    fn fmt<W: fmt::Write>(&self, f: &mut fmt::Formatter<W>) -> fmt::Result {
        match self.0 {
            Some(number) => write!(f, "[{number}]"),
            None => Ok(()),
        }
    }
}

// A key after a dot, where there is one.
#[derive(Clone, Copy)]
struct Dotted(Option<Key>);

impl fmt::Display for Dotted {
    ghost use Rattle.std.specs.Prelude.{Some};
    ghost use Rattle.task_file.specs.PathText.{dotted};

    ghost output = { λ key. Some (dotted key.0) };

    fn fmt<W: fmt::Write>(&self, f: &mut fmt::Formatter<W>) -> fmt::Result {
        match self.0 {
            Some(key) => write!(f, ".{key}"),
            None => Ok(()),
        }
    }
}

fn section_word(section: &Section) -> &'static str
    ensures { result.now ≡ spec.section_word section.now }
{
    match section {
        Section::Format => "format",
        Section::Replicas => "replicas",
        Section::RecoveryLimit => "recovery_limit",
        Section::Timing => "timing",
        Section::Sensor => "sensor",
        Section::Cell => "cell",
        Section::Task => "task",
        Section::Slot => "slot",
        Section::Actuator => "actuator",
        Section::Unknown => "?",
    }
}

fn key_word(key: &Key) -> &'static str
    ensures { result.now ≡ spec.key_word key.now }
{
    match key {
        Key::Compute => "compute",
        Key::Broadcast => "broadcast",
        Key::Vote => "vote",
        Key::Sync => "sync",
        Key::Skew => "skew",
        Key::DriftPpm => "drift_ppm",
        Key::DelayMin => "delay_min",
        Key::DelayMax => "delay_max",
        Key::SkewLimit => "skew_limit",
        Key::DriftLimitPpm => "drift_limit_ppm",
        Key::Name => "name",
        Key::Initial => "initial",
        Key::Body => "body",
        Key::Tasks => "tasks",
        Key::Votes => "votes",
        Key::Value => "value",
        Key::Unknown => "?",
    }
}
