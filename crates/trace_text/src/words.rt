//! The words of a place in a task file.
//! This project's own.
ghost use Rattle.std.specs.Prelude.{◌≡◌, ◌≤◌, length};
ghost use Rattle.task_file.specs.PathText as spec;

use task_file::{Key, Section};

/// The word of a section.
pub fn section_word(section: Section) -> &'static [u8]
    ensures word { result.now ≡ spec.section_word section }
    ensures short { length result.now ≤ 14 }
{
    match section {
        Section::Format => b"format",
        Section::Replicas => b"replicas",
        Section::RecoveryLimit => b"recovery_limit",
        Section::Timing => b"timing",
        Section::Sensor => b"sensor",
        Section::Cell => b"cell",
        Section::Task => b"task",
        Section::Slot => b"slot",
        Section::Actuator => b"actuator",
        Section::Unknown => b"?",
    }
}

/// The word of a key.
pub fn key_word(key: Key) -> &'static [u8]
    ensures word { result.now ≡ spec.key_word key }
    ensures short { length result.now ≤ 15 }
{
    match key {
        Key::Compute => b"compute",
        Key::Broadcast => b"broadcast",
        Key::Vote => b"vote",
        Key::Sync => b"sync",
        Key::Skew => b"skew",
        Key::DriftPpm => b"drift_ppm",
        Key::DelayMin => b"delay_min",
        Key::DelayMax => b"delay_max",
        Key::SkewLimit => b"skew_limit",
        Key::DriftLimitPpm => b"drift_limit_ppm",
        Key::Name => b"name",
        Key::Initial => b"initial",
        Key::Body => b"body",
        Key::Tasks => b"tasks",
        Key::Votes => b"votes",
        Key::Value => b"value",
        Key::Unknown => b"?",
    }
}
