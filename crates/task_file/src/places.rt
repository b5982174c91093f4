//! Paths to the places that readers look at.
//! This project's own.
ghost use Rattle.std.specs.Prelude.{◌≡◌};
ghost use Rattle.task_file.specs.Places as spec;

use crate::path::{Key, Path, Section};

/// A section.
pub fn of_section(section: Section) -> Path
    ensures { result ≡ spec.of_section section }
{
    Path {
        section,
        index: None,
        key: None,
        item: None,
    }
}

/// A key of a section that is a table.
pub fn of_key(section: Section, key: Key) -> Path
    ensures { result ≡ spec.of_key section key }
{
    Path {
        section,
        index: None,
        key: Some(key),
        item: None,
    }
}

/// A table of a section.
pub fn of_table(section: Section, i: u32) -> Path
    ensures { result ≡ spec.of_table section i }
{
    Path {
        section,
        index: Some(i),
        key: None,
        item: None,
    }
}

/// A key of a table of a section.
pub fn of_table_key(section: Section, i: u32, key: Key) -> Path
    ensures { result ≡ spec.of_table_key section i key }
{
    Path {
        section,
        index: Some(i),
        key: Some(key),
        item: None,
    }
}

/// An entry of the list at a key of a table of a section.
pub fn of_entry(section: Section, i: u32, key: Key, j: u32) -> Path
    ensures { result ≡ spec.of_entry section i key j }
{
    Path {
        section,
        index: Some(i),
        key: Some(key),
        item: Some(j),
    }
}
