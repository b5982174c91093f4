//! A piece of a line.
//! This project's own.

use task_file::Path;

/// A piece of a line.
#[derive(Clone, Copy)]
pub enum Piece<'a> {
    Text(&'a [u8]),
    Count(u64),
    /// A place in a task file.
    Place(Path),
}
