//! Which journal is asked for.
//! This project's own.
ghost use Rattle.std.specs.Prelude.{◌≤◌};
ghost use Rattle.rcp_base.specs.declared.TheConstants.{MAX_FRAMES};

/// Which journal is asked for.
#[derive(Clone, Copy)]
pub struct JournalRequest {
    /// The number that gives it.
    pub number: u64,
    /// How many frames it has.
    pub frames: u32,
    ghost some: { 1 ≤ frames },
    ghost few: { frames ≤ MAX_FRAMES },
}
