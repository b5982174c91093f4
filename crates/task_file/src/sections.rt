//! What the sections of a document give, before names, texts and slots are looked at.
//! This project's own.
use rcp_base::List;
use rcp_model::Timing;

/// The lengths of a frame's four phases.
#[derive(Clone, Copy)]
pub struct Phases {
    pub compute: i64,
    pub broadcast: i64,
    pub vote: i64,
    pub sync: i64,
}

/// The bounds on clocks and messages.
#[derive(Clone, Copy)]
pub struct Bounds {
    pub skew: i64,
    pub drift_ppm: i64,
    pub delay_min: i64,
    pub delay_max: i64,
    pub skew_limit: i64,
    pub drift_limit_ppm: i64,
}

/// What stands before the lists of a document; `second` says that it is of format 2.
#[derive(Clone, Copy)]
pub struct Settings {
    pub second: bool,
    pub replicas: i64,
    pub limit: Option<i64>,
    pub timing: Timing,
}

/// A text for a name, an initial value, and whether the median votes it.
#[derive(Clone, Copy)]
pub struct RawVariable<'a> {
    pub name: &'a str,
    pub initial: i64,
    pub median: bool,
}

/// A text for a name, and a text of the task language.
#[derive(Clone, Copy)]
pub struct RawText<'a> {
    pub name: &'a str,
    pub text: &'a str,
}

/// Texts for the names of a slot's tasks and votes.
#[derive(Drop)]
pub struct RawSlot<'a> {
    pub tasks: List<&'a str>,
    pub votes: List<&'a str>,
}

/// The sections of a document.
#[derive(Drop)]
pub struct Sections<'a> {
    pub replicas: i64,
    pub limit: Option<i64>,
    pub timing: Timing,
    pub sensors: List<RawVariable<'a>>,
    pub cells: List<RawVariable<'a>>,
    pub tasks: List<RawText<'a>>,
    pub slots: List<RawSlot<'a>>,
    pub actuators: List<RawText<'a>>,
}
