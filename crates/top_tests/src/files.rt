//! Task files of the tests beside the example plans, and a journal.
//! This project's own.
use crate::case::replaced;
use example_plans::{COUNTER, MOTOR, PITCH};
use std::alloc::Global;
use std::test::Fail;

/// A position loop of two cells.
pub const POSITION: &str = r#"replicas = 1
timing = { compute = 30000, broadcast = 10000, vote = 4000, sync = 6000, skew = 50, drift_ppm = 100, delay_min = 100, delay_max = 2000, skew_limit = 500, drift_limit_ppm = 500 }
sensor = [{ name = "cmd", initial = 0 }]
cell = [{ name = "pos", initial = 0 }, { name = "err", initial = 0 }]
task = [{ name = "sense", body = "err := cmd - pos;" }, { name = "move", body = "pos := pos + err;" }]
slot = [{ tasks = ["sense"], votes = [] }, { tasks = ["move"], votes = ["pos"] }]
actuator = [{ name = "motor", value = "pos + (err - 1)" }]
"#;

/// A journal of two frames without a fault.
pub const TWO_FRAMES: &str = "frame,kind,a,b,c,d\n2,end,,,,\n";

/// The task file with this name.
pub fn file_named(name: &str) -> Option<&'static str> {
    match name {
        "counter" => Some(COUNTER),
        "motor" => Some(MOTOR),
        "pitch" => Some(PITCH),
        "position" => Some(POSITION),
        _ => None,
    }
}

/// The counter with a body that sets its cell to 1, in so many brackets.
pub fn in_brackets(alloc: Global, count: usize) -> Result<String, Fail> {
    let open = "(".repeat(alloc, count)?;
    let close = ")".repeat(alloc, count)?;
    let body = format!(in alloc; "n := {}1{};", open.as_str(), close.as_str())?;
    replaced(alloc, COUNTER, "n := n + 1;", body.as_str())
}
