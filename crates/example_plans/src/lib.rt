//! Plans that tests run, read from their texts: a motor, a counter and a pitch controller.
//! This project's own.
#![tactic(auto)]

ghost use Rattle.rcp_base.specs.Answers.{Gives};
ghost use Rattle.task_file.specs.Fault.{is_file_memory};
ghost use Rattle.task_file.specs.TaskFile.{task_file_result};

use rcp_model::Plan;
use std::alloc::Global;
use task_file::{FileFault, read_plan};

/// A position loop: one sensor, three cells and two slots, each of which votes one cell. Its recovery length is three.
pub const MOTOR: &str = r#"replicas = 3
timing = { compute = 30000, broadcast = 10000, vote = 4000, sync = 6000, skew = 50, drift_ppm = 100, delay_min = 100, delay_max = 2000, skew_limit = 500, drift_limit_ppm = 500 }
sensor = [
  { name = "cmd", initial = 0 },
]
cell = [
  { name = "pos", initial = 0 },
  { name = "err", initial = 0 },
  { name = "sum", initial = 0 },
]
task = [
  { name = "sense", body = "err := cmd - pos;" },
  { name = "integrate", body = "sum := clamp(sum + err, -100, 100);" },
  { name = "move", body = "pos := pos + sum / 2;" },
]
slot = [
  { tasks = ["sense", "integrate"], votes = ["sum"] },
  { tasks = ["move"], votes = ["pos"] },
]
actuator = [
  { name = "motor", value = "sum" },
]
"#;

/// One cell, which counts the frames and is voted in each. Its recovery length is one.
pub const COUNTER: &str = r#"replicas = 3
timing = { compute = 30000, broadcast = 10000, vote = 4000, sync = 6000, skew = 50, drift_ppm = 100, delay_min = 100, delay_max = 2000, skew_limit = 500, drift_limit_ppm = 500 }
cell = [
  { name = "n", initial = 0 },
]
task = [
  { name = "count", body = "n := n + 1;" },
]
slot = [
  { tasks = ["count"], votes = ["n"] },
]
actuator = [
  { name = "out", value = "n" },
]
"#;

/// A pitch control law: two sensors, five cells and four slots, two of which vote one cell. Its recovery length is ten.
pub const PITCH: &str = r#"replicas = 4
timing = { compute = 30000, broadcast = 10000, vote = 4000, sync = 6000, skew = 50, drift_ppm = 100, delay_min = 100, delay_max = 2000, skew_limit = 500, drift_limit_ppm = 500 }
sensor = [
  { name = "rate", initial = 0 },
  { name = "stick", initial = 0 },
]
cell = [
  { name = "q", initial = 0 },
  { name = "ref", initial = 0 },
  { name = "trim", initial = 0 },
  { name = "mode", initial = 0 },
  { name = "out", initial = 0 },
]
task = [
  { name = "filter", body = "let d = rate - q; q := q + d / 4;" },
  { name = "shape", body = "ref := clamp(stick * 3, -900, 900);" },
  { name = "law", body = "out := clamp((ref - q) * 2 + trim, -3000, 3000);" },
  { name = "moder", body = "mode := if(abs(stick) < 5, 1, 0);" },
  { name = "trimmer", body = "trim := if(mode == 1, clamp(trim + (ref - q) / 8, -500, 500), 0);" },
]
slot = [
  { tasks = ["filter", "shape"], votes = ["q"] },
  { tasks = ["filter", "law"], votes = [] },
  { tasks = ["filter", "moder"], votes = ["trim"] },
  { tasks = ["filter", "trimmer"], votes = [] },
]
actuator = [
  { name = "elevator", value = "out" },
]
"#;

/// The plan of the motor.
pub fn motor(alloc: Global) -> Result<Plan, FileFault>
    ensures { Gives is_file_memory (λ plan. plan) result (task_file_result MOTOR.now) }
{
    read_plan(alloc, MOTOR.as_bytes())
}

/// The plan of the counter.
pub fn counter(alloc: Global) -> Result<Plan, FileFault>
    ensures { Gives is_file_memory (λ plan. plan) result (task_file_result COUNTER.now) }
{
    read_plan(alloc, COUNTER.as_bytes())
}

/// The plan of the pitch controller.
pub fn pitch(alloc: Global) -> Result<Plan, FileFault>
    ensures { Gives is_file_memory (λ plan. plan) result (task_file_result PITCH.now) }
{
    read_plan(alloc, PITCH.as_bytes())
}
