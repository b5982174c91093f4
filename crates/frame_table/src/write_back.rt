//! Puts a task's results into the cells.
//! This project's own.
ghost use Rattle.std.specs.Prelude.{◌≡◌, ◌≤◌, length, slice_set};
ghost use Rattle.frame_table.specs.Tasks.{written_back};

/// Puts values into the cells that they go to; where one is named twice, the first value stands.
pub fn write_back(targets: &[u16], values: &[i64], cells: &mut [i64])
    requires { length targets.now ≡ length values.now }
    ensures { cells.new ≡ written_back targets.now values.now cells.old }
{
    for i in (0..targets.len()).rev() {
        put(cells, targets[i], values[i]);
    }
}

// A cell that isn't there is left out.
#[tactic(auto, using(std::proofs::lemmas::List::set_past))]
fn put(cells: &mut [i64], target: u16, value: i64)
    ensures { cells.new ≡ slice_set cells.old target value }
{
    let target = target as usize;
    if target < cells.len() {
        cells[target] = value;
    }
}
