//! What is still on its way after a frame.
//! After NASA TM-104196.
ghost use Rattle.std.specs.Prelude.{◌≡◌, ◌<◌, ◌+◌, ◌*ℤ◌, ◌-ℤ◌, ℤ, pos, ℕ, map};
ghost use Rattle.rcp_base.specs.declared.TheConstants.{MAX_FRAMES};
ghost use Rattle.rcp_model.specs.declared.plan.PlanParts.{PlanParts};
ghost use Rattle.rcp_model.specs.System.{still_on_its_way};
ghost use Rattle.rcp_model.specs.TimingRules.{frame_length};
ghost use Rattle.replica_parts.specs.Places.{letter_in, letter_rows, letters_in};
ghost use Rattle.replica_parts.specs.Rooms.{ArePostRows, ArePosts};
ghost use Rattle.replica_parts.specs.Setting.{HasPlan, IsSettingOf};

use crate::post::Post;
use crate::setting::Setting;
use clock_model::begin;

/// The tick at which the events of a frame end.
pub fn end_tick(setting: &Setting, frame: u32) -> i64
    requires of { HasPlan setting.now }
    requires frame { frame < MAX_FRAMES }
    ensures { (plan : PlanParts) → IsSettingOf plan setting.now
        → result ≡ pos (frame + 1) *ℤ frame_length plan.timing -ℤ plan.timing.skew_limit }
{
    begin(&setting.timing, frame + 1, -setting.timing.skew_limit)
}

// Leaves a letter where it arrives no sooner than a tick.
#[tactic(auto, unfolding(rcp_model::specs::System::still_on_its_way))]
fn keep(end: i64, place: &mut Post)
    ensures letter { (plan : PlanParts) (frame : ℕ)
        → end ≡ pos (frame + 1) *ℤ frame_length plan.timing -ℤ plan.timing.skew_limit
        → letter_in place.new ≡ still_on_its_way plan frame (letter_in place.old) }
    ensures message { place.new.message ≡ place.old.message }
{
    place.present = place.present && end <= place.arrival;
}

/// Leaves the letters to one receiver that arrive no sooner than the end of a frame's events. Takes no memory.
pub fn keep_row(setting: &Setting, end: i64, row: &mut Vec<Post>)
    requires { ArePosts setting.now row.old.items }
    ensures letters { (plan : PlanParts) (frame : ℕ)
        → end ≡ pos (frame + 1) *ℤ frame_length plan.timing -ℤ plan.timing.skew_limit
        → letters_in row.new.items ≡ map (still_on_its_way plan frame) (letters_in row.old.items) }
    ensures room { ArePosts setting.now row.new.items }
{
    for sender in 0..setting.replicas {
        keep(end, &mut row[sender as usize]);
    }
}

/// Leaves all letters that are still on their way when the events of a frame end. Takes no memory.
pub fn keep_all(setting: &Setting, frame: u32, rows: &mut Vec<Vec<Post>>)
    requires of { HasPlan setting.now }
    requires frame { frame < MAX_FRAMES }
    requires room { ArePostRows setting.now rows.old.items }
    ensures letters { (plan : PlanParts) → IsSettingOf plan setting.now
        → letter_rows rows.new.items
        ≡ map (map (still_on_its_way plan frame)) (letter_rows rows.old.items) }
    ensures room { ArePostRows setting.now rows.new.items }
{
    let end = end_tick(setting, frame);
    for receiver in 0..setting.replicas {
        keep_row(setting, end, &mut rows[receiver as usize]);
    }
}
