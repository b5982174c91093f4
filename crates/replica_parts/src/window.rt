//! When a replica hears in a frame.
//! After NASA TM-104196.
ghost use Rattle.std.specs.Prelude.{◌≡◌, ◌<◌, ◌≤◌, ℕ};
ghost use Rattle.rcp_base.specs.declared.TheConstants.{MAX_FRAMES};
ghost use Rattle.rcp_model.specs.declared.plan.PlanParts.{PlanParts};
ghost use Rattle.rcp_model.specs.FrameRows.{FrameRows, rate_of, skew_of};
ghost use Rattle.rcp_model.specs.Moments.{is_in_window};
ghost use Rattle.replica_parts.specs.Windows.{IsWindowOf};
ghost use Rattle.replica_parts.specs.Setting.{HasPlanWith, IsSettingOf};

use crate::setting::Setting;
use clock_model::{begin, vote};
use layer_stack::FrameIn;

/// The ticks from a replica's begin to its vote in a frame, both included.
#[derive(Clone, Copy, Debug)]
pub struct Window {
    opens: i64,
    closes: i64,
}

impl Window {
    /// The window of a replica.
    pub fn new(setting: &Setting, frame: u32, input: &FrameIn, replica: u32) -> Window
        requires of { HasPlanWith setting.now input.now }
        requires frame { frame ≤ MAX_FRAMES }
        requires replica { replica < setting.now.replicas }
        ensures { (plan : PlanParts) → IsSettingOf plan setting.now
            → IsWindowOf plan frame input.now replica result }
    {
        let skew = input.skew(replica);
        let rate = input.rate(replica);
        Window {
            opens: begin(&setting.timing, frame, skew),
            closes: vote(&setting.timing, frame, skew, rate),
        }
    }

    /// Whether a tick is in it.
    #[tactic(auto, unfolding(rcp_model::specs::Moments::is_in_window))]
    pub(crate) fn has(&self, tick: i64) -> bool
        ensures { (plan : PlanParts) (frame : ℕ) (rows : FrameRows) (replica : ℕ)
            → IsWindowOf plan frame rows replica self.now → result
            ≡ is_in_window plan.timing frame (skew_of rows replica) (rate_of rows replica) tick }
    {
        self.opens <= tick && tick <= self.closes
    }
}
