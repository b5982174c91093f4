//! Where the rows of the frames come from.
//! This project's own.
use crate::frame_in::FrameIn;

/// The rows of at most 1,000,000 frames, one frame after the other.
///
/// `tells` says of which plan they are and which rows of all frames, the oldest first, and `done` how many frames are done.
pub trait Inputs {
    ghost use Rattle.std.specs.Prelude.{◌≡◌, ℕ, suc, length, slice_get, Some};
    ghost use Rattle.rcp_model.specs.declared.plan.PlanParts.{PlanParts};
    ghost use Rattle.rcp_model.specs.History.{History};
    ghost use Rattle.layer_stack.specs.Inputs.{CanFill};

    ghost tells: { Self → PlanParts → History → Type 0 };

    ghost done: { Self → ℕ };

    /// How many frames there are.
    fn frames(&self) -> u32
        ensures { (plan : PlanParts) (history : History)
            → tells self.now plan history → result ≡ length history };

    /// How many of them are done.
    fn done(&self) -> u32
        ensures { result ≡ done self.now };

    /// Fills in the rows of the next frame, which is then done. Takes no memory.
    fn fill(&mut self, input: &mut FrameIn)
        requires ready { (plan : PlanParts) × (history : History)
            × tells self.old plan history × CanFill plan history (done self.old) input.old }
        ensures rows { (plan : PlanParts) (history : History) → tells self.old plan history
            → CanFill plan history (done self.old) input.old
            → slice_get history (done self.old) ≡ Some input.new }
        ensures history { (plan : PlanParts) (history : History)
            → tells self.old plan history → tells self.new plan history }
        ensures done { done self.new ≡ suc (done self.old) };
}
