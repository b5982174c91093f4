//! For how many frames each replica has been healthy.
//! This project's own.
ghost use Rattle.std.specs.Prelude.{◌≡◌, ◌<◌, ◌≤◌, ◌+◌, ℕ, length, slice_index_or, IfOk, []};
ghost use Rattle.rcp_base.specs.declared.TheConstants.{MAX_REPLICAS};
ghost use Rattle.rcp_model.specs.FrameLimits.{IsFrameOf};
ghost use Rattle.rcp_model.specs.Plan.{IsPlan};
ghost use Rattle.layer_stack.specs.Streaks.{AreStreaks, streaks_after};
ghost use Rattle.layer_stack.specs.Streaks as spec;

use crate::frame_in::FrameIn;
use crate::health::healthy;
use rcp_base::Memory;
use rcp_model::Plan;
use std::alloc::Global;

// Before the first frame, when all frames so far count as healthy.
pub(crate) fn full_streaks(alloc: Global, plan: &Plan, recovery: u32) -> Result<Vec<u64>, Memory>
    ensures streaks { IfOk result (λ streaks. AreStreaks plan.now recovery [] streaks.items) }
    ensures rules { IsPlan plan.now }
{
    let full = u64::from(recovery) + 1;
    Ok(vec![in alloc; full; plan.parts().replicas as usize]?)
}

// One frame more: a healthy replica is counted up to one more than the recovery length, and another anew.
#[tactic(auto, using(rcp_base::proofs::FillLaws::filled_all), unfolding(crate::specs::Streaks::streaks_after))]
pub(crate) fn count_frame(plan: &Plan, input: &FrameIn, recovery: u32, streaks: &mut Vec<u64>)
    requires rows { IsFrameOf plan.now input.now }
    requires size { length streaks.old.items ≡ plan.now.replicas }
    requires small { (replica : ℕ) → replica < plan.now.replicas
        → slice_index_or streaks.old.items replica 0 ≤ recovery + 1 }
    ensures { streaks.new.items ≡ streaks_after plan.now recovery streaks.old.items input.now }
{
    for replica in 0..plan.parts().replicas {
        let is_healthy = healthy(plan, input, replica);
        streaks[replica as usize] = streak_after(recovery, streaks[replica as usize], is_healthy);
    }
}

// For how many frames a replica is then healthy.
fn streak_after(recovery: u32, streak: u64, is_healthy: bool) -> u64
    requires { streak ≤ recovery + 1 }
    ensures { result ≡ spec.streak_after recovery streak is_healthy }
{
    if is_healthy {
        (streak + 1).min(u64::from(recovery) + 1)
    } else {
        0
    }
}

// Whether more than half of the replicas have been healthy for more frames than the recovery length.
#[tactic(auto, unfolding(crate::specs::Streaks::has_healthy_majority))]
pub(crate) fn has_healthy_majority(recovery: u32, streaks: &[u64]) -> bool
    requires { length streaks.now ≤ MAX_REPLICAS }
    ensures { result ≡ spec.has_healthy_majority recovery streaks.now }
{
    let recovery = u64::from(recovery);
    let healthy = streaks.iter().filter(|streak| recovery < **streak).count();
    streaks.len() < 2 * healthy
}
