//! Letters on their way, in places by receiver and sender.
//! This project's own.
ghost use Rattle.std.specs.Prelude.{◌≡◌, ◌<◌, ◌≤◌, IfSome, None};
ghost use Rattle.rcp_base.specs.declared.TheConstants.{MAX_FRAMES};
ghost use Rattle.rcp_model.specs.declared.plan.PlanParts.{PlanParts};
ghost use Rattle.rcp_model.specs.Messages.{letter_to};
ghost use Rattle.replica_parts.specs.Places.{post_at};
ghost use Rattle.replica_parts.specs.Quiet.{IsQuietArrival};
ghost use Rattle.replica_parts.specs.Rooms.{ArePostRows, HasRoom};
ghost use Rattle.replica_parts.specs.Setting.{HasPlanWith, IsSettingOf};
ghost use Rattle.clocked_layer.specs.Block.{put_column, put_pair};

use layer_stack::FrameIn;
use mailbox::Message;
use replica_parts::{Post, Setting, put_letter, quiet_arrival};

// Puts what goes out from a sender to one receiver on its way, with the tick at which all arrive where
// there is one.
fn post_to(
    setting: &Setting,
    frame: u32,
    input: &FrameIn,
    arrival: Option<i64>,
    own: &Message,
    sender: u32,
    receiver: u32,
    letters: &mut Vec<Vec<Post>>,
)
    requires of { HasPlanWith setting.now input.now }
    requires frame { frame ≤ MAX_FRAMES }
    requires arrival { IfSome arrival (IsQuietArrival setting.now frame input.now) }
    requires sender { sender < setting.now.replicas }
    requires receiver { receiver < setting.now.replicas }
    requires own { HasRoom setting.now own.now }
    requires room { ArePostRows setting.now letters.old.items }
    ensures letters { (plan : PlanParts) → IsSettingOf plan setting.now
        → post_at letters.new.items ≡ put_pair (post_at letters.old.items) receiver sender
        (letter_to plan frame input.now own.now sender receiver) }
    ensures room { ArePostRows setting.now letters.new.items }
{
    put_letter(
        setting,
        frame,
        input,
        arrival,
        own,
        sender,
        receiver,
        &mut letters[receiver as usize][sender as usize],
    );
}

/// Puts what goes out from a sender of this message on its way. Takes no memory.
pub(crate) fn post(
    setting: &Setting,
    frame: u32,
    input: &FrameIn,
    own: &Message,
    sender: u32,
    letters: &mut Vec<Vec<Post>>,
)
    requires of { HasPlanWith setting.now input.now }
    requires frame { frame ≤ MAX_FRAMES }
    requires sender { sender < setting.now.replicas }
    requires own { HasRoom setting.now own.now }
    requires room { ArePostRows setting.now letters.old.items }
    ensures letters { (plan : PlanParts) → IsSettingOf plan setting.now
        → post_at letters.new.items ≡ put_column (post_at letters.old.items) sender
        (letter_to plan frame input.now own.now sender) }
    ensures room { ArePostRows setting.now letters.new.items }
{
    let arrival = quiet_arrival(setting, frame, input);
    for receiver in 0..setting.replicas() {
        post_to(
            setting, frame, input, arrival, own, sender, receiver, letters,
        );
    }
}

/// Takes a letter away. Takes no memory.
pub(crate) fn remove(setting: &Setting, letters: &mut Vec<Vec<Post>>, receiver: u32, sender: u32)
    requires receiver { receiver < setting.now.replicas }
    requires sender { sender < setting.now.replicas }
    requires room { ArePostRows setting.now letters.old.items }
    ensures letters { post_at letters.new.items
        ≡ put_pair (post_at letters.old.items) receiver sender None }
    ensures room { ArePostRows setting.now letters.new.items }
{
    letters[receiver as usize][sender as usize].present = false;
}
