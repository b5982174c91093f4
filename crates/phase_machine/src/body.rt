//! What a replica owns through all phases of a frame.
//! This project's own.
ghost use Rattle.std.specs.Prelude.{◌≡◌, ◌<◌, false, IfOk, None, length, replicate};
ghost use Rattle.mailbox.specs.Mailboxes.{box_of};
ghost use Rattle.rcp_base.specs.Tables.{table};
ghost use Rattle.rcp_model.specs.System.{initial_state};
ghost use Rattle.phase_machine.specs.Body.{IsBodyOf};

use mailbox::{Boxes, Message};
use rcp_base::Memory;
use rcp_model::Plan;
use replica_parts::{Ballot, Held, Setting, vote_places};
use std::alloc::Global;

/// All that a replica owns. Its phase tells what of it counts.
#[derive(Debug, Drop)]
pub(crate) struct Body {
    pub(crate) setting: Setting,
    // Its number.
    pub(crate) replica: u32,
    pub(crate) held: Held,
    pub(crate) computed: Held,
    pub(crate) own: Message,
    pub(crate) boxes: Boxes,
    // What it heard and voted.
    pub(crate) ballot: Ballot,
    // By actuator.
    pub(crate) commands: Vec<Option<i64>>,
    // For one vote.
    pub(crate) places: Vec<Option<i64>>,
}

impl Body {
    /// The body of a replica of a plan before the first frame.
    pub(crate) fn new(alloc: Global, plan: &Plan, replica: u32) -> Result<Body, Memory>
        requires { replica < plan.now.replicas }
        ensures body { IfOk result (IsBodyOf plan.now replica) }
        ensures held { IfOk result (λ body.
            body.held ≡ (initial_state plan.now).replicas replica) }
        ensures boxes { IfOk result (λ body. box_of body.boxes ≡ (λ sender. None)) }
        ensures voted { IfOk result (λ body. body.ballot.up ≡ false) }
        ensures commands { IfOk result (λ body. body.commands.items
            ≡ table (length plan.now.actuators) (λ actuator. None)) }
    {
        let setting = Setting::new(alloc, plan)?;
        let cells = plan.parts().cells.as_slice();
        let own = Message::new(alloc, setting.cells())?;
        let boxes = Boxes::new(alloc, setting.replicas(), setting.cells())?;
        let ballot = Ballot::new(alloc, &setting)?;
        let commands = no_commands(alloc, &setting)?;
        let places = vote_places(alloc, &setting)?;
        Ok(Body {
            setting,
            replica,
            held: Held::new(alloc, cells)?,
            computed: Held::new(alloc, cells)?,
            own,
            boxes,
            ballot,
            commands,
            places,
        })
    }
}

// A place for the command of each actuator, without one.
fn no_commands(alloc: Global, setting: &Setting) -> Result<Vec<Option<i64>>, Memory>
    ensures { IfOk result (λ commands. commands.items ≡ replicate setting.now.actuators None) }
{
    Ok(vec![in alloc; None; setting.actuators() as usize]?)
}
