//! The places that a layer needs, made once.
//! This project's own.
ghost use Rattle.std.specs.Prelude.{◌≡◌, None, IfOk, length, replicate};
ghost use Rattle.rcp_base.specs.Tables.{table};
ghost use Rattle.rcp_model.specs.declared.plan.PlanParts.{PlanParts};
ghost use Rattle.rcp_model.specs.Plan.{IsPlan};
ghost use Rattle.rcp_model.specs.System.{initial_state};
ghost use Rattle.replica_parts.specs.Ballots.{AreBallots};
ghost use Rattle.replica_parts.specs.Places as places;
ghost use Rattle.replica_parts.specs.Places.{letter_rows, letters_in};
ghost use Rattle.replica_parts.specs.Rooms.{AreCommandRows, AreMessages, ArePostRows, ArePosts, AreStates, AreVotePlaces, HaveBallotRoom};
ghost use Rattle.replica_parts.specs.Setting.{IsSettingOf};
ghost use Rattle.replica_parts.specs.declared.setting.Setting.{Setting};

use crate::ballot::Ballot;
use crate::held::Held;
use crate::post::Post;
use crate::setting::Setting;
use mailbox::Message;
use rcp_base::Memory;
use rcp_model::{Plan, PlanParts};
use std::alloc::Global;

/// What the replicas of a plan hold before the first frame.
pub fn initial_states(alloc: Global, plan: &Plan) -> Result<Vec<Held>, Memory>
    ensures held { IfOk result (λ held.
        held.items ≡ table plan.now.replicas (initial_state plan.now).replicas) }
    ensures room { IfOk result (λ held. (setting : Setting) → IsSettingOf plan.now setting
        → AreStates setting held.items) }
{
    states_of(alloc, plan.parts())
}

// What the replicas of these parts hold before the first frame.
fn states_of(alloc: Global, parts: &PlanParts) -> Result<Vec<Held>, Memory>
    ensures held { IfOk result (λ held.
        held.items ≡ table parts.now.replicas (initial_state parts.now).replicas) }
    ensures room { IfOk result (λ held. (setting : Setting) → IsSettingOf parts.now setting
        → AreStates setting held.items) }
{
    let mut held = Vec::new(alloc);
    for _replica in 0..parts.replicas {
        held.push(Held::new(alloc, parts.cells.as_slice())?)?;
    }
    Ok(held)
}

/// A message for each replica.
pub fn messages(alloc: Global, setting: &Setting) -> Result<Vec<Message>, Memory>
    ensures { IfOk result (λ messages. AreMessages setting.now messages.items) }
{
    let mut messages = Vec::new(alloc);
    for _replica in 0..setting.replicas {
        messages.push(Message::new(alloc, setting.cells)?)?;
    }
    Ok(messages)
}

// Places for letters to one receiver, without one.
fn post_row(alloc: Global, setting: &Setting) -> Result<Vec<Post>, Memory>
    ensures none { IfOk result (λ row.
        letters_in row.items ≡ table setting.now.replicas (λ sender. None)) }
    ensures room { IfOk result (λ row. ArePosts setting.now row.items) }
{
    let mut row = Vec::new(alloc);
    for _sender in 0..setting.replicas {
        row.push(Post::new(alloc, setting.cells)?)?;
    }
    Ok(row)
}

/// Places for letters, by receiver and sender, without one.
pub fn post_rows(alloc: Global, setting: &Setting) -> Result<Vec<Vec<Post>>, Memory>
    ensures none { IfOk result (λ rows. (plan : PlanParts) → IsSettingOf plan setting.now
        → letter_rows rows.items
        ≡ table plan.replicas (λ receiver. table plan.replicas (λ sender. None))) }
    ensures room { IfOk result (λ rows. ArePostRows setting.now rows.items) }
{
    let mut rows = Vec::new(alloc);
    for _receiver in 0..setting.replicas {
        rows.push(post_row(alloc, setting)?)?;
    }
    Ok(rows)
}

/// A ballot for each replica, without a vote.
pub fn ballots(alloc: Global, setting: &Setting) -> Result<Vec<Ballot>, Memory>
    ensures none { IfOk result (λ ballots. (plan : PlanParts) → IsSettingOf plan setting.now
        → AreBallots plan.replicas ballots.items (λ replica. None)) }
    ensures room { IfOk result (λ ballots. HaveBallotRoom setting.now ballots.items) }
{
    let mut ballots = Vec::new(alloc);
    for _replica in 0..setting.replicas {
        ballots.push(Ballot::new(alloc, setting)?)?;
    }
    Ok(ballots)
}

// Places for the commands of one replica, without one.
fn command_row(alloc: Global, setting: &Setting) -> Result<Vec<Option<i64>>, Memory>
    ensures { IfOk result (λ row. row.items ≡ replicate setting.now.actuators None) }
{
    Ok(vec![in alloc; None; setting.actuators as usize]?)
}

/// Places for commands, by replica and actuator, without one.
pub fn command_rows(alloc: Global, setting: &Setting) -> Result<Vec<Vec<Option<i64>>>, Memory>
    ensures none { IfOk result (λ rows. (plan : PlanParts) → IsSettingOf plan setting.now
        → places.command_rows rows.items
        ≡ table plan.replicas (λ replica. table (length plan.actuators) (λ actuator. None))) }
    ensures room { IfOk result (λ rows. AreCommandRows setting.now rows.items) }
{
    let mut rows = Vec::new(alloc);
    for _replica in 0..setting.replicas {
        rows.push(command_row(alloc, setting)?)?;
    }
    Ok(rows)
}

/// A place for a vote of each replica.
pub fn vote_places(alloc: Global, setting: &Setting) -> Result<Vec<Option<i64>>, Memory>
    ensures { IfOk result (λ places. AreVotePlaces setting.now places.items) }
{
    Ok(vec![in alloc; None; setting.replicas as usize]?)
}
