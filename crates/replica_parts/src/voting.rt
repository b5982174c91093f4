//! What replicas vote of what they heard.
//! After NASA TM-102716.
ghost use Rattle.std.specs.Prelude.{◌≡◌, ◌<◌, ◌≤◌, ℕ, ℤ, true, pos, length, slice_index_or, option_map, IfSome, List, Option, map, nat_eq};
ghost use Rattle.std.specs.Option.{option_and_then};
ghost use Rattle.rcp_base.specs.declared.TheConstants.{MAX_FRAMES, MAX_REPLICAS};
ghost use Rattle.rcp_base.specs.Majority.{voted_value};
ghost use Rattle.rcp_base.specs.Median.{chosen_value};
ghost use Rattle.rcp_model.specs.declared.plan.PlanParts.{PlanParts};
ghost use Rattle.rcp_model.specs.Ballot.{ballot_of, slots_heard, taken_slot, values_heard, voted_cell, voted_cells};
ghost use Rattle.vote_pattern.specs.Votes.{is_in};
ghost use Rattle.replica_parts.specs.Ballots.{AreBallots, IsBallot, IsBallotOrNone, ballot_now, heard_by};
ghost use Rattle.replica_parts.specs.inner.Slots.{AreSlotNumbers, IsSlotNumber};
ghost use Rattle.replica_parts.specs.Places.{letter_at, message_at, message_in, post_at};
ghost use Rattle.replica_parts.specs.Rooms.{AreHeard, AreMessages, ArePostRows, ArePosts, AreStates, AreVotePlaces, HasBallotRoom, HasCells, HasRoom, HaveBallotRoom};
ghost use Rattle.replica_parts.specs.Setting.{HasPlan, HasPlanWith, IsSettingOf};
ghost use Rattle.replica_parts.specs.States.{no_content, no_state};

use crate::agreement::all_agree;
use crate::ballot::{Ballot, Heard};
use crate::hearing::hear_all;
use crate::held::{Held, copy_cells};
use crate::post::Post;
use crate::setting::{Setting, has_vote};
use layer_stack::FrameIn;
use mailbox::Message;
use majority_vote::{majority, median};
use vote_pattern::Pattern;

/// The slot that is taken: the one that the majority of the heard messages names, else one's own. Takes no memory.
#[tactic(auto, unfolding(rcp_model::specs::Ballot::taken_slot))]
pub fn take_slot(setting: &Setting, heard: &[Heard], own: u32, places: &mut Vec<Option<i64>>) -> u32
    requires of { HasPlan setting.now }
    requires heard { AreHeard setting.now heard.now }
    requires places { AreVotePlaces setting.now places.old.items }
    ensures taken { (plan : PlanParts) → IsSettingOf plan setting.now
        → result ≡ taken_slot plan own (message_at heard.now) }
    ensures places { AreVotePlaces setting.now places.new.items }
{
    name_slots(setting, heard, places);
    voted_slot(places.as_slice(), own)
}

// Puts the slots that heard messages name into places.
fn name_slots(setting: &Setting, heard: &[Heard], places: &mut Vec<Option<i64>>)
    requires heard { AreHeard setting.now heard.now }
    requires places { AreVotePlaces setting.now places.old.items }
    ensures slots { (plan : PlanParts) → IsSettingOf plan setting.now
        → places.new.items ≡ map (option_map pos) (slots_heard plan (message_at heard.now)) }
    ensures small { AreSlotNumbers places.new.items }
    ensures places { AreVotePlaces setting.now places.new.items }
{
    for sender in 0..setting.replicas {
        let number = sender as usize;
        places[number] = slot_named(&heard[number]);
    }
}

// The slot that a heard message names, as a vote.
fn slot_named(place: &Heard) -> Option<i64>
    ensures slot { result ≡ option_map (λ message. pos message.slot) (message_in place.now) }
    ensures small { IfSome result IsSlotNumber }
{
    if place.present {
        Some(i64::from(place.message.slot()))
    } else {
        None
    }
}

// The slot of the majority, else one's own.
fn voted_slot(places: &[Option<i64>], own: u32) -> u32
    requires small { AreSlotNumbers places.now }
    ensures { (slots : List (Option ℕ)) → places.now ≡ map (option_map pos) slots
        → result ≡ voted_value nat_eq slots own }
{
    match majority(places) {
        Some(slot) => slot as u32,
        None => own,
    }
}

// What a vote over these places chooses: the median or the majority's value, else one's own.
#[tactic(auto, unfolding(rcp_base::specs::Median::chosen_value, rcp_base::specs::Majority::voted_value))]
fn chosen(is_median: bool, places: &[Option<i64>], own: i64) -> i64
    ensures { result ≡ chosen_value is_median places.now own }
{
    if is_median {
        median(places).unwrap_or(own)
    } else {
        majority(places).unwrap_or(own)
    }
}

/// A cell after the vote, in the slot that was taken. Takes no memory.
#[tactic(auto, unfolding(rcp_model::specs::Ballot::voted_cell))]
pub fn vote_cell(
    setting: &Setting,
    votes: &Pattern,
    taken: u32,
    heard: &[Heard],
    cell: u32,
    computed: i64,
    places: &mut Vec<Option<i64>>,
) -> i64
    requires of { HasPlan setting.now }
    requires cell { cell < setting.now.cells }
    requires heard { AreHeard setting.now heard.now }
    requires places { AreVotePlaces setting.now places.old.items }
    ensures value { (plan : PlanParts) → IsSettingOf plan setting.now → result
        ≡ voted_cell plan (is_in votes.now) taken (message_at heard.now) cell computed }
    ensures places { AreVotePlaces setting.now places.new.items }
{
    if has_vote(votes, taken, cell) {
        name_values(setting, heard, cell, places);
        chosen(setting.is_median(cell), places.as_slice(), computed)
    } else {
        computed
    }
}

// Puts the values that heard messages name for a cell into places.
fn name_values(setting: &Setting, heard: &[Heard], cell: u32, places: &mut Vec<Option<i64>>)
    requires cell { cell < setting.now.cells }
    requires heard { AreHeard setting.now heard.now }
    requires places { AreVotePlaces setting.now places.old.items }
    ensures values { (plan : PlanParts) → IsSettingOf plan setting.now
        → places.new.items ≡ values_heard plan (message_at heard.now) cell }
    ensures places { AreVotePlaces setting.now places.new.items }
{
    for sender in 0..setting.replicas {
        let number = sender as usize;
        places[number] = heard[number].value(cell);
    }
}

/// The cells after the vote, in the slot that was taken. Takes no memory.
#[tactic(auto, unfolding(rcp_model::specs::Ballot::voted_cells))]
pub fn vote_cells(
    setting: &Setting,
    votes: &Pattern,
    taken: u32,
    heard: &[Heard],
    computed: &[i64],
    places: &mut Vec<Option<i64>>,
    cells: &mut Vec<i64>,
)
    requires of { HasPlan setting.now }
    requires heard { AreHeard setting.now heard.now }
    requires computed { length computed.now ≡ setting.now.cells }
    requires cells { length cells.old.items ≡ setting.now.cells }
    requires places { AreVotePlaces setting.now places.old.items }
    ensures cells { (plan : PlanParts) → IsSettingOf plan setting.now → cells.new.items
        ≡ voted_cells plan (is_in votes.now) taken (message_at heard.now) computed.now }
    ensures size { length cells.new.items ≡ setting.now.cells }
    ensures places { AreVotePlaces setting.now places.new.items }
{
    for cell in 0..setting.cells {
        let number = cell as usize;
        cells[number] = vote_cell(setting, votes, taken, heard, cell, computed[number], places);
    }
}

/// The vote of a replica that is up. Takes no memory.
pub fn vote(
    setting: &Setting,
    votes: &Pattern,
    frame: u32,
    input: &FrameIn,
    receiver: u32,
    slot: u32,
    computed: &[i64],
    own: &Message,
    fresh: &[Post],
    late: &[Post],
    places: &mut Vec<Option<i64>>,
    ballot: &mut Ballot,
)
    requires of { HasPlanWith setting.now input.now }
    requires frame { frame ≤ MAX_FRAMES }
    requires receiver { receiver < setting.now.replicas }
    requires computed { length computed.now ≡ setting.now.cells }
    requires own { HasRoom setting.now own.now }
    requires fresh { ArePosts setting.now fresh.now }
    requires late { ArePosts setting.now late.now }
    requires places { AreVotePlaces setting.now places.old.items }
    requires room { HasBallotRoom setting.now ballot.old }
    ensures ballot { (plan : PlanParts) → IsSettingOf plan setting.now → IsBallot plan.replicas
        ballot.new (ballot_of plan (is_in votes.now) slot computed.now
        (heard_by plan frame input.now receiver own.now
        (letter_at fresh.now) (letter_at late.now))) }
    ensures up { ballot.new.up ≡ true }
    ensures places { AreVotePlaces setting.now places.new.items }
    ensures room { HasBallotRoom setting.now ballot.new }
{
    hear_all(
        setting,
        frame,
        input,
        receiver,
        own,
        fresh,
        late,
        &mut ballot.heard,
    );
    vote_heard(setting, votes, slot, computed, places, ballot);
}

/// The vote of a replica over what stands heard in its ballot. Takes no memory.
pub fn vote_heard(
    setting: &Setting,
    votes: &Pattern,
    slot: u32,
    computed: &[i64],
    places: &mut Vec<Option<i64>>,
    ballot: &mut Ballot,
)
    requires of { HasPlan setting.now }
    requires computed { length computed.now ≡ setting.now.cells }
    requires places { AreVotePlaces setting.now places.old.items }
    requires room { HasBallotRoom setting.now ballot.old }
    ensures ballot { (plan : PlanParts) → IsSettingOf plan setting.now → IsBallot plan.replicas
        ballot.new (ballot_of plan (is_in votes.now) slot computed.now
        (message_at ballot.old.heard.items)) }
    ensures heard { ballot.new.heard ≡ ballot.old.heard }
    ensures up { ballot.new.up ≡ true }
    ensures places { AreVotePlaces setting.now places.new.items }
    ensures room { HasBallotRoom setting.now ballot.new }
{
    if all_agree(setting, ballot.heard.as_slice(), slot, computed) {
        keep_own(slot, computed, ballot);
    } else {
        take_votes(setting, votes, slot, computed, places, ballot);
    }
}

// Takes one's own slot and computed cells.
fn keep_own(slot: u32, computed: &[i64], ballot: &mut Ballot)
    requires { length ballot.old.cells.items ≡ length computed.now }
    ensures heard { ballot.new.heard ≡ ballot.old.heard }
    ensures taken { ballot.new.taken ≡ slot }
    ensures cells { ballot.new.cells.items ≡ computed.now }
    ensures up { ballot.new.up ≡ true }
{
    ballot.taken = slot;
    copy_cells(&mut ballot.cells, computed);
    ballot.up = true;
}

// Takes the slot and the cells that are voted.
fn take_votes(
    setting: &Setting,
    votes: &Pattern,
    slot: u32,
    computed: &[i64],
    places: &mut Vec<Option<i64>>,
    ballot: &mut Ballot,
)
    requires of { HasPlan setting.now }
    requires computed { length computed.now ≡ setting.now.cells }
    requires places { AreVotePlaces setting.now places.old.items }
    requires room { HasBallotRoom setting.now ballot.old }
    ensures ballot { (plan : PlanParts) → IsSettingOf plan setting.now → IsBallot plan.replicas
        ballot.new (ballot_of plan (is_in votes.now) slot computed.now
        (message_at ballot.old.heard.items)) }
    ensures heard { ballot.new.heard ≡ ballot.old.heard }
    ensures up { ballot.new.up ≡ true }
    ensures places { AreVotePlaces setting.now places.new.items }
    ensures room { HasBallotRoom setting.now ballot.new }
{
    ballot.taken = take_slot(setting, ballot.heard.as_slice(), slot, places);
    vote_cells(
        setting,
        votes,
        ballot.taken,
        ballot.heard.as_slice(),
        computed,
        places,
        &mut ballot.cells,
    );
    ballot.up = true;
}

/// The vote of a replica, or none where it is down. Takes no memory.
pub fn vote_one(
    setting: &Setting,
    votes: &Pattern,
    frame: u32,
    input: &FrameIn,
    receiver: u32,
    computed: &Held,
    own: &Message,
    fresh: &[Post],
    late: &[Post],
    places: &mut Vec<Option<i64>>,
    ballot: &mut Ballot,
)
    requires of { HasPlanWith setting.now input.now }
    requires frame { frame ≤ MAX_FRAMES }
    requires receiver { receiver < setting.now.replicas }
    requires computed { HasCells setting.now computed.now }
    requires own { HasRoom setting.now own.now }
    requires fresh { ArePosts setting.now fresh.now }
    requires late { ArePosts setting.now late.now }
    requires places { AreVotePlaces setting.now places.old.items }
    requires room { HasBallotRoom setting.now ballot.old }
    ensures ballot { (plan : PlanParts) → IsSettingOf plan setting.now
        → IsBallotOrNone plan.replicas ballot.new
        (ballot_now plan (is_in votes.now) input.now receiver computed.now
        (heard_by plan frame input.now receiver own.now
        (letter_at fresh.now) (letter_at late.now))) }
    ensures places { AreVotePlaces setting.now places.new.items }
    ensures room { HasBallotRoom setting.now ballot.new }
{
    if input.down(receiver) {
        ballot.up = false;
    } else {
        vote(
            setting,
            votes,
            frame,
            input,
            receiver,
            computed.slot(),
            computed.cells(),
            own,
            fresh,
            late,
            places,
            ballot,
        );
    }
}

/// The vote of each replica, or none where it is down. Takes no memory.
pub fn vote_all(
    setting: &Setting,
    votes: &Pattern,
    frame: u32,
    input: &FrameIn,
    computed: &[Held],
    own: &[Message],
    fresh: &[Vec<Post>],
    late: &[Vec<Post>],
    places: &mut Vec<Option<i64>>,
    ballots: &mut Vec<Ballot>,
)
    requires of { HasPlanWith setting.now input.now }
    requires frame { frame ≤ MAX_FRAMES }
    requires computed { AreStates setting.now computed.now }
    requires own { AreMessages setting.now own.now }
    requires fresh { ArePostRows setting.now fresh.now }
    requires late { ArePostRows setting.now late.now }
    requires places { AreVotePlaces setting.now places.old.items }
    requires room { HaveBallotRoom setting.now ballots.old.items }
    ensures ballots { (plan : PlanParts) → IsSettingOf plan setting.now
        → AreBallots plan.replicas ballots.new.items (λ replica.
        ballot_now plan (is_in votes.now) input.now replica
        (slice_index_or computed.now replica no_state)
        (heard_by plan frame input.now replica (slice_index_or own.now replica no_content)
        (post_at fresh.now replica) (post_at late.now replica))) }
    ensures places { AreVotePlaces setting.now places.new.items }
    ensures room { HaveBallotRoom setting.now ballots.new.items }
{
    for receiver in 0..setting.replicas {
        let number = receiver as usize;
        vote_one(
            setting,
            votes,
            frame,
            input,
            receiver,
            &computed[number],
            &own[number],
            fresh[number].as_slice(),
            late[number].as_slice(),
            places,
            &mut ballots[number],
        );
    }
}
