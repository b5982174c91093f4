//! What a replica heard, took and voted.
//! After NASA TM-102716.
ghost use Rattle.std.specs.Prelude.{◌≡◌, ◌<◌, false, ℕ, pos, None, Option, IfOk, length, option_map, slice_index_or};
ghost use Rattle.std.specs.Option.{option_and_then};
ghost use Rattle.rcp_base.specs.Message.{value_in};
ghost use Rattle.rcp_model.specs.Ballot as model;
ghost use Rattle.replica_parts.specs.Ballots.{IsBallotOrNone};
ghost use Rattle.replica_parts.specs.Places.{message_in};
ghost use Rattle.replica_parts.specs.Rooms.{AreHeard, HasBallotRoom};
ghost use Rattle.replica_parts.specs.declared.setting.Setting.{Setting};

use crate::setting::Setting;
use mailbox::Message;
use rcp_base::Memory;
use std::alloc::Global;

/// A place for a message that was heard, and whether one stands there.
#[derive(Debug, Drop)]
pub struct Heard {
    pub present: bool,
    pub message: Message,
}

impl Heard {
    /// A place for a message of so many cells, without one.
    pub fn new(alloc: Global, cells: u32) -> Result<Heard, Memory>
        ensures none { IfOk result (λ place. message_in place ≡ None) }
        ensures room { IfOk result (λ place. length place.message.values ≡ cells) }
    {
        Ok(Heard {
            present: false,
            message: Message::new(alloc, cells)?,
        })
    }

    /// The slot that the message names, if there is one.
    pub fn slot(&self) -> Option<u32>
        ensures { result ≡ option_map (λ message. message.slot) (message_in self.now) }
    {
        if self.present {
            Some(self.message.slot())
        } else {
            None
        }
    }

    /// The value that the message names for a cell, if there is one.
    pub fn value(&self, cell: u32) -> Option<i64>
        requires { cell < length self.now.message.values }
        ensures { result
            ≡ option_and_then (λ message. value_in message cell) (message_in self.now) }
    {
        if self.present {
            self.message.value(cell)
        } else {
            None
        }
    }
}

/// What a replica heard of each sender, the slot that it took and its cells after the vote, or that it did not vote.
#[derive(Debug, Drop)]
pub struct Ballot {
    /// Whether it voted.
    pub up: bool,
    /// By sender.
    pub heard: Vec<Heard>,
    /// The slot taken.
    pub taken: u32,
    /// The cells after the vote.
    pub cells: Vec<i64>,
}

impl Ballot {
    /// A ballot without a vote.
    pub fn new(alloc: Global, setting: &Setting) -> Result<Ballot, Memory>
        ensures none { IfOk result (λ ballot. ballot.up ≡ false) }
        ensures room { IfOk result (HasBallotRoom setting.now) }
    {
        let heard = heard_places(alloc, setting)?;
        let cells = vec![in alloc; 0; setting.cells as usize]?;
        Ok(Ballot {
            up: false,
            heard,
            taken: 0,
            cells,
        })
    }

    /// The slot that the message heard of a sender names, if there was a vote and such a message.
    pub fn heard_slot(&self, from: u32) -> Option<u32>
        requires { (setting : Setting) × HasBallotRoom setting self.now
            × (from < setting.replicas) }
        ensures { (replicas : ℕ) (voted : Option model.Ballot)
            → IsBallotOrNone replicas self.now voted → from < replicas
            → result ≡ option_map (λ message. message.slot)
            (option_and_then (λ ballot. ballot.heard from) voted) }
    {
        if self.up {
            self.heard[from as usize].slot()
        } else {
            None
        }
    }

    /// The value of a cell in the message heard of a sender, if there was a vote and such a message with one.
    pub fn heard_value(&self, from: u32, cell: u32) -> Option<i64>
        requires { (setting : Setting) × HasBallotRoom setting self.now
            × (from < setting.replicas) × (cell < setting.cells) }
        ensures { (replicas : ℕ) (voted : Option model.Ballot)
            → IsBallotOrNone replicas self.now voted → from < replicas
            → result ≡ option_and_then (λ message. value_in message cell)
            (option_and_then (λ ballot. ballot.heard from) voted) }
    {
        if self.up {
            self.heard[from as usize].value(cell)
        } else {
            None
        }
    }

    /// The slot that was taken, if there was a vote.
    pub fn voted_slot(&self) -> Option<u32>
        ensures { (replicas : ℕ) (voted : Option model.Ballot)
            → IsBallotOrNone replicas self.now voted
            → result ≡ option_map (λ ballot. ballot.taken) voted }
    {
        if self.up { Some(self.taken) } else { None }
    }

    /// A cell after the vote, if there was one.
    pub fn voted_cell(&self, cell: u32) -> Option<i64>
        requires { cell < length self.now.cells.items }
        ensures { (replicas : ℕ) (voted : Option model.Ballot)
            → IsBallotOrNone replicas self.now voted
            → result ≡ option_map (λ ballot. slice_index_or ballot.cells cell (pos 0)) voted }
    {
        if self.up {
            Some(self.cells[cell as usize])
        } else {
            None
        }
    }
}

// Places for what is heard of each sender.
fn heard_places(alloc: Global, setting: &Setting) -> Result<Vec<Heard>, Memory>
    ensures { IfOk result (λ places. AreHeard setting.now places.items) }
{
    let mut places = Vec::new(alloc);
    for _sender in 0..setting.replicas {
        places.push(Heard::new(alloc, setting.cells)?)?;
    }
    Ok(places)
}
