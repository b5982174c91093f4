//! The mailboxes of a replica.
//! After NASA TM-104196.
ghost use Rattle.std.specs.Prelude.{◌≡◌, ◌<◌, IfOk, IfSome, length, option_map, option_and_then, true, Some, None};
ghost use Rattle.rcp_base.specs.Message.{Content, value_in};
ghost use Rattle.mailbox.specs.Mailboxes.{AreAlike, AreSized, box_of, mail_in, put};

use crate::message::Message;
use rcp_base::Memory;
use std::alloc::Global;
use std::marker::Model;

/// For each sender a message or none.
#[derive(Debug, Drop)]
pub struct Boxes {
    cells: u32,
    // By sender.
    mailboxes: Vec<Mailbox>,
}

// A message, and whether it lies there.
#[derive(Debug, Drop)]
pub(crate) struct Mailbox {
    present: bool,
    message: Message,
}

impl Model for Boxes {
    ghost use Rattle.mailbox.specs.Mailboxes.{Mailboxes, FitCells, boxes_in};

    ghost Value = { Mailboxes };

    ghost view = { boxes_in };

    ghost invariant = { FitCells };
}

impl Boxes {
    /// Mailboxes for so many senders and cells, with no message in them.
    #[tactic(auto, unfolding(crate::specs::Mailboxes::box_of))]
    pub fn new(alloc: Global, replicas: u32, cells: u32) -> Result<Boxes, Memory>
        ensures none { IfOk result (λ boxes. box_of boxes ≡ (λ sender. None)) }
        ensures sizes { IfOk result (AreSized replicas cells) }
    {
        let mut mailboxes = Vec::new(alloc);
        for _replica in 0..replicas {
            mailboxes.push(Mailbox {
                present: false,
                message: Message::new(alloc, cells)?,
            })?;
        }
        Ok(Boxes { cells, mailboxes })
    }

    /// Takes all messages out. Takes no memory.
    #[tactic(auto, unfolding(crate::specs::Mailboxes::box_of))]
    pub fn clear(&mut self)
        ensures none { box_of self.new ≡ (λ sender. None) }
        ensures sizes { AreAlike self.new self.old }
    {
        for mailbox in self.mailboxes.iter_mut() {
            mailbox.present = false;
        }
    }

    /// Puts a message into the mailbox of its sender, in place of what lies there. Takes no memory.
    #[tactic(auto, unfolding(crate::specs::Mailboxes::box_of))]
    pub fn put(&mut self, from: u32, message: &Message)
        requires from { from < length self.old.messages }
        requires cells { length message.now.values ≡ self.old.cells }
        ensures boxes { box_of self.new ≡ put (box_of self.old) from (Some message.now) }
        ensures sizes { AreAlike self.new self.old }
    {
        self.mailboxes[from as usize].fill(message);
    }

    /// The message that lies in the mailbox of a sender, if one does.
    #[tactic(auto, unfolding(crate::specs::Mailboxes::box_of))]
    pub fn message(&self, from: u32) -> Option<&Message>
        requires { from < length self.now.messages }
        ensures message { option_map (λ message. message.now) result ≡ box_of self.now from }
        ensures cells { IfSome result (λ message. length message.now.values ≡ self.now.cells) }
    {
        self.mailboxes[from as usize].mail()
    }

    /// The slot that it names.
    #[tactic(auto, unfolding(crate::specs::Mailboxes::box_of))]
    pub fn slot_of(&self, from: u32) -> Option<u32>
        requires { from < length self.now.messages }
        ensures { result ≡ option_map (λ (message : Content). message.slot) (box_of self.now from) }
    {
        Some(self.message(from)?.slot())
    }

    /// The value that it names for a cell.
    #[tactic(auto, unfolding(crate::specs::Mailboxes::box_of))]
    pub fn value_of(&self, from: u32, cell: u32) -> Option<i64>
        requires from { from < length self.now.messages }
        requires cell { cell < self.now.cells }
        ensures { result
            ≡ option_and_then (λ message. value_in message cell) (box_of self.now from) }
    {
        self.message(from)?.value(cell)
    }
}

impl Mailbox {
    // Puts a message into it, of as many cells.
    fn fill(&mut self, message: &Message)
        requires { length message.now.values ≡ length self.old.message.values }
        ensures { self.new ≡ record { present = true; message = message.now } }
    {
        self.message.copy_from(message);
        self.present = true;
    }

    // The message in it, if one lies there.
    fn mail(&self) -> Option<&Message>
        ensures message { option_map (λ message. message.now) result ≡ mail_in self.now }
        ensures cells { IfSome result (λ message.
            length message.now.values ≡ length self.now.message.values) }
    {
        if self.present {
            Some(&self.message)
        } else {
            None
        }
    }
}
