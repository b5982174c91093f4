//! A message.
//! After NASA TM-104196.
ghost use Rattle.std.specs.Prelude.{◌≡◌, ◌<◌, IfOk, length, replicate, None};
ghost use Rattle.rcp_base.specs.Message.{value_in};
ghost use Rattle.mailbox.specs.Message.{empty_message, with_slot, with_value};

use rcp_base::Memory;
use std::alloc::Global;
use std::marker::Model;

/// A slot, and a value or none for each cell.
#[derive(Debug, Drop)]
pub struct Message {
    cells: u32,
    slot: u32,
    // By cell.
    values: Vec<Option<i64>>,
}

impl Model for Message {
    ghost use Rattle.std.specs.Prelude.{◌≡◌, length};
    ghost use Rattle.rcp_base.specs.Message.{Content};
    ghost use Rattle.mailbox.specs.Message.{content_in};

    ghost Value = { Content };

    ghost view = { content_in };

    ghost invariant = { λ message. length message.values.items ≡ message.cells };
}

impl Message {
    /// A message of slot 0 without a value, for so many cells.
    pub fn new(alloc: Global, cells: u32) -> Result<Message, Memory>
        ensures { IfOk result (λ message. message ≡ empty_message cells 0) }
    {
        Ok(Message {
            cells,
            slot: 0,
            values: vec![in alloc; None; cells as usize]?,
        })
    }

    /// Takes all values away, and names a slot. Takes no memory.
    pub fn reset(&mut self, slot: u32)
        ensures { self.new ≡ empty_message (length self.old.values) slot }
    {
        self.slot = slot;
        clear(&mut self.values);
    }

    /// Names a value for a cell. Takes no memory.
    pub fn put(&mut self, cell: u32, value: i64)
        requires { cell < length self.old.values }
        ensures { self.new ≡ with_value self.old cell value }
    {
        self.values[cell as usize] = Some(value);
    }

    /// Names another slot.
    pub fn set_slot(&mut self, slot: u32)
        ensures { self.new ≡ with_slot self.old slot }
    {
        self.slot = slot;
    }

    /// How many cells there are.
    pub fn cells(&self) -> u32
        ensures { result ≡ length self.now.values }
    {
        self.cells
    }

    /// The slot that it names.
    pub fn slot(&self) -> u32
        ensures { result ≡ self.now.slot }
    {
        self.slot
    }

    /// The value that it names for a cell, if it names one.
    pub fn value(&self, cell: u32) -> Option<i64>
        requires { cell < length self.now.values }
        ensures { result ≡ value_in self.now cell }
    {
        self.values[cell as usize]
    }

    /// Takes over what another message of as many cells says. Takes no memory.
    pub fn copy_from(&mut self, other: &Message)
        requires { length self.old.values ≡ length other.now.values }
        ensures { self.new ≡ other.now }
    {
        self.slot = other.slot;
        copy_values(&mut self.values, other.values.as_slice());
    }
}

// Takes each value away.
fn clear(values: &mut Vec<Option<i64>>)
    ensures { values.new.items ≡ replicate (length values.old.items) None }
{
    for value in values.iter_mut() {
        *value = None;
    }
}

// Takes over the values of a list of the same length.
fn copy_values(values: &mut Vec<Option<i64>>, other: &[Option<i64>])
    requires { length values.old.items ≡ length other.now }
    ensures { values.new.items ≡ other.now }
{
    values.as_mut_slice().copy_from_slice(other);
}
