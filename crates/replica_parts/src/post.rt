//! A place for a letter on its way.
//! This project's own.
ghost use Rattle.std.specs.Prelude.{◌≡◌, None, IfOk, length};
ghost use Rattle.replica_parts.specs.Places.{letter_in};

use mailbox::Message;
use rcp_base::Memory;
use std::alloc::Global;

/// A place for a letter on its way, and whether one stands there.
#[derive(Debug, Drop)]
pub struct Post {
    pub present: bool,
    /// The tick at which it arrives.
    pub arrival: i64,
    pub message: Message,
}

impl Post {
    /// A place for a letter of so many cells, without one.
    pub fn new(alloc: Global, cells: u32) -> Result<Post, Memory>
        ensures none { IfOk result (λ place. letter_in place ≡ None) }
        ensures room { IfOk result (λ place. length place.message.values ≡ cells) }
    {
        Ok(Post {
            present: false,
            arrival: 0,
            message: Message::new(alloc, cells)?,
        })
    }
}
