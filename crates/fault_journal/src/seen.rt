//! What a reader of rows remembers of those before.
//! This project's own.
ghost use Rattle.std.specs.Prelude.{◌≡◌, length};

use crate::kind::kind_number;
use crate::row::{Kind, Row, WrittenRow};
use rcp_base::Memory;
use std::alloc::Global;

// Places for the keys of 12 kinds, 9 replicas, 9 receivers and 64 items.
const PLACES: usize = 62_208;

/// The frame of the last row, and for each key the frame of the last row that had it.
#[derive(Debug, Drop)]
pub struct Seen {
    pub last: Option<u32>,
    // One more than that frame, and 0 where there was no such row.
    pub stamps: Vec<u32>,
    ghost size: { length stamps.items ≡ 62_208 },
}

impl Seen {
    ghost use Rattle.std.specs.Prelude.{◌≡◌, ◌<◌, ◌∷◌, List, IfOk, []};
    ghost use Rattle.std.specs.List.{list_any};
    ghost use Rattle.fault_journal.specs.declared.row.Row.{Row};
    ghost use Rattle.fault_journal.specs.Journal as journal;
    ghost use Rattle.fault_journal.specs.Seen as spec;
    ghost use Rattle.fault_journal.specs.Seen.{Knows, HasPlace, FallFrom};

    /// Before the first row.
    pub fn new(alloc: Global) -> Result<Seen, Memory>
        ensures { IfOk result (Knows []) }
    {
        Ok(Seen {
            last: None,
            stamps: vec![in alloc; 0; PLACES]?,
        })
    }

    /// Whether a row's frame may follow that of the last row.
    pub fn may_come(&self, row: &WrittenRow) -> bool
        ensures { (before : List Row) → Knows before self.now
            → result ≡ journal.follows before row.now }
    {
        match self.last {
            None => true,
            Some(last) => match row.kind {
                Kind::End => i64::from(last) < row.frame,
                _ => i64::from(last) <= row.frame,
            },
        }
    }

    /// Whether a row that may follow repeats one that was seen.
    pub fn has(&self, row: &Row) -> bool
        requires { HasPlace row.now }
        ensures { (before : List Row) → Knows before self.now → FallFrom row.now.frame before
            → result ≡ list_any (journal.repeats row.now) before }
    {
        self.stamps[Seen::key_place(row)] == row.frame + 1
    }

    /// Sees a row that may follow.
    pub fn add(&mut self, row: &Row)
        requires { HasPlace row.now }
        ensures { (before : List Row) → Knows before self.old → FallFrom row.now.frame before
            → Knows (row.now ∷ before) self.new }
    {
        self.last = Some(row.frame);
        self.stamps[Seen::key_place(row)] = row.frame + 1;
    }

    // The place of a row's key.
    fn key_place(row: &Row) -> usize
        requires { HasPlace row.now }
        ensures place { result ≡ spec.key_place row.now }
        ensures within { result < 62_208 }
    {
        let kind = usize::from(kind_number(row.kind));
        let replica = usize::from(row.replica);
        let receiver = usize::from(row.receiver);
        let item = usize::from(row.item);
        ((kind * 9 + replica) * 9 + receiver) * 64 + item
    }
}
