//! A cell at a slot.
//! After NASA TM-102716.

/// A cell at a slot.
#[derive(Clone, Copy, Debug, PartialEq, Eq, PartialOrd, Ord)]
pub struct Node {
    pub slot: u32,
    pub cell: u32,
}
