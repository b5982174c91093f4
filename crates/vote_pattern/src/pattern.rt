//! A vote pattern.
//! After NASA TM-102716; the words are this project's own.
ghost use Rattle.std.specs.Prelude.{◌≡◌, ℕ, ◌<◌, ◌≤◌, true, false, All, length, IfOk};
ghost use Rattle.rcp_base.specs.declared.TheConstants.{MAX_CELLS, MAX_SLOTS};
ghost use Rattle.rcp_model.specs.declared.plan.PlanParts.{PlanParts};
ghost use Rattle.vote_pattern.specs.inner.Numbers.{AreBitsOf};
ghost use Rattle.vote_pattern.specs.Votes.{AreUnvoted, AreVotesOver, ChangesVote, IsPatternOf, is_in, no_votes, vote_count};

use crate::bits::count;
use rcp_base::Memory;
use rcp_base::bits::{has_bit, other_bits, with_bit, without_bit};
use rcp_model::{Plan, PlanParts};
use std::alloc::Global;
use std::marker::Model;

/// Which cells are voted in each slot.
#[derive(Debug, Drop)]
pub struct Pattern {
    slots: u32,
    cells: u32,
    // By slot: the cells that it votes, as bits.
    words: Vec<u64>,
}

impl Model for Pattern {
    ghost use Rattle.vote_pattern.specs.Votes.{Votes};
    ghost use Rattle.vote_pattern.specs.inner.PatternFields.{IsPattern, votes_in};

    ghost Value = { Votes };

    ghost view = { votes_in };

    ghost invariant = { IsPattern };
}

impl Pattern {
    /// The pattern of so many slots and cells without a vote.
    pub fn new(alloc: Global, slots: u32, cells: u32) -> Result<Pattern, Memory>
        requires slots { slots ≤ MAX_SLOTS }
        requires cells { cells ≤ MAX_CELLS }
        ensures votes { IfOk result (λ votes. votes ≡ no_votes slots cells) }
        ensures none { IfOk result (λ votes. (slot cell : ℕ) → is_in votes slot cell ≡ false) }
    {
        Ok(Pattern {
            slots,
            cells,
            words: vec![in alloc; 0u64; slots as usize]?,
        })
    }

    /// The pattern of a plan.
    pub fn of(alloc: Global, plan: &Plan) -> Result<Pattern, Memory>
        ensures { IfOk result (IsPatternOf plan.now) }
    {
        pattern_of(alloc, plan.parts())
    }

    /// How many slots there are.
    pub fn slots(&self) -> u32
        ensures value { result ≡ self.now.slots }
        ensures most { result ≤ MAX_SLOTS }
    {
        self.slots
    }

    /// How many cells there are.
    pub fn cells(&self) -> u32
        ensures value { result ≡ self.now.cells }
        ensures most { result ≤ MAX_CELLS }
    {
        self.cells
    }

    /// How many votes there are: pairs of slot and cell.
    pub fn count(&self) -> u32
        ensures { result ≡ vote_count self.now }
    {
        count(self.words.as_slice())
    }

    /// Whether the slot votes the cell.
    pub fn has(&self, slot: u32, cell: u32) -> bool
        requires slot { slot < self.now.slots }
        requires cell { cell < self.now.cells }
        ensures { result ≡ is_in self.now slot cell }
    {
        has_bit(self.words[slot as usize], cell)
    }

    /// The cells that the slot does not vote, as bits.
    pub fn unvoted(&self, slot: u32) -> u64
        requires { slot < self.now.slots }
        ensures { AreUnvoted self.now slot result }
    {
        other_bits(self.words[slot as usize], self.cells)
    }

    /// Lets the slot vote the cell. Takes no memory.
    pub fn set(&mut self, slot: u32, cell: u32)
        requires slot { slot < self.old.slots }
        requires cell { cell < self.old.cells }
        ensures { ChangesVote self.old self.new slot cell true }
    {
        let word = self.words[slot as usize];
        self.words[slot as usize] = with_bit(word, cell);
    }

    /// Takes the slot's vote of the cell away. Takes no memory.
    pub fn clear(&mut self, slot: u32, cell: u32)
        requires slot { slot < self.old.slots }
        requires cell { cell < self.old.cells }
        ensures { ChangesVote self.old self.new slot cell false }
    {
        let word = self.words[slot as usize];
        self.words[slot as usize] = without_bit(word, cell);
    }
}

// The pattern of parts that are not too many.
fn pattern_of(alloc: Global, parts: &PlanParts) -> Result<Pattern, Memory>
    requires slots { length parts.now.slots ≤ MAX_SLOTS }
    requires cells { length parts.now.cells ≤ MAX_CELLS }
    requires votes { AreVotesOver (length parts.now.cells) parts.now.slots }
    ensures { IfOk result (IsPatternOf parts.now) }
{
    let mut words = Vec::new(alloc);
    for slot in parts.slots.as_slice() {
        words.push(word_of(slot.votes.as_slice()))?;
    }
    Ok(Pattern {
        slots: parts.slots.len() as u32,
        cells: parts.cells.len() as u32,
        words,
    })
}

// The word of these numbers.
fn word_of(numbers: &[u16]) -> u64
    requires { All (λ number. number < 64) numbers.now }
    ensures { AreBitsOf numbers.now result }
{
    let mut word = 0;
    for number in numbers {
        word = with_bit(word, u32::from(*number));
    }
    word
}
