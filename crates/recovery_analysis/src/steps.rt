//! Which cells one step leads to. Each step leads to the next slot, so that one word has all of them.
//! This project's own.
ghost use Rattle.std.specs.Prelude.{◌≡◌, ◌<◌};
ghost use Rattle.rcp_base.specs.declared.TheConstants.{MAX_SLOTS};
ghost use Rattle.recovery_analysis.specs.Graphs.{graph_of, IsOneSize};
ghost use Rattle.recovery_analysis.specs.Steps.{AreNext};
ghost use Rattle.recovery_analysis.specs.inner.Levels as spec;

use rcp_base::bits;
use task_graph::DepRows;
use vote_pattern::Pattern;

/// The slot before, in turn.
pub fn slot_before(rows: &DepRows, pattern: &Pattern, slot: u32) -> u32
    requires { slot < rows.now.slots }
    ensures value { result ≡ spec.slot_before (graph_of rows.now pattern.now) slot }
    ensures within { result < rows.now.slots }
    ensures most { result < MAX_SLOTS }
{
    let slots = rows.slots();
    if slot == 0 { slots - 1 } else { slot - 1 }
}

/// The cells that are unvoted in the slot and fed there by a cell of the word, as bits.
pub fn next_word(rows: &DepRows, pattern: &Pattern, word: u64, slot: u32) -> u64
    requires size { IsOneSize rows.now pattern.now }
    requires slot { slot < rows.now.slots }
    ensures { AreNext (graph_of rows.now pattern.now) word slot result }
{
    let mut fed = 0;
    for cell in 0..rows.cells() {
        let feeding = bits::first_bit(rows.word(slot, cell) & word);
        if feeding.is_some() {
            fed = bits::with_bit(fed, cell);
        }
    }
    fed & pattern.unvoted(slot)
}
