//! Words as sets of cells.
//! This project's own.
ghost use Rattle.std.specs.Prelude.{◌≡◌, slice_index_or};
ghost use Rattle.rcp_base.specs.Bits.{has_bit};
ghost use Rattle.task_graph.specs.inner.Masks as spec;

use rcp_base::bits;

/// Whether the word has the cell; it has none past its last bit.
pub fn has_cell(word: u64, cell: usize) -> bool
    ensures { result ≡ has_bit word cell }
{
    cell < 64 && bits::has_bit(word, cell as u32)
}

/// The word of one cell, and of none where a word has no room for it.
pub fn bit_of(cell: usize) -> u64
    ensures { result ≡ spec.bit_of cell }
{
    if cell < 64 { 1 << cell } else { 0 }
}

/// The word at a place, and an empty one where there is no such place.
pub fn word_at(words: &[u64], place: usize) -> u64
    ensures { result ≡ slice_index_or words.now place 0 }
{
    match words.get(place) {
        Some(word) => *word,
        None => 0,
    }
}
