//! The numbers of a journal: an optional minus, and digits.
//! This project's own.
ghost use Rattle.std.specs.Prelude.{◌≡◌, ◌≢◌, ◌==◌, slice_index};
ghost use Rattle.fault_journal.specs.Number as spec;

/// The number that a text writes, if it writes one and 64 bits hold it.
#[tactic(auto, using(crate::proofs::NumberLemmas::no_number_after_a_plus))]
pub fn integer_of(text: &[u8]) -> Option<i64>
    ensures { result ≡ spec.integer_of text.now }
{
    if begins_with_plus(text) {
        None
    } else {
        parsed(text)
    }
}

// Such a text is a number to std, and none here.
fn begins_with_plus(text: &[u8]) -> bool
    ensures { result ≡ (slice_index text.now 0 == 43) }
{
    matches!(text, [b'+', ..])
}

// The number that a text writes which no plus begins, as std reads it.
fn parsed(text: &[u8]) -> Option<i64>
    requires { slice_index text.now 0 ≢ 43 }
    ensures { result ≡ spec.integer_of text.now }
{
    match str::from_utf8(text) {
        Ok(text) => text.parse::<i64>().ok(),
        Err(_) => None,
    }
}
