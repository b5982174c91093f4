//! Numbers among the words: digits alone.
//! This project's own.
ghost use Rattle.std.specs.Prelude.{◌≡◌, ◌≤◌, true, IfSome, if◌then◌else◌};
ghost use Rattle.std.specs.Char.{is_ascii_digit};
ghost use Rattle.std.specs.List.{list_all};
ghost use Rattle.rcp_base.specs.declared.TheConstants.{MAX_FRAMES};
ghost use Rattle.rcp_top.specs.Number as spec;

use rcp_base::MAX_FRAMES;

/// The number that digits write, if 64 bits hold it.
#[tactic(auto, unfolding(crate::specs::Number::number_of))]
pub fn number_of(word: &str) -> Option<u64>
    ensures { result ≡ spec.number_of word.now }
{
    if are_digits(word) {
        worth_of(word)
    } else {
        None
    }
}

/// The number of frames that digits write, if a journal may have so many.
#[tactic(auto, unfolding(crate::specs::Number::frames_of))]
pub fn frames_of(word: &str) -> Option<u32>
    ensures frames { result ≡ spec.frames_of word.now }
    ensures some { IfSome result (λ frames. 1 ≤ frames) }
    ensures few { IfSome result (λ frames. frames ≤ MAX_FRAMES) }
{
    let frames = number_of(word)?;
    if 1 <= frames && frames <= MAX_FRAMES as u64 {
        Some(frames as u32)
    } else {
        None
    }
}

fn are_digits(word: &str) -> bool
    ensures { result ≡ list_all is_ascii_digit word.now }
{
    word.bytes().all(|byte| byte.is_ascii_digit())
}

// What digits are worth, where 64 bits hold it.
fn worth_of(word: &str) -> Option<u64>
    requires { list_all is_ascii_digit word.now ≡ true }
    ensures { result
        ≡ (if spec.is_worth_64_bits word.now then Some (spec.worth word.now) else None) }
{
    word.parse::<u64>().ok()
}
