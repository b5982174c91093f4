//! Words as sets of the numbers below 64.
//! This project's own.
ghost use Rattle.std.specs.Prelude.{◌≡◌, ◌<◌, ◌≤◌, true, false};
ghost use Rattle.rcp_base.specs.Bits as spec;

/// Whether the number is in the word.
pub fn has_bit(word: u64, number: u32) -> bool
    requires { number < 64 }
    ensures { result ≡ spec.has_bit word number }
{
    word & (1 << number) != 0
}

/// The word with the number in it.
pub fn with_bit(word: u64, number: u32) -> u64
    requires { number < 64 }
    ensures { spec.WritesBit word result number true }
{
    word | (1 << number)
}

/// The word without the number.
pub fn without_bit(word: u64, number: u32) -> u64
    requires { number < 64 }
    ensures { spec.WritesBit word result number false }
{
    word & !(1 << number)
}

/// The word of the numbers below.
pub fn bits_below(number: u32) -> u64
    requires { number ≤ 64 }
    ensures { spec.AreBelow result number }
{
    if number == 64 {
        u64::MAX
    } else {
        (1 << number) - 1
    }
}

/// The word of the numbers below that are not in the word.
pub fn other_bits(word: u64, number: u32) -> u64
    requires { number ≤ 64 }
    ensures { spec.AreOthers word result number }
{
    !word & bits_below(number)
}

/// The least number in the word.
pub fn first_bit(word: u64) -> Option<u32>
    ensures { spec.IsFirstBit word result }
{
    if word == 0 {
        None
    } else {
        Some(word.trailing_zeros())
    }
}
