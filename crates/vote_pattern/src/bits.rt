//! How many numbers words have.
//! This project's own.
ghost use Rattle.std.specs.Prelude.{◌≡◌, ◌≤◌, length, sum_by};
ghost use Rattle.rcp_base.specs.declared.TheConstants.{MAX_SLOTS};
ghost use Rattle.vote_pattern.specs.inner.Numbers.{number_count};

/// How many numbers there are in all words.
pub(crate) fn count(words: &[u64]) -> u32
    requires { length words.now ≤ MAX_SLOTS }
    ensures { result ≡ sum_by number_count words.now }
{
    let mut count = 0;
    for word in words {
        count += word.count_ones();
    }
    count
}
