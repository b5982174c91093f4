//! The arithmetic of tasks on all pairs of numbers: no call fails, and a result past 64 bits is the nearest number of 64 bits.
//! This project's own.
ghost use Rattle.std.specs.Prelude.{◌≡◌};
ghost use Rattle.rcp_base.specs.Arithmetic.{nearest, sum_of, difference_of, product_of, quotient_of, remainder_of, negation_of, magnitude_of};

pub fn add(a: i64, b: i64) -> i64
    ensures { result ≡ sum_of a b }
{
    nearest(i128::from(a) + i128::from(b))
}

pub fn sub(a: i64, b: i64) -> i64
    ensures { result ≡ difference_of a b }
{
    nearest(i128::from(a) - i128::from(b))
}

// The number of 64 bits that is nearest. The compiler knows it as a sum that stops at the limits.
#[inline(always)]
fn nearest(x: i128) -> i64
    ensures { result ≡ nearest x }
{
    x.clamp(i128::from(i64::MIN), i128::from(i64::MAX)) as i64
}

pub fn mul(a: i64, b: i64) -> i64
    ensures { result ≡ product_of a b }
{
    a.saturating_mul(b)
}

/// Truncates toward zero, and is 0 where `b` is 0.
pub fn div(a: i64, b: i64) -> i64
    ensures { result ≡ quotient_of a b }
{
    if b == 0 { 0 } else { a.saturating_div(b) }
}

/// Has the sign of `a`, and is 0 where `b` is 0.
pub fn rem(a: i64, b: i64) -> i64
    ensures { result ≡ remainder_of a b }
{
    if b == 0 { 0 } else { a.wrapping_rem(b) }
}

pub fn neg(a: i64) -> i64
    ensures { result ≡ negation_of a }
{
    a.saturating_neg()
}

pub fn abs(a: i64) -> i64
    ensures { result ≡ magnitude_of a }
{
    a.saturating_abs()
}
