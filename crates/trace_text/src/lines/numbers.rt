//! Numbers in a line, whose digits are put from the first to the last.
//! This project's own.
ghost use Rattle.std.specs.Prelude.{◌≡◌, ◌+◌, ◌*◌, ◌/◌, ◌%◌, ◌<◌, ◌≤◌, [], ◌∷◌, ◌++◌, length};
ghost use Rattle.std.specs.Fmt.{decimal, signed_decimal};
ghost use Rattle.trace_text.specs.declared.lines.TheConstants.{ROOM};
ghost use Rattle.trace_text.specs.inner.Digits.{pair};
ghost use Rattle.trace_text.specs.Lines as spec;

use super::Lines;

impl Lines {
    // A number without a sign.
    #[inline(always)]
    pub(super) fn put_count(&mut self, n: u64)
        requires { length self.old.line.items + 20 ≤ ROOM }
        ensures put { self.new.line.items ≡ self.old.line.items ++ decimal n }
        ensures room { length self.new.line.items ≤ length self.old.line.items + 20 }
    {
        self.put_number(n);
    }

    // A number with its sign, where it is negative.
    #[inline(always)]
    pub(super) fn put_value(&mut self, n: &i64)
        requires { length self.old.line.items + 20 ≤ ROOM }
        ensures put { self.new.line.items ≡ self.old.line.items ++ signed_decimal n.now }
        ensures room { length self.new.line.items ≤ length self.old.line.items + 20 }
    {
        if *n < 0 {
            self.put_byte(b'-');
        }
        self.put_number(n.unsigned_abs());
    }

    // Each value after a space.
    pub(super) fn put_values(&mut self, values: &[i64])
        requires { length self.old.line.items + 21 * length values.now ≤ ROOM }
        ensures put { self.new.line.items ≡ self.old.line.items ++ spec.numbers_text values.now }
        ensures room { length self.new.line.items
            ≤ length self.old.line.items + 21 * length values.now }
    {
        for value in values {
            self.put_byte(b' ');
            self.put_value(value);
        }
    }

    // One digit at once, and more by a call.
    #[inline(always)]
    fn put_number(&mut self, n: u64)
        requires { length self.old.line.items + length (decimal n) ≤ ROOM }
        ensures { self.new.line.items ≡ self.old.line.items ++ decimal n }
    {
        if n < 10 {
            self.put_digit(n as u32);
        } else {
            self.put_decimal(n);
        }
    }

    // Four digits a step.
    fn put_decimal(&mut self, n: u64)
        requires { length self.old.line.items + length (decimal n) ≤ ROOM }
        ensures { self.new.line.items ≡ self.old.line.items ++ decimal n }
    {
        if n < 10_000 {
            self.put_short(n as u32);
        } else {
            self.put_decimal(n / 10_000);
            self.put_four((n % 10_000) as u32);
        }
    }

    // A number of one digit to four.
    #[inline(always)]
    fn put_short(&mut self, n: u32)
        requires { (n < 10_000) × (length self.old.line.items + length (decimal n) ≤ ROOM) }
        ensures { self.new.line.items ≡ self.old.line.items ++ decimal n }
    {
        if n < 100 {
            self.put_first(n);
        } else {
            self.put_first(n / 100);
            self.put_pair(n % 100);
        }
    }

    // A number of one digit or two.
    #[inline(always)]
    fn put_first(&mut self, n: u32)
        requires { (n < 100) × (length self.old.line.items + length (decimal n) ≤ ROOM) }
        ensures { self.new.line.items ≡ self.old.line.items ++ decimal n }
    {
        if n < 10 {
            self.put_digit(n);
        } else {
            self.put_pair(n);
        }
    }

    // The last four digits of a longer number.
    #[inline(always)]
    fn put_four(&mut self, four: u32)
        requires { (four < 10_000) × (length self.old.line.items + 4 ≤ ROOM) }
        ensures { self.new.line.items ≡ self.old.line.items
            ++ pair (four / 100) ++ pair (four % 100) }
    {
        self.put_pair(four / 100);
        self.put_pair(four % 100);
    }

    // Two digits, of which the first may be 0.
    #[inline(always)]
    fn put_pair(&mut self, both: u32)
        requires { (both < 100) × (length self.old.line.items + 2 ≤ ROOM) }
        ensures { self.new.line.items ≡ self.old.line.items ++ pair both }
    {
        self.put_digit(both / 10);
        self.put_digit(both % 10);
    }

    #[inline(always)]
    fn put_digit(&mut self, digit: u32)
        requires { (digit < 10) × (length self.old.line.items < ROOM) }
        ensures { self.new.line.items ≡ self.old.line.items ++ (48 + digit) ∷ [] }
    {
        self.put_byte(b'0' + digit as u8);
    }
}
