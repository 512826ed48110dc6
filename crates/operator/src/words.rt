ghost use Rattle.std.specs.Prelude.{◌≡◌, ℕ, ◌+◌, ◌-◌, ◌*◌, ◌%◌, ◌^◌, ◌<◌, ◌≤◌, not, pos, neg_ℤ, false, if◌then◌else◌, int_div, int_lt, int_rem, unsigned_abs};
ghost use Rattle.std.specs.Int.Signed.{non_neg};
ghost use Rattle.value.specs.Rows.{part, width};
ghost use Rattle.operator.specs.Words.{meant, wrap};

use crate::ops::Reading;
use value::values::{Value, WIDEST};

// A number of 1 to 64 bits.
#[derive(Clone, Copy)]
pub(crate) struct Word {
    pub(crate) width: u8,
    pub(crate) number: u64,
    ghost some: { 1 ≤ width },
    ghost fits: { width ≤ 64 },
    ghost below: { number < 2 ^ width },
}

// A magnitude with a sign.
fn with_sign(negative: bool, n: u64) -> u64
    ensures { (k : ℕ) → k ≤ 64 → result % 2 ^ k ≡ wrap k (if negative then neg_ℤ (pos n) else pos n) }
{
    if negative { n.wrapping_neg() } else { n }
}

impl Word {
    // The number of a value that is no part of a pointer.
    pub(crate) fn of(v: Value) -> Word
        requires { part v.row ≡ false }
        ensures width { result.width ≡ width v.row }
        ensures number { result.number ≡ v.row.number }
    {
        Word {
            width: v.width(),
            number: v.number(),
        }
    }

    pub(crate) fn is_negative(self, reading: Reading) -> bool
        ensures { result ≡ not (non_neg (meant reading self.width self.number)) }
    {
        match reading {
            Reading::Unsigned => false,
            Reading::Signed => self.number >= 1 << (self.width - 1),
        }
    }

    fn magnitude(self, reading: Reading) -> u64
        ensures { result ≡ unsigned_abs (meant reading self.width self.number) }
    {
        if self.is_negative(reading) {
            (u64::MAX >> (WIDEST - self.width)) - self.number + 1
        } else {
            self.number
        }
    }

    // Every bit of 64 turned, of which those of the width count.
    pub(crate) fn inverse(self) -> u64
        ensures { result % 2 ^ self.width ≡ 2 ^ self.width - 1 - self.number }
    {
        !self.number
    }

    // The bits above those of the width filled up by zeros, or by the sign.
    pub(crate) fn filled(self, reading: Reading) -> u64
        requires { self.width < 64 }
        ensures { (k : ℕ) → k ≤ 64 → result % 2 ^ k ≡ wrap k (meant reading self.width self.number) }
    {
        if self.is_negative(reading) {
            self.number.wrapping_sub(1 << self.width)
        } else {
            self.number
        }
    }

    // The bits of another word above these.
    pub(crate) fn join(self, above: Word) -> u64
        requires { self.width + above.width ≤ 64 }
        ensures { result % 2 ^ (self.width + above.width) ≡ self.number + above.number * 2 ^ self.width }
    {
        above.number << self.width | self.number
    }
}

// Two numbers of one width.
#[derive(Clone, Copy)]
pub(crate) struct Operands {
    pub(crate) left: Word,
    pub(crate) right: Word,
    ghost alike: { left.width ≡ right.width },
}

impl Operands {
    // Whether the left number is less than the right one.
    pub(crate) fn is_less(self, reading: Reading) -> bool
        ensures { result ≡ int_lt (meant reading self.left.width self.left.number) (meant reading self.left.width self.right.number) }
    {
        let negative = self.left.is_negative(reading);
        if negative == self.right.is_negative(reading) {
            self.left.number < self.right.number
        } else {
            negative
        }
    }

    // The other way round.
    pub(crate) fn turned(self) -> Operands
        ensures left { result.left ≡ self.right }
        ensures right { result.right ≡ self.left }
    {
        Operands {
            left: self.right,
            right: self.left,
        }
    }

    pub(crate) fn quotient(self, reading: Reading) -> u64
        requires { 0 < self.right.number }
        ensures { result % 2 ^ self.left.width ≡ wrap self.left.width (int_div (meant reading self.left.width self.left.number) (meant reading self.left.width self.right.number)) }
    {
        let negative = self.left.is_negative(reading) != self.right.is_negative(reading);
        let quotient = self.left.magnitude(reading) / self.right.magnitude(reading);
        with_sign(negative, quotient)
    }

    pub(crate) fn remainder(self, reading: Reading) -> u64
        requires { 0 < self.right.number }
        ensures { result % 2 ^ self.left.width ≡ wrap self.left.width (int_rem (meant reading self.left.width self.left.number) (meant reading self.left.width self.right.number)) }
    {
        let negative = self.left.is_negative(reading);
        let remainder = self.left.magnitude(reading) % self.right.magnitude(reading);
        with_sign(negative, remainder)
    }
}
