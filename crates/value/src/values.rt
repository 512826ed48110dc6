ghost use Rattle.std.specs.Prelude.{◌≡◌, true, false, is_some, Some, MatchOption};
ghost use Rattle.value.specs.Rows.{sound};

use crate::rows::*;

// The bits of an address, and so of every value outside `Cst`.
pub const ADDRESS_WIDTH: u8 = 32;

// The most bits of any value.
pub const WIDEST: u8 = 64;

// A value. No value exists whose number reaches 2 to its width; outside `Cst` the width is 32, and for a part the
// number is that of the pointer that it was cut from.
#[derive(Clone, Copy, PartialEq, Eq)]
pub struct Value {
    row: Row,
    ghost ok: { sound row ≡ true },
}

fn is_sound(row: Row) -> bool
    ensures { result ≡ sound row }
{
    match row.region {
        Region::Cst => {
            row.low == 0
                && row.high < WIDEST
                && (row.high == WIDEST - 1 || row.number < 1 << (row.high + 1))
                && (row.defined || row.number == 0)
        }
        _ => {
            row.defined
                && row.low <= row.high
                && row.high < ADDRESS_WIDTH
                && row.number < 1 << ADDRESS_WIDTH
        }
    }
}

impl Value {
    // The value of a row, where there is one; of the row of a value, that value.
    pub fn from_row(row: Row) -> Option<Value>
        ensures value { MatchOption result (sound row ≡ false) (λ v. (sound row ≡ true) × (v.row ≡ row)) }
        ensures test { is_some result ≡ sound row }
        ensures back { (v : Value) → v.row ≡ row → result ≡ Some v }
    {
        if is_sound(row) {
            Some(Value { row })
        } else {
            None
        }
    }

    pub fn row(&self) -> Row
        ensures value { result ≡ self.now.row }
        ensures sound { sound result ≡ true }
    {
        self.row
    }
}
