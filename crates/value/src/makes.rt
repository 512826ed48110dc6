ghost use Rattle.std.specs.Prelude.{◌≡◌, ◌%◌, ◌^◌, ◌<◌, ◌≤◌};
ghost use Rattle.value.specs.Rows.{value_of, undefined_of, number_of, offset_in, no_width};
ghost use Rattle.value.specs.Outcome.{outcome};

use crate::rows::*;
use crate::values::*;
use answer::faults::Fault;
use answer::rules::require;

// Whether no value has the width.
pub fn is_no_width(width: u8) -> bool
    ensures { result ≡ no_width width }
{
    width == 0 || width > WIDEST
}

// The low `width` bits of a word of 64.
fn low_bits(width: u8, bits: u64) -> u64
    requires some { 1 ≤ width }
    requires fits { width ≤ 64 }
    ensures value { result ≡ bits % 2 ^ width }
    ensures below { result < 2 ^ width }
{
    bits & (u64::MAX >> (WIDEST - width))
}

impl TryFrom<Row> for Value {
    type Error = Fault;

    ghost try_from_gives = { λ row r. outcome r ≡ value_of row };

    fn try_from(row: Row) -> Result<Value, Fault> {
        Value::from_row(row).ok_or(Fault::NoExactValue)
    }
}

impl Value {
    // An undefined value, where its width is one of a value.
    pub fn undefined(width: u8) -> Result<Value, Fault>
        ensures { outcome result ≡ undefined_of width }
    {
        require(!is_no_width(width), Fault::NoExactValue)?;
        Value::try_from(Row::undefined(width))
    }

    // The low bits of 64 as a number: the mask of every operator, and the value of a drawn choice.
    pub fn from_bits(width: u8, bits: u64) -> Result<Value, Fault>
        ensures { outcome result ≡ number_of width bits }
    {
        require(!is_no_width(width), Fault::NoExactValue)?;
        let row = Row::plain(Region::Cst, width, low_bits(width, bits));
        Value::try_from(row)
    }

    // The low bits of 64 as an offset into a region.
    pub fn from_offset(region: Region, bits: u64) -> Value
        ensures { result.row ≡ offset_in region bits }
    {
        let row = Row::plain(region, ADDRESS_WIDTH, low_bits(ADDRESS_WIDTH, bits));
        Value::from_row(row).unwrap()
    }
}
