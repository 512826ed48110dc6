ghost use Rattle.std.specs.Prelude.{◌≡◌};
ghost use Rattle.value.specs.Rows.{plain, undefined_row, part};

use crate::values::ADDRESS_WIDTH;

// The memory that a value points into. `Malloc(n)` is the n-th region made in a run, counted from 1.
#[derive(Clone, Copy, PartialEq, Eq)]
pub enum Region {
    Cst,
    Stack,
    Malloc(u8),
}

// A value as a table holds it: bits `low` to `high` of a number in a region. A plain value begins at bit 0; a part is
// some of the 32 bits of a pointer; an undefined value is in `Cst` with number 0. Not every row is a value's.
#[derive(Clone, Copy, PartialEq, Eq)]
pub struct Row {
    pub number: u64,
    pub region: Region,
    pub defined: bool,
    pub low: u8,
    pub high: u8,
}

impl Row {
    // A number, or an offset in a region, of so many bits.
    pub fn plain(region: Region, width: u8, number: u64) -> Row
        ensures { result ≡ plain region width number }
    {
        Row {
            number,
            region,
            defined: true,
            low: 0,
            high: width.saturating_sub(1),
        }
    }

    pub fn undefined(width: u8) -> Row
        ensures { result ≡ undefined_row width }
    {
        Row {
            defined: false,
            ..Row::plain(Region::Cst, width, 0)
        }
    }

    // Whether these are some of the bits of a pointer, and not all.
    pub fn is_part(&self) -> bool
        ensures { result ≡ part self.now }
    {
        self.region != Region::Cst && !(self.low == 0 && self.high == ADDRESS_WIDTH - 1)
    }
}

// One malloc region of a run. A table of them has region n at index n - 1.
#[derive(Clone, Copy, PartialEq, Eq)]
pub struct RegionRecord {
    pub size: u16,
    pub freed: bool,
}
