ghost use Rattle.std.specs.Prelude.{◌≡◌, ℕ, ◌+◌, ◌-◌, ◌*◌, ◌%◌, ◌^◌, ◌<◌, ◌≤◌, ◌||◌};
ghost use Rattle.value.specs.Rows.{undefined};
ghost use Rattle.value.specs.Outcome.{outcome};
ghost use Rattle.operator.specs.Words.{wrap};
ghost use Rattle.operator.specs.Bits.{inverted, extended, restricted, continues, concatenated};

use crate::ops::Reading;
use crate::words::Word;
use answer::faults::Fault;
use answer::rules::require;
use value::makes::is_no_width;
use value::rows::*;
use value::values::{Value, WIDEST};

// Every bit turned.
pub fn not(v: Value) -> Result<Value, Fault>
    ensures { outcome result ≡ inverted v.row }
{
    let row = v.row();
    match row.region {
        _ if !row.defined => Value::undefined(v.width()),
        Region::Cst => Value::from_bits(v.width(), Word::of(v).inverse()),
        _ => Err(Fault::NoExactValue),
    }
}

// The number in more bits.
pub fn extend(reading: Reading, v: Value, width: u8) -> Result<Value, Fault>
    ensures { outcome result ≡ extended reading v.row width }
{
    let row = v.row();
    match row.region {
        _ if is_no_width(width) => Err(Fault::NoExactValue),
        _ if !row.defined => Value::undefined(width),
        Region::Cst if v.width() < width => Value::from_bits(width, Word::of(v).filled(reading)),
        _ => Err(Fault::NoExactValue),
    }
}

// Bits `low` to `high`, counted from the value's own lowest bit.
pub fn restrict(v: Value, low: u8, high: u8) -> Result<Value, Fault>
    ensures { outcome result ≡ restricted v.row low high }
{
    require(low <= high && high - low < WIDEST, Fault::NoExactValue)?;
    let width = high - low + 1;
    let row = v.row();
    match row.region {
        _ if !row.defined => Value::undefined(width),
        _ if v.width() <= high => Err(Fault::NoExactValue),
        Region::Cst => Value::from_bits(width, row.number >> low),
        _ => Value::try_from(Row {
            low: row.low + low,
            high: row.low + high,
            ..row
        }),
    }
}

// Whether `b` has the bits just above those of `a`, of one pointer.
fn do_continue(a: Row, b: Row) -> bool
    requires { a.high < 64 }
    ensures { result ≡ continues a b }
{
    a.region == b.region && a.number == b.number && b.low == a.high + 1
}

// The right value in the bits above the left one.
pub fn concatenate(left: Value, right: Value) -> Result<Value, Fault>
    ensures { outcome result ≡ concatenated left.row right.row }
{
    let u = left.width();
    let v = right.width();
    let a = left.row();
    let b = right.row();
    match (a.region, b.region) {
        _ if u + v > WIDEST => Err(Fault::NoExactValue),
        _ if !a.defined || !b.defined => Value::undefined(u + v),
        (Region::Cst, Region::Cst) => Value::from_bits(u + v, Word::of(left).join(Word::of(right))),
        _ if do_continue(a, b) => Value::try_from(Row { high: b.high, ..a }),
        _ => Err(Fault::NoExactValue),
    }
}
