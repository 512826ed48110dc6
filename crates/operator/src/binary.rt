ghost use Rattle.std.specs.Prelude.{◌≡◌, ◌%◌, ◌^◌, ◌<◌, ◌≤◌, true, false, ◌||◌, Ok};
ghost use Rattle.value.specs.Rows.{cst, part, undefined};
ghost use Rattle.value.specs.Outcome.{outcome};
ghost use Rattle.operator.specs.Rules.{ordered, holds, divides, result_width, result_of, result_in, by_regions, by_rules, size_of, inside, within, applied};

use crate::ops::*;
use crate::words::{Operands, Word};
use answer::faults::Fault;
use answer::rules::require;
use value::rows::*;
use value::values::Value;

fn is_ordered(order: Order, less: bool, more: bool) -> bool
    ensures { result ≡ ordered order less more }
{
    match order {
        Order::Less => less,
        Order::LessOrEqual => !more,
        Order::GreaterOrEqual => !less,
        Order::Greater => more,
    }
}

fn compare(comparison: Comparison, operands: Operands) -> bool
    ensures { result ≡ holds comparison operands.left.width operands.left.number operands.right.number }
{
    match comparison {
        Comparison::Equal => operands.left.number == operands.right.number,
        Comparison::NotEqual => operands.left.number != operands.right.number,
        Comparison::Ordered(reading, order) => is_ordered(
            order,
            operands.is_less(reading),
            operands.turned().is_less(reading),
        ),
    }
}

fn divide(division: Division, operands: Operands) -> u64
    requires { 0 < operands.right.number }
    ensures { result % 2 ^ operands.left.width ≡ result_of (BinaryOp.Divide division) operands.left.width operands.left.number operands.right.number }
{
    match division {
        Division::Quotient(reading) => operands.quotient(reading),
        Division::Remainder(reading) => operands.remainder(reading),
    }
}

// A comparison gives one bit; the rest keep the width.
pub fn result_width(op: BinaryOp, width: u8) -> u8
    ensures { result ≡ result_width op width }
{
    match op {
        BinaryOp::Compare(_) => 1,
        _ => width,
    }
}

// The result in a word of 64 bits, of which those of its width count.
fn result_bits(op: BinaryOp, operands: Operands) -> u64
    requires { divides op ≡ true → 0 < operands.right.number }
    ensures { result % 2 ^ result_width op operands.left.width ≡ result_of op operands.left.width operands.left.number operands.right.number }
{
    let m = operands.left.number;
    let n = operands.right.number;
    match op {
        BinaryOp::Add => m.wrapping_add(n),
        BinaryOp::Sub => m.wrapping_sub(n),
        BinaryOp::Mul => m.wrapping_mul(n),
        BinaryOp::And => m & n,
        BinaryOp::Or => m | n,
        BinaryOp::Divide(division) => divide(division, operands),
        BinaryOp::Compare(comparison) => compare(comparison, operands) as u64,
    }
}

// The result as a plain value of a region.
fn result_in(region: Region, op: BinaryOp, operands: Operands) -> Result<Value, Fault>
    requires divisor { divides op ≡ true → 0 < operands.right.number }
    requires pointer { cst region ≡ false → result_width op operands.left.width ≡ 32 }
    ensures { outcome result ≡ Ok (result_in region op operands.left.width operands.left.number operands.right.number) }
{
    let bits = result_bits(op, operands);
    match region {
        Region::Cst => Value::from_bits(result_width(op, operands.left.width), bits),
        _ => Ok(Value::from_offset(region, bits)),
    }
}

// Rules 3 to 8, on plain operands: the left one in region `g`, and the right one in region `h`.
fn by_regions(op: BinaryOp, operands: Operands, g: Region, h: Region) -> Result<Value, Fault>
    requires left { cst g ≡ false → operands.left.width ≡ 32 }
    requires right { cst h ≡ false → operands.left.width ≡ 32 }
    ensures { outcome result ≡ by_regions op operands.left.width g operands.left.number h operands.right.number }
{
    match (op, g, h) {
        (BinaryOp::Divide(_), Region::Cst, Region::Cst) if operands.right.number == 0 => Err(
            Fault::ZeroDivisor,
        ),
        (_, Region::Cst, Region::Cst) => result_in(Region::Cst, op, operands),
        (BinaryOp::Compare(_), _, _) if g == h => result_in(Region::Cst, op, operands),
        (BinaryOp::Add, _, _) if h == Region::Cst => result_in(g, op, operands),
        (BinaryOp::Add, _, _) if g == Region::Cst => result_in(h, op, operands),
        (BinaryOp::Sub, _, _) if h == Region::Cst => result_in(g, op, operands),
        (BinaryOp::Sub, _, _) if g == h => result_in(Region::Cst, op, operands),
        (BinaryOp::Compare(Comparison::Equal), _, _) => Value::from_bits(1, 0),
        (BinaryOp::Compare(Comparison::NotEqual), _, _) => Value::from_bits(1, 1),
        _ => Err(Fault::NoExactValue),
    }
}

// The eight rules, tried from the top.
fn by_rules(op: BinaryOp, left: Value, right: Value) -> Result<Value, Fault>
    ensures { outcome result ≡ by_rules op left.row right.row }
{
    let a = left.row();
    let b = right.row();
    let width = left.width();
    if !a.defined || !b.defined {
        return Value::undefined(result_width(op, width));
    }
    let are_alike = !a.is_part() && !b.is_part() && width == right.width();
    require(are_alike, Fault::NoExactValue)?;
    let operands = Operands {
        left: Word::of(left),
        right: Word::of(right),
    };
    by_regions(op, operands, a.region, b.region)
}

fn size_of(regions: &[RegionRecord], k: u8) -> u16
    ensures { result ≡ size_of regions.now k }
{
    let record = k.checked_sub(1).and_then(|i| regions.get(i as usize));
    record.map_or(0, |record| record.size)
}

fn is_inside(regions: &[RegionRecord], region: Region, offset: u64) -> bool
    ensures { result ≡ inside regions.now region offset }
{
    match region {
        Region::Malloc(k) => offset < size_of(regions, k) as u64,
        _ => true,
    }
}

fn bounded(regions: &[RegionRecord], v: Value) -> Result<Value, Fault>
    ensures { outcome result ≡ within regions.now (Ok v.row) }
{
    let row = v.row();
    require(
        is_inside(regions, row.region, row.number),
        Fault::OutsideRegion,
    )?;
    Ok(v)
}

// What an operator of two operands answers, with the malloc regions of the run.
pub fn apply(
    op: BinaryOp,
    left: Value,
    right: Value,
    regions: &[RegionRecord],
) -> Result<Value, Fault>
    ensures { outcome result ≡ applied regions.now op left.row right.row }
{
    let v = by_rules(op, left, right)?;
    bounded(regions, v)
}
