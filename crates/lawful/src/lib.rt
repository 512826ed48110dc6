// Operations that a law holds of, each with the law on its contract.
#![tactic(auto)]

ghost use Rattle.std.specs.Prelude.{◌≡◌, ◌<◌, ◌⊎◌, [], IfErr, IfOk, Ok, Err};
ghost use Rattle.answer.specs.First.{and_then};
ghost use Rattle.value.specs.Rows.{sound};
ghost use Rattle.value.specs.Outcome.{outcome};
ghost use Rattle.operator.specs.Bits.{restricted};
ghost use Rattle.operator.specs.Rules.{applied};
ghost use Rattle.law.specs.Described.{OneRow};
ghost use Rattle.law.specs.Pieces.{rejoined, Rejoins, Narrows};
ghost use Rattle.law.specs.Pointers.{Returns, Leads};
ghost use Rattle.law.specs.Quotients.{Divides};
ghost use Rattle.law.specs.Orders.{Orders};

use answer::faults::Fault;
use law::theorems;
use operator::binary::apply;
use operator::bits::*;
use operator::ops::*;
use value::rows::*;
use value::values::Value;

// Whether a row is a value's: each value that exists has one sound row, and no other row is sound.
pub fn is_a_value(row: Row) -> bool
    ensures value { result ≡ sound row }
    ensures law { OneRow }
{
    theorems::one_row();
    Value::from_row(row).is_some()
}

// The lowest `k` bits of a value, joined with those above them.
fn rejoin(v: Value, k: u8) -> Result<Value, Fault>
    requires { 0 < k }
    ensures { outcome result ≡ rejoined v.row k }
{
    let low = restrict(v, 0, k - 1)?;
    let high = restrict(v, k, v.width() - 1)?;
    concatenate(low, high)
}

// A value cut below its bit `k` and joined is the value; there is no cut where nothing lies on one side of it.
pub fn cut_and_join(v: Value, k: u8) -> Result<Value, Fault>
    ensures value { outcome result ≡ Ok v.row }
    ensures law { Rejoins }
{
    theorems::rejoins();
    if k > 0 && k < v.width() {
        rejoin(v, k)
    } else {
        Ok(v)
    }
}

// Bits `p` to `q` of bits `i` to `j`: a restriction of a restriction is one restriction.
pub fn restrict_twice(v: Value, i: u8, j: u8, p: u8, q: u8) -> Result<Value, Fault>
    ensures value { outcome result ≡ and_then (restricted v.row i j) (λ s. restricted s p q) }
    ensures law { Narrows }
{
    theorems::narrows();
    restrict(restrict(v, i, j)?, p, q)
}

// A pointer plus a number, minus that number: the pointer again, where both results exist.
pub fn there_and_back(p: Value, n: Value, regions: &[RegionRecord]) -> Result<Value, Fault>
    ensures value { outcome result ≡ and_then (applied regions.now BinaryOp.Add p.row n.row) (λ s. applied regions.now BinaryOp.Sub s n.row) }
    ensures law { Returns }
{
    theorems::returns();
    let there = apply(BinaryOp::Add, p, n, regions)?;
    apply(BinaryOp::Sub, there, n, regions)
}

// What leads from one pointer to another of its region.
pub fn distance(from: Value, to: Value, regions: &[RegionRecord]) -> Result<Value, Fault>
    ensures value { outcome result ≡ applied regions.now BinaryOp.Sub to.row from.row }
    ensures law { Leads }
{
    theorems::leads();
    apply(BinaryOp::Sub, to, from, regions)
}

// Quotient and remainder: by a divisor that is not 0 they give the dividend back.
pub fn divide(reading: Reading, a: Value, b: Value) -> Result<(Value, Value), Fault>
    ensures quotient { IfOk result (λ p. applied [] (BinaryOp.Divide (Division.Quotient reading)) a.row b.row ≡ Ok p.0.row) }
    ensures remainder { IfOk result (λ p. applied [] (BinaryOp.Divide (Division.Remainder reading)) a.row b.row ≡ Ok p.1.row) }
    ensures fault { IfErr result (λ e. (applied [] (BinaryOp.Divide (Division.Quotient reading)) a.row b.row ≡ Err e) ⊎ (applied [] (BinaryOp.Divide (Division.Remainder reading)) a.row b.row ≡ Err e)) }
    ensures law { Divides }
{
    theorems::divides();
    let q = apply(BinaryOp::Divide(Division::Quotient(reading)), a, b, &[])?;
    let r = apply(BinaryOp::Divide(Division::Remainder(reading)), a, b, &[])?;
    Ok((q, r))
}

// Whether the first is at most the second: a total order.
pub fn is_at_most(
    reading: Reading,
    a: Value,
    b: Value,
    regions: &[RegionRecord],
) -> Result<Value, Fault>
    ensures value { outcome result ≡ applied regions.now (BinaryOp.Compare (Comparison.Ordered reading Order.LessOrEqual)) a.row b.row }
    ensures law { Orders }
{
    theorems::orders();
    apply(
        BinaryOp::Compare(Comparison::Ordered(reading, Order::LessOrEqual)),
        a,
        b,
        regions,
    )
}
