use answer::faults::Fault;
use operator::binary::apply;
use operator::bits::*;
use operator::ops::*;
use std::test::Fail;
use value::values::Value;

const ADD: BinaryOp = BinaryOp::Add;

const SUB: BinaryOp = BinaryOp::Sub;

const MUL: BinaryOp = BinaryOp::Mul;

const AND: BinaryOp = BinaryOp::And;

const OR: BinaryOp = BinaryOp::Or;

const DIV_U: BinaryOp = BinaryOp::Divide(Division::Quotient(Reading::Unsigned));

const DIV_S: BinaryOp = BinaryOp::Divide(Division::Quotient(Reading::Signed));

const REM_U: BinaryOp = BinaryOp::Divide(Division::Remainder(Reading::Unsigned));

const REM_S: BinaryOp = BinaryOp::Divide(Division::Remainder(Reading::Signed));

const EQ: BinaryOp = BinaryOp::Compare(Comparison::Equal);

const NE: BinaryOp = BinaryOp::Compare(Comparison::NotEqual);

const LT_U: BinaryOp = BinaryOp::Compare(Comparison::Ordered(Reading::Unsigned, Order::Less));

const LE_U: BinaryOp = BinaryOp::Compare(Comparison::Ordered(
    Reading::Unsigned,
    Order::LessOrEqual,
));

const GE_U: BinaryOp = BinaryOp::Compare(Comparison::Ordered(
    Reading::Unsigned,
    Order::GreaterOrEqual,
));

const GT_U: BinaryOp = BinaryOp::Compare(Comparison::Ordered(Reading::Unsigned, Order::Greater));

const LT_S: BinaryOp = BinaryOp::Compare(Comparison::Ordered(Reading::Signed, Order::Less));

const LE_S: BinaryOp = BinaryOp::Compare(Comparison::Ordered(Reading::Signed, Order::LessOrEqual));

const GE_S: BinaryOp = BinaryOp::Compare(Comparison::Ordered(
    Reading::Signed,
    Order::GreaterOrEqual,
));

const GT_S: BinaryOp = BinaryOp::Compare(Comparison::Ordered(Reading::Signed, Order::Greater));

// The highest number of 64 bits, which is -1 in two's complement, and the lowest one in two's complement.
const TOP: u64 = u64::MAX;

const LOWEST: u64 = 1 << 63;

fn give(width: u8, cases: &[(BinaryOp, u64, u64, u64)]) -> Result<(), Fail> {
    for &(op, m, n, expected) in cases {
        let left = Value::from_bits(width, m)?;
        let right = Value::from_bits(width, n)?;
        if apply(op, left, right, &[])?.number() != expected {
            return Err(Fail::new("another result"));
        }
    }
    Ok(())
}

#[test]
fn one_bit() -> Result<(), Fail> {
    give(
        1,
        &[
            (ADD, 1, 1, 0),
            (SUB, 0, 1, 1),
            (MUL, 1, 1, 1),
            (AND, 1, 0, 0),
            (OR, 1, 0, 1),
        ],
    )?;
    give(
        1,
        &[
            (DIV_U, 1, 1, 1),
            (DIV_S, 1, 1, 1),
            (REM_U, 1, 1, 0),
            (REM_S, 1, 1, 0),
        ],
    )?;
    give(
        1,
        &[
            (EQ, 1, 1, 1),
            (NE, 1, 1, 0),
            (LT_U, 0, 1, 1),
            (LE_U, 1, 0, 0),
            (GE_U, 1, 1, 1),
            (GT_U, 0, 1, 0),
        ],
    )?;
    give(
        1,
        &[
            (LT_S, 1, 0, 1),
            (LE_S, 0, 1, 0),
            (GE_S, 0, 1, 1),
            (GT_S, 1, 0, 0),
        ],
    )
}

#[test]
fn sixty_four_bits() -> Result<(), Fail> {
    give(
        64,
        &[
            (ADD, TOP, 1, 0),
            (SUB, 0, 1, TOP),
            (MUL, LOWEST, 2, 0),
            (AND, TOP, LOWEST, LOWEST),
            (OR, LOWEST, 1, LOWEST + 1),
        ],
    )?;
    give(
        64,
        &[
            (DIV_U, TOP, LOWEST, 1),
            (DIV_S, LOWEST, TOP, LOWEST),
            (REM_U, TOP, LOWEST, LOWEST - 1),
            (REM_S, LOWEST, TOP, 0),
        ],
    )?;
    give(
        64,
        &[
            (DIV_S, TOP - 6, 2, TOP - 2),
            (REM_S, TOP - 6, 2, TOP),
            (DIV_S, 7, TOP - 1, TOP - 2),
            (REM_S, 7, TOP - 1, 1),
        ],
    )?;
    give(
        64,
        &[
            (EQ, TOP, TOP, 1),
            (NE, TOP, 0, 1),
            (LT_U, TOP, 0, 0),
            (LE_U, TOP, TOP, 1),
            (GE_U, 0, TOP, 0),
            (GT_U, TOP, 0, 1),
        ],
    )?;
    give(
        64,
        &[
            (LT_S, TOP, 0, 1),
            (LE_S, LOWEST, TOP, 1),
            (GE_S, LOWEST - 1, LOWEST, 1),
            (GT_S, TOP, 0, 0),
        ],
    )
}

// The width and the number of a value.
fn numbered(got: Result<Value, Fault>) -> Result<(u8, u64), Fault> {
    got.map(|value| (value.width(), value.number()))
}

#[test]
fn bits(rt: HostRuntime) -> Result<(), Fail> {
    let bit = Value::from_bits(1, 1)?;
    let wide = Value::from_bits(64, LOWEST)?;
    assert_eq!(rt; numbered(not(bit)), Ok((1, 0)));
    assert_eq!(rt; numbered(not(wide)), Ok((64, LOWEST - 1)));
    assert_eq!(rt; numbered(extend(Reading::Unsigned, bit, 64)), Ok((64, 1)));
    assert_eq!(rt; numbered(extend(Reading::Signed, bit, 64)), Ok((64, TOP)));
    assert_eq!(rt;
        numbered(extend(Reading::Unsigned, bit, 65)),
        Err(Fault::NoExactValue)
    );
    assert_eq!(rt;
        numbered(extend(Reading::Signed, wide, 64)),
        Err(Fault::NoExactValue)
    );
    assert_eq!(rt; numbered(restrict(wide, 63, 63)), Ok((1, 1)));
    assert_eq!(rt; numbered(restrict(wide, 0, 63)), Ok((64, LOWEST)));
    Ok(())
}

#[test]
fn joins(rt: HostRuntime) -> Result<(), Fail> {
    let bit = Value::from_bits(1, 1)?;
    let wide = Value::from_bits(64, LOWEST)?;
    let most = Value::from_bits(63, 1)?;
    assert_eq!(rt; numbered(concatenate(bit, bit)), Ok((2, 3)));
    assert_eq!(rt; numbered(concatenate(most, bit)), Ok((64, LOWEST + 1)));
    assert_eq!(rt; numbered(concatenate(bit, most)), Ok((64, 3)));
    assert_eq!(rt; numbered(concatenate(wide, bit)), Err(Fault::NoExactValue));
    assert_eq!(rt; numbered(restrict(wide, 0, 64)), Err(Fault::NoExactValue));
    assert_eq!(rt; numbered(restrict(wide, 1, 0)), Err(Fault::NoExactValue));
    Ok(())
}
