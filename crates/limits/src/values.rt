use std::mem::size_of;
use std::test::Fail;
use value::rows::*;
use value::values::Value;

fn row(region: Region, number: u64, low: u8, high: u8) -> Row {
    Row {
        number,
        region,
        defined: true,
        low,
        high,
    }
}

#[test]
fn rows(rt: HostRuntime) {
    assert!(rt; Value::from_row(row(Region::Cst, u64::MAX, 0, 63)).is_some());
    assert!(rt; Value::from_row(row(Region::Cst, 0, 0, 64)).is_none());
    assert!(rt; Value::from_row(row(Region::Cst, 1, 0, 0)).is_some());
    assert!(rt; Value::from_row(row(Region::Cst, 2, 0, 0)).is_none());
    assert!(rt; Value::from_row(row(Region::Cst, 0, 1, 1)).is_none());
    assert!(rt; Value::from_row(row(Region::Stack, u32::MAX as u64, 0, 31)).is_some());
    assert!(rt; Value::from_row(row(Region::Stack, 1 << 32, 0, 31)).is_none());
    assert!(rt; Value::from_row(row(Region::Malloc(64), 0, 31, 31)).is_some());
    assert!(rt; Value::from_row(row(Region::Malloc(64), 0, 31, 32)).is_none());
    assert!(rt; Value::from_row(row(Region::Malloc(64), 0, 9, 8)).is_none());
}

#[test]
fn widths(rt: HostRuntime) {
    assert!(rt; Value::undefined(1).is_ok());
    assert!(rt; Value::undefined(64).is_ok());
    assert!(rt; Value::undefined(0).is_err());
    assert!(rt; Value::undefined(65).is_err());
    assert!(rt; Value::from_bits(64, u64::MAX).is_ok());
    assert!(rt; Value::from_bits(65, 0).is_err());
}

// A drawn number keeps the low bits that its width has room for.
#[test]
fn drawn_numbers(rt: HostRuntime) -> Result<(), Fail> {
    let bit = Value::from_bits(1, u64::MAX)?;
    assert_eq!(rt; bit.number(), 1);
    assert_eq!(rt;
        Value::from_offset(Region::Stack, u64::MAX).number(),
        4294967295
    );
    Ok(())
}

#[test]
fn sizes(rt: HostRuntime) -> Result<(), Fail> {
    let row = size_of::<Row>();
    let region = size_of::<Region>();
    let value = size_of::<Value>();
    let record = size_of::<RegionRecord>();
    println!(rt;
        "bytes of a row {row}, a region {region}, a value {value}, a region record {record}"
    )?;
    assert_eq!(rt; row, 16);
    assert_eq!(rt; region, 2);
    assert_eq!(rt; value, 16);
    assert_eq!(rt; record, 4);
    Ok(())
}
