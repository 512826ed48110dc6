use answer::faults::*;
use answer::refusals::*;
use answer::standings::*;
use std::test::Fail;
use value::rows::*;
use value::text::*;
use value::values::Value;

#[test]
fn failures(rt: HostRuntime) -> Result<(), Fail> {
    let mut failure = Failure {
        fault: Fault::OutsideRegion,
        layer: Layer::Arithmetic,
        instruction: 3,
        node: Some(7),
    };
    let standing = Standing::Failed(failure);
    let text = format!(in rt.alloc(); "{standing}")?;
    assert_eq!(rt;
        text.as_str(),
        "failed: fault 4: outside the region, or past the last address (in arithmetic, at instruction 3, node 7)"
    );
    failure.node = None;
    let text = format!(in rt.alloc(); "{failure}")?;
    assert_eq!(rt;
        text.as_str(),
        "fault 4: outside the region, or past the last address (in arithmetic, at instruction 3)"
    );
    let standing = Standing::Running(Address {
        place: 4096,
        number: 2,
    });
    let text = format!(in rt.alloc(); "{standing}")?;
    assert_eq!(rt; text.as_str(), "running at place 4096, number 2");
    Ok(())
}

#[test]
fn refusals(rt: HostRuntime) -> Result<(), Fail> {
    let refusal = Refusal {
        reason: Reason::ItemCount,
        place: Some(Place::Condition(2)),
        node: Some(9),
    };
    let text = format!(in rt.alloc(); "{refusal}")?;
    assert_eq!(rt;
        text.as_str(),
        "refusal 5: an item is missing, over 32 are held, or not one is left (at condition 2, node 9)"
    );
    let refusal = Refusal {
        reason: Reason::Halted,
        place: None,
        node: None,
    };
    let text = format!(in rt.alloc(); "{refusal}")?;
    assert_eq!(rt;
        text.as_str(),
        "refusal 14: the machine has halted (at no place)"
    );
    Ok(())
}

#[test]
fn values(rt: HostRuntime) -> Result<(), Fail> {
    let number = Value::from_bits(64, u64::MAX)?;
    let text = format!(in rt.alloc(); "{number}")?;
    assert_eq!(rt; text.as_str(), "18446744073709551615<64>");
    let nothing = Value::undefined(1)?;
    let text = format!(in rt.alloc(); "{nothing}")?;
    assert_eq!(rt; text.as_str(), "undefined<1>");
    let pointer = Value::from_offset(Region::Malloc(64), 65534);
    let text = format!(in rt.alloc(); "{pointer}")?;
    assert_eq!(rt; text.as_str(), "(Malloc 64,65534)");
    let answer = Answer(Err(Fault::ZeroDivisor));
    let text = format!(in rt.alloc(); "{answer}")?;
    assert_eq!(rt; text.as_str(), "fault 3: the divisor is zero");
    Ok(())
}
