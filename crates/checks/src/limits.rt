use crate::samples::*;
use expression::nodes::*;
use instruction::tables::*;
use operator::ops::BinaryOp;
use std::array;
use std::mem::size_of;
use std::test::Fail;

#[test]
fn instructions(rt: HostRuntime) {
    let instructions: [Instruction; 129] = array::from_fn(|i| stop(at(i as u32, 0)));
    assert_eq!(rt; answered(tables(&[], &[], &instructions[0..128])), Ok(0));
    assert_eq!(rt; answered(tables(&[], &[], &instructions)), Err((1, 0, 0)));
    assert_eq!(rt; answered(tables(&[], &[], &[])), Err((1, 0, 0)));
}

#[test]
fn nodes(rt: HostRuntime) {
    let nodes = [number(1, 8); 513];
    let instructions = assign(span(511, 1));
    assert_eq!(rt;
        answered(tables(&[8], &nodes[0..512], &instructions)),
        Ok(1)
    );
    assert_eq!(rt;
        answered(tables(&[8], &nodes, &instructions)),
        Err((1, 0, 0))
    );
}

#[test]
fn variables(rt: HostRuntime) {
    let widths = [8; 65];
    let nodes = [Node::Variable(64)];
    let instructions = assign(span(0, 1));
    assert_eq!(rt;
        answered(tables(&widths[0..64], &nodes, &instructions)),
        Ok(1)
    );
    assert_eq!(rt;
        answered(tables(&widths, &nodes, &instructions)),
        Err((1, 0, 0))
    );
}

#[test]
fn widths(rt: HostRuntime) {
    assert_eq!(rt; expression(64, &[number(u64::MAX, 64)]), Ok(1));
    assert_eq!(rt; expression(65, &[number(1, 64)]), Err((2, 1, 0)));
    assert_eq!(rt; expression(0, &[number(1, 64)]), Err((2, 1, 0)));
    assert_eq!(rt; expression(64, &[number(0, 65)]), Err((6, 1, 1)));
    assert_eq!(rt; expression(64, &[number(0, 0)]), Err((6, 1, 1)));
    assert_eq!(rt; expression(8, &[number(255, 8)]), Ok(1));
    assert_eq!(rt; expression(8, &[number(256, 8)]), Err((6, 1, 1)));
    let halves = [number(0, 32), number(0, 32), Node::Concatenate];
    assert_eq!(rt; expression(64, &halves), Ok(2));
    let more = [number(0, 33), number(0, 32), Node::Concatenate];
    assert_eq!(rt; expression(64, &more), Err((6, 1, 3)));
}

// 32 constants and then 31 sums hold 32 items at most; one more constant is one too many.
#[test]
fn held(rt: HostRuntime) {
    let mut nodes = [Node::Binary(BinaryOp::Add); 65];
    nodes[0..32].fill(number(1, 8));
    assert_eq!(rt; expression(8, &nodes[0..63]), Ok(32));
    nodes[32] = number(1, 8);
    assert_eq!(rt; expression(8, &nodes), Err((5, 1, 33)));
}

#[test]
fn bytes(rt: HostRuntime) {
    let read = [number(0, 32), Node::Read(low_first(8))];
    assert_eq!(rt; expression(64, &read), Ok(1));
    let more = [number(0, 32), Node::Read(low_first(9))];
    assert_eq!(rt; expression(64, &more), Err((6, 1, 2)));
    let none = [number(0, 32), Node::Read(low_first(0))];
    assert_eq!(rt; expression(64, &none), Err((6, 1, 2)));
}

#[test]
fn left_bytes(rt: HostRuntime) {
    let nodes = [number(0, 32)];
    let address = span(0, 1);
    let next = at(0, 1);
    let eight = Left::Bytes(low_first(8), address);
    let nine = Left::Bytes(low_first(9), address);
    let none = Left::Bytes(low_first(0), address);
    assert_eq!(rt;
        action(&[], &nodes, Action::Undef { left: eight, next }),
        Ok(1)
    );
    assert_eq!(rt;
        action(&[], &nodes, Action::Undef { left: nine, next }),
        Err((6, 1, 0))
    );
    assert_eq!(rt;
        action(&[], &nodes, Action::Undef { left: none, next }),
        Err((6, 1, 0))
    );
}

// 8 times 36 bytes is 32 bits in a byte that wraps.
#[test]
fn bytes_do_not_wrap(rt: HostRuntime) {
    let nodes = [number(0, 32)];
    let left = Left::Bytes(low_first(36), span(0, 1));
    let right = span(0, 1);
    let next = at(0, 1);
    assert_eq!(rt;
        action(&[], &nodes, Action::Assign { left, right, next }),
        Err((6, 1, 0))
    );
}

#[test]
fn malloc(rt: HostRuntime) {
    let left = Left::Variable(1);
    let next = at(0, 1);
    let most = Action::Malloc {
        left,
        size: 65535,
        next,
    };
    let more = Action::Malloc {
        left,
        size: 65536,
        next,
    };
    let none = Action::Malloc {
        left,
        size: 0,
        next,
    };
    assert_eq!(rt; action(&[32], &[], most), Ok(0));
    assert_eq!(rt; action(&[32], &[], more), Err((6, 1, 0)));
    assert_eq!(rt; action(&[32], &[], none), Err((6, 1, 0)));
}

// The last number of a block, and the last place.
#[test]
fn last_addresses(rt: HostRuntime) {
    let last_number = at(0, 255);
    let last_place = at(u32::MAX, 0);
    assert_eq!(rt;
        answered(tables(&[], &[], &[goto(last_number), stop(last_number)])),
        Ok(0)
    );
    assert_eq!(rt;
        answered(tables(&[], &[], &[goto(last_place), stop(last_place)])),
        Ok(0)
    );
}

// A span whose end does not fit 16 bits is outside.
#[test]
fn far_spans(rt: HostRuntime) {
    let nodes = [number(1, 8)];
    let far = assign(span(u16::MAX, u16::MAX));
    assert_eq!(rt; answered(tables(&[8], &nodes, &far)), Err((4, 1, 0)));
}

#[test]
fn sizes(rt: HostRuntime) -> Result<(), Fail> {
    let node = size_of::<Node>();
    let instruction = size_of::<Instruction>();
    let tables = 512 * node + 128 * instruction;
    println!(rt;
        "bytes: node {node}, instruction {instruction}, 512 nodes and 128 instructions {tables}"
    )?;
    assert!(rt; tables <= 17 * 1024);
    Ok(())
}
