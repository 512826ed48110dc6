use crate::samples::*;
use expression::nodes::*;
use instruction::tables::*;
use operator::ops::BinaryOp;

// The tables' sizes come first, then the declared widths, then the instructions, and the entry last.
#[test]
fn tables_first(rt: HostRuntime) {
    let twice = [stop(at(0, 0)), stop(at(0, 0))];
    assert_eq!(rt; answered(tables(&[0], &[], &[])), Err((1, 0, 0)));
    assert_eq!(rt; answered(tables(&[0], &[], &twice)), Err((2, 1, 0)));
    let mut absent = tables(&[], &[], &twice);
    absent.entry = at(9, 0);
    assert_eq!(rt; answered(absent), Err((3, 2, 0)));
}

// The order of an instruction's address is tried before its expressions.
#[test]
fn order_before_expressions(rt: HostRuntime) {
    let second = first(Action::Jump { target: span(0, 0) });
    assert_eq!(rt;
        answered(tables(&[], &[], &[stop(at(0, 0)), second])),
        Err((3, 2, 0))
    );
}

// The right side is tried before the left one, the left one before the widths, and those before the targets.
#[test]
fn sides(rt: HostRuntime) {
    let nodes = [number(1, 8), Node::Binary(BinaryOp::Add)];
    let absent = at(9, 0);
    let both = Action::Assign {
        left: Left::Variable(2),
        right: span(1, 1),
        next: absent,
    };
    let left = Action::Assign {
        left: Left::Variable(2),
        right: span(0, 1),
        next: absent,
    };
    let rule = Action::Assign {
        left: Left::Variable(1),
        right: span(0, 1),
        next: absent,
    };
    assert_eq!(rt; action(&[9], &nodes, both), Err((5, 1, 2)));
    assert_eq!(rt; action(&[9], &nodes, left), Err((4, 1, 0)));
    assert_eq!(rt; action(&[9], &nodes, rule), Err((6, 1, 0)));
    assert_eq!(rt; action(&[8], &nodes, rule), Err((7, 1, 0)));
}

// A broken target of one instruction comes before the broken order of the next.
#[test]
fn table_order(rt: HostRuntime) {
    let broken = [goto(at(9, 0)), stop(at(0, 0))];
    assert_eq!(rt; answered(tables(&[], &[], &broken)), Err((7, 1, 0)));
}

// At one node: what is not there, then the items, then the rule.
#[test]
fn at_one_node(rt: HostRuntime) {
    let mut nodes = [number(1, 8); 33];
    nodes[32] = number(256, 8);
    assert_eq!(rt; expression(8, &nodes), Err((5, 1, 33)));
    nodes[32] = Node::Variable(2);
    assert_eq!(rt; expression(8, &nodes), Err((4, 1, 33)));
    let read = [Node::Read(low_first(9))];
    assert_eq!(rt; expression(8, &read), Err((5, 1, 1)));
}

// The first node that breaks a rule answers, whatever comes after it.
#[test]
fn node_by_node(rt: HostRuntime) {
    let nodes = [number(256, 8), Node::Variable(9), Node::Concatenate];
    assert_eq!(rt; expression(8, &nodes), Err((6, 1, 1)));
    let later = [number(1, 8), Node::Variable(9), number(256, 8)];
    assert_eq!(rt; expression(8, &later), Err((4, 1, 2)));
}
