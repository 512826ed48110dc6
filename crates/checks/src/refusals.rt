use crate::samples::*;
use expression::nodes::*;
use instruction::tables::*;
use operator::ops::*;

#[test]
fn address_order(rt: HostRuntime) {
    let twice = [stop(at(0, 0)), stop(at(0, 0))];
    let back = [stop(at(0, 0)), stop(at(7, 0)), stop(at(6, 255))];
    let up = [stop(at(0, 0)), stop(at(0, 1)), stop(at(1, 0))];
    assert_eq!(rt; answered(tables(&[], &[], &twice)), Err((3, 2, 0)));
    assert_eq!(rt; answered(tables(&[], &[], &back)), Err((3, 3, 0)));
    assert_eq!(rt; answered(tables(&[], &[], &up)), Ok(0));
}

#[test]
fn declared_width(rt: HostRuntime) {
    let instructions = [stop(at(0, 0))];
    assert_eq!(rt;
        answered(tables(&[8, 64, 0, 65], &[], &instructions)),
        Err((2, 3, 0))
    );
}

#[test]
fn spans(rt: HostRuntime) {
    let nodes = [number(1, 8)];
    let empty = assign(span(0, 0));
    let past = assign(span(0, 2));
    assert_eq!(rt; answered(tables(&[8], &nodes, &empty)), Err((4, 1, 0)));
    assert_eq!(rt; answered(tables(&[8], &nodes, &past)), Err((4, 1, 0)));
}

#[test]
fn undeclared(rt: HostRuntime) {
    let next = at(0, 1);
    let zero = Action::Undef {
        left: Left::Variable(0),
        next,
    };
    let two = Action::Undef {
        left: Left::Variable(2),
        next,
    };
    assert_eq!(rt; expression(8, &[Node::Variable(0)]), Err((4, 1, 1)));
    assert_eq!(rt; expression(8, &[Node::Variable(2)]), Err((4, 1, 1)));
    assert_eq!(rt; action(&[8], &[], zero), Err((4, 1, 0)));
    assert_eq!(rt; action(&[8], &[], two), Err((4, 1, 0)));
}

#[test]
fn items(rt: HostRuntime) {
    let add = Node::Binary(BinaryOp::Add);
    let not = Node::Unary(UnaryOp::Not);
    assert_eq!(rt; expression(8, &[not]), Err((5, 1, 1)));
    assert_eq!(rt; expression(8, &[number(1, 8), add]), Err((5, 1, 2)));
    assert_eq!(rt;
        expression(8, &[number(1, 8), Node::Concatenate]),
        Err((5, 1, 2))
    );
    assert_eq!(rt;
        expression(8, &[number(1, 8), number(1, 8), not]),
        Err((5, 1, 3))
    );
}

#[test]
fn rules_of_nodes(rt: HostRuntime) {
    let add = Node::Binary(BinaryOp::Add);
    let widen = Node::Unary(UnaryOp::Extend(Reading::Unsigned, 8));
    let too_wide = Node::Unary(UnaryOp::Extend(Reading::Signed, 65));
    let past = Node::Unary(UnaryOp::Restrict(0, 8));
    let backward = Node::Unary(UnaryOp::Restrict(2, 1));
    assert_eq!(rt;
        expression(8, &[number(1, 8), number(1, 9), add]),
        Err((6, 1, 3))
    );
    assert_eq!(rt; expression(8, &[number(1, 8), widen]), Err((6, 1, 2)));
    assert_eq!(rt; expression(8, &[number(1, 7), widen]), Ok(1));
    assert_eq!(rt; expression(8, &[number(1, 8), too_wide]), Err((6, 1, 2)));
    assert_eq!(rt; expression(8, &[number(1, 8), past]), Err((6, 1, 2)));
    assert_eq!(rt; expression(8, &[number(1, 8), backward]), Err((6, 1, 2)));
}

#[test]
fn stack_constants(rt: HostRuntime) {
    let wide = Literal {
        number: 8,
        region: FixedRegion::Stack,
        width: 32,
    };
    let narrow = Literal { width: 16, ..wide };
    assert_eq!(rt; expression(32, &[Node::Constant(wide)]), Ok(1));
    assert_eq!(rt; expression(16, &[Node::Constant(narrow)]), Err((6, 1, 1)));
}

// The address of a read has 32 bits.
#[test]
fn addresses(rt: HostRuntime) {
    let read = Node::Read(low_first(1));
    assert_eq!(rt; expression(8, &[number(1, 31), read]), Err((6, 1, 2)));
    let left = Left::Bytes(low_first(1), span(0, 1));
    let next = at(0, 1);
    assert_eq!(rt;
        action(&[], &[number(1, 31)], Action::Undef { left, next }),
        Err((6, 1, 0))
    );
}

#[test]
fn rules_of_assignments(rt: HostRuntime) {
    assert_eq!(rt; expression(9, &[number(1, 8)]), Err((6, 1, 0)));
    let next = at(0, 1);
    let left = Left::Variable(1);
    let region = FixedRegion::Stack;
    let choice = Action::Nondet { region, left, next };
    assert_eq!(rt; action(&[32], &[], choice), Ok(0));
    assert_eq!(rt; action(&[33], &[], choice), Err((6, 1, 0)));
    let size = 1;
    let region = Action::Malloc { left, size, next };
    assert_eq!(rt; action(&[32], &[], region), Ok(0));
    assert_eq!(rt; action(&[31], &[], region), Err((6, 1, 0)));
}

#[test]
fn rules_of_pointers(rt: HostRuntime) {
    let nodes = [number(1, 31), number(1, 32)];
    let next = at(0, 1);
    let free = Action::Free {
        pointer: span(0, 1),
        next,
    };
    let jump = Action::Jump { target: span(0, 1) };
    let right = Action::Jump { target: span(1, 1) };
    assert_eq!(rt; action(&[], &nodes, free), Err((6, 1, 0)));
    assert_eq!(rt; action(&[], &nodes, jump), Err((6, 1, 0)));
    assert_eq!(rt; action(&[], &nodes, right), Ok(1));
}

#[test]
fn rules_of_conditions(rt: HostRuntime) {
    let nodes = [number(1, 1), number(1, 2)];
    let next = at(0, 1);
    let condition = span(1, 1);
    let ite = Action::Ite {
        condition,
        then: next,
        otherwise: next,
    };
    let right = Action::Assume {
        condition: span(0, 1),
        next,
    };
    assert_eq!(rt; action(&[], &nodes, ite), Err((6, 1, 0)));
    assert_eq!(rt;
        action(&[], &nodes, Action::Assert { condition, next }),
        Err((6, 1, 0))
    );
    assert_eq!(rt;
        action(&[], &nodes, Action::Assume { condition, next }),
        Err((6, 1, 0))
    );
    assert_eq!(rt; action(&[], &nodes, right), Ok(1));
}

// A target in another block is at its number 0; the same number in the own block is fine.
#[test]
fn targets(rt: HostRuntime) {
    let absent = before_stop(Action::Goto { next: at(0, 2) });
    assert_eq!(rt; answered(tables(&[], &[], &absent)), Err((7, 1, 0)));
    let middle = [goto(at(1, 1)), stop(at(1, 0)), stop(at(1, 1))];
    assert_eq!(rt; answered(tables(&[], &[], &middle)), Err((7, 1, 0)));
    let nodes = [number(1, 1)];
    let ite = before_stop(Action::Ite {
        condition: span(0, 1),
        then: at(0, 1),
        otherwise: at(9, 0),
    });
    assert_eq!(rt; answered(tables(&[], &nodes, &ite)), Err((7, 1, 0)));
}

#[test]
fn entry(rt: HostRuntime) {
    let instructions = [stop(at(0, 0)), stop(at(0, 1))];
    let mut late = tables(&[], &[], &instructions);
    late.entry = at(0, 1);
    assert_eq!(rt; answered(late), Err((7, 0, 0)));
    let mut absent = tables(&[], &[], &instructions);
    absent.entry = at(1, 0);
    assert_eq!(rt; answered(absent), Err((7, 0, 0)));
}
