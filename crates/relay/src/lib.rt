// The trip routine of a definite-time overcurrent relay, as the tables of a model. It draws a sample word, takes the
// magnitude of the sample in its low 12 bits, counts in memory how many samples in a row reach the pickup setting, and
// closes the contact at the fifth by a write.
#![tactic(auto)]

use answer::standings::Address;
use expression::nodes::*;
use instruction::tables::*;
use operator::ops::*;

// A variable: what it is called, and its width.
#[derive(Clone, Copy)]
pub struct Variable {
    pub name: &'static str,
    pub width: u8,
}

pub const VARIABLES: [Variable; 3] = [
    Variable {
        name: "word",
        width: 16,
    },
    Variable {
        name: "sample",
        width: 32,
    },
    Variable {
        name: "magnitude",
        width: 32,
    },
];

// The widths alone, as the tables take them.
pub const WIDTHS: [u8; 3] = [VARIABLES[0].width, VARIABLES[1].width, VARIABLES[2].width];

const WORD: Node = Node::Variable(1);

const SAMPLE: Node = Node::Variable(2);

const MAGNITUDE: Node = Node::Variable(3);

// 0 in 32 bits and in 16; the other constants differ from one of them.
const ZERO_OF_32: Literal = Literal {
    number: 0,
    region: FixedRegion::Cst,
    width: 32,
};

const ZERO_OF_16: Literal = Literal {
    width: 16,
    ..ZERO_OF_32
};

// The relay's map: the pickup setting (4 bytes), the counter (2 bytes) and the trip contact (1 byte).
const SETTING: Node = Node::Constant(Literal {
    number: 4096,
    ..ZERO_OF_32
});

const COUNTER: Node = Node::Constant(Literal {
    number: 8192,
    ..ZERO_OF_32
});

const CONTACT: Node = Node::Constant(Literal {
    number: 12288,
    ..ZERO_OF_32
});

const ONE_BYTE: Access = Access {
    bytes: 1,
    order: ByteOrder::LowFirst,
};

const TWO_BYTES: Access = Access {
    bytes: 2,
    ..ONE_BYTE
};

const FOUR_BYTES: Access = Access {
    bytes: 4,
    ..ONE_BYTE
};

const NO_SAMPLES: Node = Node::Constant(ZERO_OF_16);

const ONE_SAMPLE: Node = Node::Constant(Literal {
    number: 1,
    ..ZERO_OF_16
});

const FIVE_SAMPLES: Node = Node::Constant(Literal {
    number: 5,
    ..ZERO_OF_16
});

const ZERO: Node = Node::Constant(ZERO_OF_32);

const CLOSED: Node = Node::Constant(Literal {
    number: 1,
    width: 8,
    ..ZERO_OF_32
});

pub const NODES: [Node; 25] = [
    NO_SAMPLES,
    COUNTER,
    WORD,
    Node::Unary(UnaryOp::Restrict(0, 11)),
    Node::Unary(UnaryOp::Extend(Reading::Signed, 32)),
    SAMPLE,
    ZERO,
    Node::Binary(BinaryOp::Compare(Comparison::Ordered(Reading::Signed, Order::Less))),
    ZERO,
    SAMPLE,
    Node::Binary(BinaryOp::Sub),
    MAGNITUDE,
    SETTING,
    Node::Read(FOUR_BYTES),
    Node::Binary(BinaryOp::Compare(Comparison::Ordered(Reading::Unsigned, Order::GreaterOrEqual))),
    COUNTER,
    Node::Read(TWO_BYTES),
    ONE_SAMPLE,
    Node::Binary(BinaryOp::Add),
    COUNTER,
    Node::Read(TWO_BYTES),
    FIVE_SAMPLES,
    Node::Binary(BinaryOp::Compare(Comparison::Ordered(Reading::Unsigned, Order::GreaterOrEqual))),
    CONTACT,
    CLOSED,
];

const COUNTER_BYTES: Left = Left::Bytes(TWO_BYTES, Span { first: 1, count: 1 });

const CONTACT_BYTE: Left = Left::Bytes(
    ONE_BYTE,
    Span {
        first: 23,
        count: 1,
    },
);

// The blocks of the routine by their places, and the instructions within them.
pub const ENTRY: Address = Address {
    place: 256,
    number: 0,
};

const DRAW: Address = Address {
    place: 512,
    number: 0,
};

const EXTEND: Address = Address { number: 1, ..DRAW };

const SIGN: Address = Address { number: 2, ..DRAW };

const TURN: Address = Address { number: 3, ..DRAW };

const KEEP: Address = Address { number: 4, ..DRAW };

const COMPARE: Address = Address {
    place: 768,
    number: 0,
};

const COUNT: Address = Address {
    place: 1024,
    number: 0,
};

const ENOUGH: Address = Address { number: 1, ..COUNT };

const RESET: Address = Address {
    place: 1280,
    number: 0,
};

const TRIP: Address = Address {
    place: 1536,
    number: 0,
};

const HALT: Address = Address { number: 1, ..TRIP };

pub const INSTRUCTIONS: [Instruction; 12] = [
    Instruction {
        address: ENTRY,
        action: Action::Assign {
            left: COUNTER_BYTES,
            right: Span { first: 0, count: 1 },
            next: DRAW,
        },
    },
    Instruction {
        address: DRAW,
        action: Action::Nondet {
            region: FixedRegion::Cst,
            left: Left::Variable(1),
            next: EXTEND,
        },
    },
    Instruction {
        address: EXTEND,
        action: Action::Assign {
            left: Left::Variable(2),
            right: Span { first: 2, count: 3 },
            next: SIGN,
        },
    },
    Instruction {
        address: SIGN,
        action: Action::Ite {
            condition: Span { first: 5, count: 3 },
            then: TURN,
            otherwise: KEEP,
        },
    },
    Instruction {
        address: TURN,
        action: Action::Assign {
            left: Left::Variable(3),
            right: Span { first: 8, count: 3 },
            next: COMPARE,
        },
    },
    Instruction {
        address: KEEP,
        action: Action::Assign {
            left: Left::Variable(3),
            right: Span { first: 5, count: 1 },
            next: COMPARE,
        },
    },
    Instruction {
        address: COMPARE,
        action: Action::Ite {
            condition: Span {
                first: 11,
                count: 4,
            },
            then: COUNT,
            otherwise: RESET,
        },
    },
    Instruction {
        address: COUNT,
        action: Action::Assign {
            left: COUNTER_BYTES,
            right: Span {
                first: 15,
                count: 4,
            },
            next: ENOUGH,
        },
    },
    Instruction {
        address: ENOUGH,
        action: Action::Ite {
            condition: Span {
                first: 19,
                count: 4,
            },
            then: TRIP,
            otherwise: DRAW,
        },
    },
    Instruction {
        address: RESET,
        action: Action::Assign {
            left: COUNTER_BYTES,
            right: Span { first: 0, count: 1 },
            next: DRAW,
        },
    },
    Instruction {
        address: TRIP,
        action: Action::Assign {
            left: CONTACT_BYTE,
            right: Span {
                first: 24,
                count: 1,
            },
            next: HALT,
        },
    },
    Instruction {
        address: HALT,
        action: Action::Stop,
    },
];
