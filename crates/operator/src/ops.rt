// The operators of two operands.
#[derive(Clone, Copy, PartialEq, Eq)]
pub enum BinaryOp {
    Add,
    Sub,
    Mul,
    And,
    Or,
    Divide(Division),
    Compare(Comparison),
}

// How the bits of a number are read: as they stand, or in two's complement.
#[derive(Clone, Copy, PartialEq, Eq)]
pub enum Reading {
    Unsigned,
    Signed,
}

// A signed quotient is rounded toward zero, and a signed remainder has the dividend's sign.
#[derive(Clone, Copy, PartialEq, Eq)]
pub enum Division {
    Quotient(Reading),
    Remainder(Reading),
}

#[derive(Clone, Copy, PartialEq, Eq)]
pub enum Comparison {
    Equal,
    NotEqual,
    Ordered(Reading, Order),
}

#[derive(Clone, Copy, PartialEq, Eq)]
pub enum Order {
    Less,
    LessOrEqual,
    GreaterOrEqual,
    Greater,
}

// The operators of one operand. An extension names the new width, a restriction its lowest and highest bit.
#[derive(Clone, Copy, PartialEq, Eq)]
pub enum UnaryOp {
    Not,
    Extend(Reading, u8),
    Restrict(u8, u8),
}
