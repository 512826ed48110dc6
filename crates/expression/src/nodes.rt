ghost use Rattle.std.specs.Prelude.{◌≡◌};
ghost use Rattle.expression.specs.Walk.{spanned};

use operator::ops::{BinaryOp, UnaryOp};

// The most nodes of a table.
pub const NODES: usize = 512;

// A region that every run has. A table can name no other.
#[derive(Clone, Copy)]
pub enum FixedRegion {
    Cst,
    Stack,
}

// A constant as it is written in a table.
#[derive(Clone, Copy)]
pub struct Literal {
    pub number: u64,
    pub region: FixedRegion,
    pub width: u8,
}

// Which byte of a value has the lowest address.
#[derive(Clone, Copy)]
pub enum ByteOrder {
    LowFirst,
    HighFirst,
}

// How memory is read or written: so many bytes, in an order.
#[derive(Clone, Copy)]
pub struct Access {
    pub bytes: u8,
    pub order: ByteOrder,
}

// One node of an expression in postfix order: operands stand before their operator. Variables count from 1; a read
// takes its address from the node before.
#[derive(Clone, Copy)]
pub enum Node {
    Constant(Literal),
    Variable(u8),
    Read(Access),
    Unary(UnaryOp),
    Binary(BinaryOp),
    Concatenate,
}

// The nodes of one expression in the node table, the first counted from 0.
#[derive(Clone, Copy)]
pub struct Span {
    pub first: u16,
    pub count: u16,
}

// The nodes of a span, as far as the table has them.
pub fn nodes_of(nodes: &[Node], span: Span) -> &[Node]
    ensures { result.now ≡ spanned nodes.now span }
{
    let rest = nodes.get(span.first as usize..).unwrap_or(&[]);
    rest.get(..span.count as usize).unwrap_or(rest)
}
