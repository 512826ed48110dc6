use answer::standings::Address;
use expression::nodes::*;
use instruction::tables::*;
use model::models::{Model, check};

// The depth of tables that pass; else the number, the place and the node of the refusal.
pub(crate) type Answered = Result<usize, (u8, u16, u16)>;

pub(crate) fn answered<'a>(tables: Tables<'a>) -> Answered {
    let mut place = Model::new();
    check(&mut place, tables)
        .map(|depth| depth.items)
        .map_err(|refusal| {
            (
                refusal.reason.number(),
                refusal.place_number(),
                refusal.node_number(),
            )
        })
}

pub(crate) fn at(place: u32, number: u8) -> Address {
    Address { place, number }
}

pub(crate) fn span(first: u16, count: u16) -> Span {
    Span { first, count }
}

// All the nodes.
pub(crate) fn whole(nodes: &[Node]) -> Span {
    span(0, u16::try_from(nodes.len()).unwrap_or(0))
}

pub(crate) fn number(number: u64, width: u8) -> Node {
    Node::Constant(Literal {
        number,
        region: FixedRegion::Cst,
        width,
    })
}

pub(crate) fn low_first(bytes: u8) -> Access {
    Access {
        bytes,
        order: ByteOrder::LowFirst,
    }
}

pub(crate) fn stop(address: Address) -> Instruction {
    Instruction {
        address,
        action: Action::Stop,
    }
}

// An action at place 0.
pub(crate) fn first(action: Action) -> Instruction {
    Instruction {
        address: at(0, 0),
        action,
    }
}

pub(crate) fn goto(next: Address) -> Instruction {
    first(Action::Goto { next })
}

// One action at place 0, and a stop after it.
pub(crate) fn before_stop(action: Action) -> [Instruction; 2] {
    [first(action), stop(at(0, 1))]
}

// Assigns the expression to variable 1.
pub(crate) fn assign(right: Span) -> [Instruction; 2] {
    before_stop(Action::Assign {
        left: Left::Variable(1),
        right,
        next: at(0, 1),
    })
}

// Tables that begin at place 0.
pub(crate) fn tables<'a>(
    widths: &'a [u8],
    nodes: &'a [Node],
    instructions: &'a [Instruction],
) -> Tables<'a> {
    Tables {
        widths,
        nodes,
        instructions,
        entry: at(0, 0),
    }
}

// What the check answers for all the nodes as one expression, assigned to a variable of the width.
pub(crate) fn expression(width: u8, nodes: &[Node]) -> Answered {
    answered(tables(&[width], nodes, &assign(whole(nodes))))
}

// What the check answers for one action.
pub(crate) fn action(widths: &[u8], nodes: &[Node], action: Action) -> Answered {
    answered(tables(widths, nodes, &before_stop(action)))
}
