use answer::standings::Address;
use expression::nodes::{Access, FixedRegion, Node, Span};

// Where a result goes: a variable, counted from 1, or bytes of memory at the address that an expression gives.
#[derive(Clone, Copy)]
pub enum Left {
    Variable(u8),
    Bytes(Access, Span),
}

// What an instruction does, and where it goes on.
#[derive(Clone, Copy)]
pub enum Action {
    Assign {
        left: Left,
        right: Span,
        next: Address,
    },
    Nondet {
        region: FixedRegion,
        left: Left,
        next: Address,
    },
    Undef {
        left: Left,
        next: Address,
    },
    Malloc {
        left: Left,
        size: u32,
        next: Address,
    },
    Free {
        pointer: Span,
        next: Address,
    },
    Jump {
        target: Span,
    },
    Goto {
        next: Address,
    },
    Ite {
        condition: Span,
        then: Address,
        otherwise: Address,
    },
    Assert {
        condition: Span,
        next: Address,
    },
    Assume {
        condition: Span,
        next: Address,
    },
    Stop,
}

#[derive(Clone, Copy)]
pub struct Instruction {
    pub address: Address,
    pub action: Action,
}

// A model as it is handed in: the widths of its variables, its nodes, its instructions, and the address at which it
// begins.
#[derive(Clone, Copy)]
pub struct Tables<'a> {
    pub widths: &'a [u8],
    pub nodes: &'a [Node],
    pub instructions: &'a [Instruction],
    pub entry: Address,
}
