ghost use Rattle.std.specs.Prelude.{◌≡◌};
ghost use Rattle.answer.specs.Numbers.{fault_number, layer_number, node_number, FaultOf};

use std::error::Error;
use std::fmt;

// What can go wrong while a model runs.
#[derive(Clone, Copy, PartialEq, Eq, Debug)]
pub enum Fault {
    UndefinedUsed = 1,
    NoExactValue = 2,
    ZeroDivisor = 3,
    OutsideRegion = 4,
    RegionFreed = 5,
    ReadDenied = 6,
    WriteDenied = 7,
    ExecutionDenied = 8,
    NoInstruction = 9,
    AssertFalse = 10,
    InvalidFree = 11,
    ChoicesSpent = 12,
    NoRoom = 13,
}

impl Fault {
    pub fn number(&self) -> u8
        ensures { result ≡ fault_number self.now }
    {
        *self as u8
    }

    // What a tester reads beside the number.
    fn meaning(&self) -> &'static str {
        match self {
            Fault::UndefinedUsed => "an undefined value was used",
            Fault::NoExactValue => "the operation has no exact value",
            Fault::ZeroDivisor => "the divisor is zero",
            Fault::OutsideRegion => "outside the region, or past the last address",
            Fault::RegionFreed => "the region was freed",
            Fault::ReadDenied => "reading is denied",
            Fault::WriteDenied => "writing is denied",
            Fault::ExecutionDenied => "execution is denied",
            Fault::NoInstruction => "no instruction stands at the address",
            Fault::AssertFalse => "an assertion is false",
            Fault::InvalidFree => "freed what is not offset 0 of a malloc region",
            Fault::ChoicesSpent => "the choices are spent",
            Fault::NoRoom => "no room is left",
        }
    }
}

impl fmt::Display for Fault {
    fn fmt<W: fmt::Write>(&self, f: &mut fmt::Formatter<W>) -> fmt::Result {
        write!(f, "fault {}: {}", self.number(), self.meaning())
    }
}

impl Error for Fault {}

// A number that no fault has.
#[derive(Clone, Copy, PartialEq, Eq, Debug)]
pub struct NoSuchFault(pub u8);

impl TryFrom<u8> for Fault {
    type Error = NoSuchFault;

    ghost try_from_gives = { FaultOf };

    fn try_from(number: u8) -> Result<Fault, NoSuchFault> {
        match number {
            1 => Ok(Fault::UndefinedUsed),
            2 => Ok(Fault::NoExactValue),
            3 => Ok(Fault::ZeroDivisor),
            4 => Ok(Fault::OutsideRegion),
            5 => Ok(Fault::RegionFreed),
            6 => Ok(Fault::ReadDenied),
            7 => Ok(Fault::WriteDenied),
            8 => Ok(Fault::ExecutionDenied),
            9 => Ok(Fault::NoInstruction),
            10 => Ok(Fault::AssertFalse),
            11 => Ok(Fault::InvalidFree),
            12 => Ok(Fault::ChoicesSpent),
            13 => Ok(Fault::NoRoom),
            _ => Err(NoSuchFault(number)),
        }
    }
}

impl fmt::Display for NoSuchFault {
    fn fmt<W: fmt::Write>(&self, f: &mut fmt::Formatter<W>) -> fmt::Result {
        write!(f, "no fault has the number {}", self.0)
    }
}

impl Error for NoSuchFault {}

// The part of a step in which a fault arose: an operator, an access to memory, or the rest.
#[derive(Clone, Copy, PartialEq, Eq)]
pub enum Layer {
    Arithmetic = 1,
    Memory = 2,
    Control = 3,
}

impl Layer {
    pub fn number(&self) -> u8
        ensures { result ≡ layer_number self.now }
    {
        *self as u8
    }
}

impl fmt::Display for Layer {
    fn fmt<W: fmt::Write>(&self, f: &mut fmt::Formatter<W>) -> fmt::Result {
        f.write_str(match self {
            Layer::Arithmetic => "arithmetic",
            Layer::Memory => "memory",
            Layer::Control => "control",
        })
    }
}

// The end of a text that names a place: the node, where one is concerned.
pub(crate) fn close_at_node<W: fmt::Write>(
    f: &mut fmt::Formatter<W>,
    node: Option<u16>,
) -> fmt::Result {
    match node {
        None => write!(f, ")"),
        Some(node) => write!(f, ", node {node})"),
    }
}

// A fault with its place: the instruction, and the node in the node table where one is concerned, each counted from 1.
#[derive(Clone, Copy, PartialEq, Eq)]
pub struct Failure {
    pub fault: Fault,
    pub layer: Layer,
    pub instruction: u16,
    pub node: Option<u16>,
}

impl Failure {
    // The node as a number, 0 for none.
    pub fn node_number(&self) -> u16
        ensures { result ≡ node_number self.now.node }
    {
        self.node.unwrap_or(0)
    }
}

impl fmt::Display for Failure {
    fn fmt<W: fmt::Write>(&self, f: &mut fmt::Formatter<W>) -> fmt::Result {
        let Failure {
            fault,
            layer,
            instruction,
            node,
        } = *self;
        write!(f, "{fault} (in {layer}, at instruction {instruction}")?;
        close_at_node(f, node)
    }
}
