ghost use Rattle.std.specs.Prelude.{◌≡◌};
ghost use Rattle.answer.specs.Numbers.{standing_number};

use crate::faults::Failure;
use std::fmt;

// Where an instruction stands: a place of the relay's program, and a number within the block at that place. Addresses go
// up by place, and within a place by number.
#[derive(Clone, Copy, PartialEq, Eq, PartialOrd, Ord)]
pub struct Address {
    pub place: u32,
    pub number: u8,
}

impl fmt::Display for Address {
    fn fmt<W: fmt::Write>(&self, f: &mut fmt::Formatter<W>) -> fmt::Result {
        write!(f, "place {}, number {}", self.place, self.number)
    }
}

// How a loaded machine stands: at an address, or halted.
#[derive(Clone, Copy, PartialEq, Eq)]
pub enum Standing {
    Running(Address),
    Ended,
    Blocked,
    Failed(Failure),
}

impl Standing {
    pub fn number(&self) -> u8
        ensures { result ≡ standing_number self.now }
    {
        match self {
            Standing::Running(_) => 0,
            Standing::Ended => 1,
            Standing::Blocked => 2,
            Standing::Failed(_) => 3,
        }
    }
}

impl fmt::Display for Standing {
    fn fmt<W: fmt::Write>(&self, f: &mut fmt::Formatter<W>) -> fmt::Result {
        match *self {
            Standing::Running(address) => write!(f, "running at {address}"),
            Standing::Ended => write!(f, "ended"),
            Standing::Blocked => write!(f, "blocked by a false assumption"),
            Standing::Failed(failure) => write!(f, "failed: {failure}"),
        }
    }
}
