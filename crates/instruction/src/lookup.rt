ghost use Rattle.std.specs.Prelude.{◌≡◌, true};
ghost use Rattle.instruction.specs.Addresses.{before, above, rising, known, found};

use crate::tables::Instruction;
use answer::standings::Address;

pub fn precedes(a: Address, b: Address) -> bool
    ensures { result ≡ before a b }
{
    a < b
}

// Whether an address is above the one before it, where there is one.
pub fn is_above(previous: Option<Address>, address: Address) -> bool
    ensures { result ≡ above previous address }
{
    previous.is_none_or(|before| precedes(before, address))
}

// Whether some instruction stands at an address, in any table.
pub fn is_known(instructions: &[Instruction], address: Address) -> bool
    ensures { result ≡ known instructions.now address }
{
    instructions
        .iter()
        .any(|instruction| instruction.address == address)
}

// The index of the instruction at an address, in a table whose addresses rise, by bisection.
#[tactic(auto, using(crate::proofs::Bisection::found_none, crate::proofs::Bisection::found_at))]
pub fn find(instructions: &[Instruction], address: Address) -> Option<usize>
    ensures { rising instructions.now ≡ true → result ≡ found instructions.now address }
{
    let mut low = 0;
    let mut high = instructions.len();
    while low < high {
        let middle = low + (high - low) / 2;
        let here = instructions[middle].address;
        if here == address {
            return Some(middle);
        }
        if precedes(here, address) {
            low = middle + 1;
        } else {
            high = middle;
        }
    }
    None
}
