ghost use Rattle.std.specs.Prelude.{◌≡◌, true, [], Decides, IfOk, MatchResult, is_ok};
ghost use Rattle.instruction.specs.Addresses.{known, found, standing_at};
ghost use Rattle.model.specs.Judge.{verdict, passes};
ghost use Rattle.model.specs.Well.{Well};
ghost use Rattle.model.specs.Depths.{Enough};
ghost use Rattle.model.specs.Built.{built_in, first_address};

use crate::judging::{Depth, judge};
use answer::refusals::Refusal;
use answer::standings::Address;
use instruction::lookup::find;
use instruction::tables::{Action, Instruction, Tables};

// A passed model: its tables break no rule. Only `Model::new` and `check` make one.
#[derive(Clone, Copy)]
pub struct Model<'a> {
    tables: Tables<'a>,
    ghost ok: { passes tables.widths.now tables.nodes.now tables.instructions.now tables.entry ≡ true },
}

const FIRST: Address = Address {
    place: 0,
    number: 0,
};

// A single stop.
const BUILT_IN: [Instruction; 1] = [Instruction {
    address: FIRST,
    action: Action::Stop,
}];

impl<'a> Model<'a> {
    // The built-in model: a single stop at place 0, number 0.
    pub fn new() -> Model<'a>
        ensures no_widths { result.tables.widths.now ≡ [] }
        ensures no_nodes { result.tables.nodes.now ≡ [] }
        ensures one_stop { result.tables.instructions.now ≡ built_in }
        ensures entry { result.tables.entry ≡ first_address }
    {
        Model {
            tables: Tables {
                widths: &[],
                nodes: &[],
                instructions: &BUILT_IN,
                entry: FIRST,
            },
        }
    }

    // The tables that passed.
    pub fn tables(&self) -> Tables<'a>
        ensures { result ≡ self.now.tables }
    {
        self.tables
    }

    // The index of the instruction at an address.
    #[tactic(auto, using(crate::proofs::Lookups::rising_passed))]
    pub fn find(&self, address: Address) -> Option<usize>
        ensures { result ≡ found self.now.tables.instructions.now address }
    {
        find(self.tables.instructions, address)
    }

    // The instruction at an address.
    #[tactic(auto, using(std::proofs::lemmas::Grind::common_steps, std::proofs::lemmas::Option::gets, std::proofs::lemmas::List::Folds::find_at))]
    pub fn instruction_at(&self, address: Address) -> Option<Instruction>
        ensures { result ≡ standing_at self.now.tables.instructions.now address }
    {
        self.find(address).map(|i| self.tables.instructions[i])
    }

    // Whether an instruction stands at an address.
    #[tactic(auto, using(crate::proofs::Lookups::known_found))]
    pub fn has(&self, address: Address) -> bool
        ensures { result ≡ known self.now.tables.instructions.now address }
    {
        self.find(address).is_some()
    }
}

// Checks the tables of a model. A pass fills the place with them; a refusal leaves it as it was.
#[tactic(auto, using(crate::proofs::Exactly::exact))]
pub fn check<'a>(place: &mut Model<'a>, tables: Tables<'a>) -> Result<Depth, Refusal>
    ensures answer { result ≡ verdict tables.entry.widths.now tables.entry.nodes.now tables.entry.instructions.now tables.entry.entry }
    ensures filled { MatchResult result (λ d. place.new.tables ≡ tables.entry) (λ e. place.new ≡ place.old) }
    ensures exact { Decides (is_ok result) (Well tables.entry.widths.now tables.entry.nodes.now tables.entry.instructions.now tables.entry.entry) }
    ensures deep { IfOk result (λ d. Enough tables.entry.nodes.now tables.entry.instructions.now d.items) }
{
    let depth = judge(&tables)?;
    *place = Model { tables };
    Ok(depth)
}
