ghost use Rattle.std.specs.Prelude.{◌≡◌, None};
ghost use Rattle.answer.specs.Numbers.{node_number};
ghost use Rattle.model.specs.Objections.{reason_of, objection_of, at_no_node, placed, refusal};

use answer::refusals::{Place, Reason, Refusal};
use expression::stops::{Cause, Defect, Stopped};

// What is wrong with an instruction, before its place in the table is added, and at which node of the node table, where
// one is concerned.
#[derive(Clone, Copy)]
pub struct Objection {
    pub reason: Reason,
    pub node: Option<u16>,
}

impl Objection {
    // The refusal of the instruction at a place, counted from 1.
    pub(crate) fn at(self, instruction: u16) -> Refusal
        ensures { result ≡ placed instruction self }
    {
        Refusal {
            reason: self.reason,
            place: Some(Place::Instruction(instruction)),
            node: self.node,
        }
    }

    // The node as a number, 0 for none.
    pub fn node_number(&self) -> u16
        ensures { result ≡ node_number self.now.node }
    {
        self.node.unwrap_or(0)
    }
}

// The refusal of what concerns no instruction.
pub(crate) fn refusal(reason: Reason, place: Option<Place>) -> Refusal
    ensures { result ≡ refusal reason place None }
{
    Refusal {
        reason,
        place,
        node: None,
    }
}

fn reason(cause: Cause<Defect>) -> Reason
    ensures { result ≡ reason_of cause }
{
    match cause {
        Cause::Outside => Reason::Unresolved,
        Cause::Missing | Cause::Full | Cause::NotOne => Reason::ItemCount,
        Cause::Fault(_, Defect::Unresolved) => Reason::Unresolved,
        Cause::Fault(_, Defect::RuleBroken) => Reason::RuleBroken,
    }
}

// A rule that concerns no node.
impl From<Reason> for Objection {
    ghost from_gives = { λ r o. o ≡ at_no_node r };

    fn from(reason: Reason) -> Objection {
        Objection { reason, node: None }
    }
}

impl From<Stopped<Defect>> for Objection {
    ghost from_gives = { λ s r. r ≡ objection_of s };

    fn from(stopped: Stopped<Defect>) -> Objection {
        Objection {
            reason: reason(stopped.cause),
            node: stopped.node,
        }
    }
}
