ghost use Rattle.std.specs.Prelude.{◌≡◌};
ghost use Rattle.answer.specs.Numbers.{node_number};
ghost use Rattle.expression.specs.Walk.{stop};

use answer::faults::Layer;

// Why a walk stops: its span is empty or leaves the table; an operand is missing; too many items are held; not one is
// left; or the arithmetic's own fault, with the layer in which it arose.
#[derive(Clone, Copy)]
pub enum Cause<F> {
    Outside,
    Missing,
    Full,
    NotOne,
    Fault(Layer, F),
}

// A walk that stopped, at a node counted from 1 in the node table, or at none where its span is not there.
#[derive(Clone, Copy)]
pub struct Stopped<F> {
    pub node: Option<u16>,
    pub cause: Cause<F>,
}

impl<F: Copy> Stopped<F> {
    pub fn at(node: Option<u16>, cause: Cause<F>) -> Stopped<F>
        ensures { result ≡ stop node cause }
    {
        Stopped { node, cause }
    }

    // The node as a number, 0 for none.
    pub fn node_number(&self) -> u16
        ensures { result ≡ node_number self.now.node }
    {
        self.node.unwrap_or(0)
    }
}

// What is wrong with a node in bare widths: it names what is not there, or breaks a rule.
#[derive(Clone, Copy, PartialEq, Eq)]
pub enum Defect {
    Unresolved,
    RuleBroken,
}
