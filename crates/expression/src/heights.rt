ghost use Rattle.std.specs.Prelude.{◌≡◌, ◌+◌, ◌^◌, ◌<◌};
ghost use Rattle.expression.specs.Heights.{after_node, peak, Peaks};

use crate::arithmetic::Arithmetic;
use crate::nodes::Node;

fn held_after(node: Node, held: usize) -> usize
    requires { held + 1 < 2 ^ 64 }
    ensures { result ≡ after_node node held }
{
    match node {
        Node::Constant(_) | Node::Variable(_) => held + 1,
        Node::Read(_) | Node::Unary(_) => held,
        Node::Binary(_) | Node::Concatenate => held.saturating_sub(1),
    }
}

// The most items that any walk over the nodes holds at once.
pub fn most_held(nodes: &[Node]) -> usize
    ensures { result ≡ peak 0 nodes.now }
{
    let mut held = 0;
    let mut most = 0;
    for node in nodes {
        held = held_after(*node, held);
        most = most.max(held);
    }
    most
}

// No walk of an arithmetic holds more than the peak of its nodes, and one that gives an item holds at most 32.
#[tactic(auto, using(crate::proofs::Counts::peaks))]
pub fn peaks<A: Arithmetic>(arithmetic: &A)
    ensures { Peaks (A.gives arithmetic.now) }
{}
