ghost use Rattle.std.specs.Prelude.{◌≡◌};
ghost use Rattle.expression.specs.Walk.{leaves, stepped, spans, walked};
ghost use Rattle.expression.specs.Follow.{Simulates, Keeps};

use crate::arithmetic::Arithmetic;
use crate::nodes::{NODES, Node, Span, nodes_of};
use crate::stack::Stack;
use crate::stops::{Cause, Stopped};
use answer::faults::Layer;
use answer::rules::require;

// The most items that a walk holds.
pub const HELD: usize = 32;

// Takes one node.
fn step<A: Arithmetic>(
    arithmetic: &A,
    node: Node,
    stack: &mut Stack<A::Item>,
) -> Result<(), Cause<A::Fault>>
    ensures { leaves stack.new result ≡ stepped (A.gives arithmetic.now) node stack.old }
{
    match node {
        Node::Constant(literal) => {
            require(!stack.is_full(), Cause::Full)?;
            stack.push(Layer::Arithmetic, arithmetic.constant(literal))
        }
        Node::Variable(variable) => stack.push(Layer::Arithmetic, arithmetic.variable(variable)),
        Node::Read(access) => {
            arithmetic
                .memory()
                .map_err(|fault| Cause::Fault(Layer::Memory, fault))?;
            let address = stack.pop().ok_or(Cause::Missing)?;
            stack.push(Layer::Memory, arithmetic.read(access, address))
        }
        Node::Unary(op) => {
            let x = stack.pop().ok_or(Cause::Missing)?;
            stack.push(Layer::Arithmetic, arithmetic.unary(op, x))
        }
        Node::Binary(op) => {
            let (x, y) = stack.pop_two().ok_or(Cause::Missing)?;
            stack.push(Layer::Arithmetic, arithmetic.binary(op, x, y))
        }
        Node::Concatenate => {
            let (x, y) = stack.pop_two().ok_or(Cause::Missing)?;
            stack.push(Layer::Arithmetic, arithmetic.concatenation(x, y))
        }
    }
}

// Whether a span has a node, and lies in a table of so many nodes.
pub fn is_inside(span: Span, nodes: usize) -> bool
    ensures { result ≡ spans nodes span }
{
    let end = span.first as usize + span.count as usize;
    span.count > 0 && end <= nodes.min(NODES)
}

// Walks the nodes of a span in order, up to the first fault, with a lent stack.
pub fn walk<A: Arithmetic>(
    arithmetic: &A,
    nodes: &[Node],
    span: Span,
    stack: &mut [A::Item; HELD],
) -> Result<A::Item, Stopped<A::Fault>>
    ensures { result ≡ walked (A.gives arithmetic.now) nodes.now span }
{
    let outside = Stopped::at(None, Cause::Outside);
    require(is_inside(span, nodes.len()), outside)?;
    let mut held = Stack::new(stack);
    let part = nodes_of(nodes, span);
    for (i, node) in part.iter().enumerate() {
        let place = span.first + i as u16 + 1;
        step(arithmetic, *node, &mut held).map_err(|cause| Stopped::at(Some(place), cause))?;
    }
    match (held.pop(), held.pop()) {
        (Some(item), None) => Ok(item),
        _ => Err(Stopped::at(Some(span.first + span.count), Cause::NotOne)),
    }
}

// The simulation between any two arithmetics: where the walk of the second gives an item, that of the first gives a
// related one or its own fault.
#[tactic(auto, using(crate::proofs::Follow::stays))]
pub fn simulates<A: Arithmetic, B: Arithmetic>(first: &A, second: &B)
    ensures { Simulates (A.Arithmetic.gives first.now) (B.Arithmetic.gives second.now) }
{}

// Where the walk in bare widths gives a width, the walk of any arithmetic gives an item of that width or its own fault.
#[tactic(auto, using(crate::proofs::Follow::keeps))]
pub fn keeps_widths<A: Arithmetic>(arithmetic: &A)
    ensures { Keeps (A.widths arithmetic.now) A.wide (A.gives arithmetic.now) }
{}
