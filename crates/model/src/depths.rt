ghost use Rattle.std.specs.Prelude.{◌≡◌};
ghost use Rattle.model.specs.Judge.{expression_peak, action_peak, deepest};

use expression::heights::most_held;
use expression::nodes::{Node, Span, nodes_of};
use instruction::parts;
use instruction::tables::{Action, Instruction};

fn expression_peak(nodes: &[Node], expression: Option<Span>) -> usize
    ensures { result ≡ expression_peak nodes.now expression }
{
    expression.map_or(0, |span| most_held(nodes_of(nodes, span)))
}

fn action_peak(nodes: &[Node], action: Action) -> usize
    ensures { result ≡ action_peak nodes.now action }
{
    let right = expression_peak(nodes, parts::right(action));
    let address = expression_peak(nodes, parts::address(parts::left(action)));
    right.max(address)
}

// The most items that a walk of any expression of the instructions holds.
pub(crate) fn deepest_of(nodes: &[Node], instructions: &[Instruction]) -> usize
    ensures { result ≡ deepest nodes.now instructions.now }
{
    instructions
        .iter()
        .map(|instruction| action_peak(nodes, instruction.action))
        .max()
        .unwrap_or(0)
}
