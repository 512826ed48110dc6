// Expressions as trees, by the rules of widths: what the walk in bare widths passes.
#![tactic(auto)]

ghost use Rattle.tree.specs.Trees.{PassesExactly};

// The walk in bare widths gives a width exactly where the nodes of the span are the postfix order of an expression of
// that width that needs no more than 32 items.
#[tactic(auto, using(crate::proofs::Expressions::passes_exactly))]
pub fn passes_exactly()
    ensures { PassesExactly }
{}
