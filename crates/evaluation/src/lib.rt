// Values as items of a walk, each held as its row. Of their law of widths stands here what holds of one operand.
#![tactic(auto)]

ghost use Rattle.evaluation.specs.Values.{UnaryFits};

// A node of one operand gives an item of the width that its rule states, or a fault.
#[tactic(auto, using(crate::proofs::Fits::wide_unary))]
pub fn unary_fits()
    ensures { UnaryFits }
{}
