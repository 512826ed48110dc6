// What follows from the definition of the check. Each function has a theorem for its contract, and does nothing.
ghost use Rattle.model.specs.Depths.{DeepEnough};
ghost use Rattle.model.specs.Well.{Exact};

// The check passes exactly the well-formed tables.
#[tactic(auto, using(crate::proofs::Exactly::exact))]
pub fn check_is_exact()
    ensures { Exact }
{}

// A depth that is reported is at most 32, and no walk of the model holds more items.
pub fn depth_is_enough()
    ensures { DeepEnough }
{}
