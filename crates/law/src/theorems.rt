// The laws themselves: each function has a theorem about the definitions for its contract, and does nothing. A function
// that calls one knows its law.
ghost use Rattle.law.specs.Described.{OneRow};
ghost use Rattle.law.specs.Pieces.{Rejoins, Narrows};
ghost use Rattle.law.specs.Pointers.{Returns, Leads};
ghost use Rattle.law.specs.Quotients.{Divides};
ghost use Rattle.law.specs.Orders.{Orders};
ghost use Rattle.law.specs.Worked.{WorkedCases};

// Each value that exists has one sound row, and every sound row is a value's.
#[tactic(auto, using(crate::proofs::Parts::one_row))]
pub fn one_row()
    ensures { OneRow }
{}

// A value that is cut anywhere inside and joined is the value.
#[tactic(auto, using(crate::proofs::Cuts::rejoins))]
pub fn rejoins()
    ensures { Rejoins }
{}

// A restriction of a restriction is one restriction.
#[tactic(auto, using(crate::proofs::Cuts::narrows))]
pub fn narrows()
    ensures { Narrows }
{}

// A pointer plus a number, minus that number, is the pointer, where both results exist.
pub fn returns()
    ensures { Returns }
{}

// Pointer minus pointer is the number that leads from one to the other.
#[tactic(auto, using(crate::proofs::Offsets::leads))]
pub fn leads()
    ensures { Leads }
{}

// Quotient times divisor plus remainder is the dividend, and the remainder is small.
#[tactic(auto, using(crate::proofs::Quotes::divides))]
pub fn divides()
    ensures { Divides }
{}

// The comparisons are total orders.
#[tactic(auto, using(crate::proofs::Totals::orders))]
pub fn orders()
    ensures { Orders }
{}

// The worked cases hold of the definitions.
pub fn worked_cases()
    ensures { WorkedCases }
{}
