ghost use Rattle.std.specs.Prelude.{◌≡◌, Decides};
ghost use Rattle.value.specs.Outcome.{outcome};
ghost use Rattle.vector.specs.Worked.{worked};

use answer::faults::Fault;
use operator::ops::{BinaryOp, UnaryOp};
use operator::{binary, bits, unary};
use value::rows::RegionRecord;
use value::values::Value;

// An operator with its operands.
#[derive(Clone, Copy)]
pub enum Case {
    Binary(BinaryOp, Value, Value),
    Concatenate(Value, Value),
    Unary(UnaryOp, Value),
}

// What the library answers.
pub fn evaluate(case: Case, regions: &[RegionRecord]) -> Result<Value, Fault>
    ensures { outcome result ≡ worked regions.now case }
{
    match case {
        Case::Binary(op, left, right) => binary::apply(op, left, right, regions),
        Case::Concatenate(left, right) => bits::concatenate(left, right),
        Case::Unary(op, v) => unary::apply(op, v),
    }
}

// Whether two answers are one: the same value, bit by bit, or the same fault.
#[tactic(auto, using(crate::proofs::Alike::alike))]
pub fn agrees(answer: Result<Value, Fault>, expected: Result<Value, Fault>) -> bool
    ensures { Decides result (outcome answer ≡ outcome expected) }
{
    answer == expected
}
