ghost use Rattle.std.specs.Prelude.{◌≡◌};
ghost use Rattle.value.specs.Outcome.{outcome};
ghost use Rattle.operator.specs.Bits.{changed};

use crate::bits::{extend, not, restrict};
use crate::ops::UnaryOp;
use answer::faults::Fault;
use value::values::Value;

// What an operator of one operand answers.
pub fn apply(op: UnaryOp, v: Value) -> Result<Value, Fault>
    ensures { outcome result ≡ changed op v.row }
{
    match op {
        UnaryOp::Not => not(v),
        UnaryOp::Extend(reading, width) => extend(reading, v, width),
        UnaryOp::Restrict(low, high) => restrict(v, low, high),
    }
}
