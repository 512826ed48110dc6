#![tactic(auto)]

ghost use Rattle.std.specs.Prelude.{◌≡◌};
ghost use Rattle.value.specs.Outcome.{outcome};
ghost use Rattle.pickup.specs.Samples.{decision, sample_in, zero_of, is_negative, magnitude_of, is_picked_up, Measures, Reaches, next_word};

use answer::faults::Fault;
use answer::rules::require;
use operator::binary::apply;
use operator::bits::*;
use operator::ops::*;
use value::rows::*;
use value::values::*;

// A sample word has the sample in its low 12 bits, and the channel above it.
pub const SAMPLE_TOP: u8 = 11;

pub const WORD_TOP: u8 = 15;

// The bytes of a sample word.
const WORD_BYTES: u64 = 2;

// Whether a condition holds.
pub fn decide(condition: Value) -> Result<bool, Fault>
    ensures { result ≡ decision condition.row }
{
    let row = condition.row();
    require(row.defined, Fault::UndefinedUsed)?;
    require(row.region == Region::Cst, Fault::NoExactValue)?;
    Ok(row.number == 1)
}

// The sample of a word, with its sign.
pub fn sample(word: Value) -> Result<Value, Fault>
    ensures { outcome result ≡ sample_in word.row }
{
    let bits = restrict(word, 0, SAMPLE_TOP)?;
    extend(Reading::Signed, bits, ADDRESS_WIDTH)
}

// Zero in the bits of a sample.
fn zero_of(sample: Value) -> Result<Value, Fault>
    ensures { outcome result ≡ zero_of sample.row }
{
    Value::from_bits(sample.width(), 0)
}

fn negative(sample: Value) -> Result<bool, Fault>
    ensures { result ≡ is_negative sample.row }
{
    let zero = zero_of(sample)?;
    let less = BinaryOp::Compare(Comparison::Ordered(Reading::Signed, Order::Less));
    decide(apply(less, sample, zero, &[])?)
}

// The magnitude of a number is the size of what its bits mean.
#[tactic(auto, using(crate::proofs::Sizes::measures))]
fn measures()
    ensures { Measures }
{}

// A number is picked up exactly where it is not below the setting.
#[tactic(auto, using(crate::proofs::Sizes::reaches))]
fn reaches()
    ensures { Reaches }
{}

// How far a sample lies from zero.
pub fn magnitude(sample: Value) -> Result<Value, Fault>
    ensures value { outcome result ≡ magnitude_of sample.row }
    ensures law { Measures }
{
    measures();
    if negative(sample)? {
        let zero = zero_of(sample)?;
        apply(BinaryOp::Sub, zero, sample, &[])
    } else {
        Ok(sample)
    }
}

// Whether a magnitude reaches the setting.
pub fn picked_up(magnitude: Value, setting: Value) -> Result<bool, Fault>
    ensures value { result ≡ is_picked_up magnitude.row setting.row }
    ensures law { Reaches }
{
    reaches();
    let at_least = BinaryOp::Compare(Comparison::Ordered(Reading::Unsigned, Order::GreaterOrEqual));
    decide(apply(at_least, magnitude, setting, &[])?)
}

// The pointer to the next word of the window.
pub fn next(pointer: Value, regions: &[RegionRecord]) -> Result<Value, Fault>
    ensures { outcome result ≡ next_word regions.now pointer.row }
{
    let step = Value::from_bits(ADDRESS_WIDTH, WORD_BYTES)?;
    apply(BinaryOp::Add, pointer, step, regions)
}
