ghost use Rattle.std.specs.Prelude.{◌≡◌, IfOk, Ok};
ghost use Rattle.value.specs.Rows.{number_of, offset_in};
ghost use Rattle.value.specs.Outcome.{outcome};
ghost use Rattle.value.specs.declared.rows.Region.TheVariants.{Malloc};
ghost use Rattle.pickup.specs.Samples.{sample_in, magnitude_of};

use answer::faults::Fault;
use operator::binary::apply;
use operator::bits::*;
use operator::ops::*;
use std::io;
use value::rows::*;
use value::text::Answer;
use value::values::*;

// One cycle of the faulted phase, as the relay's converter left it: 12 bits in two's complement, on channel 3.
const WINDOW: [u64; 6] = [12930, 13468, 12826, 15742, 15204, 15846];

// The setting, in counts of the converter, and how many samples of a window must reach it.
const SETTING: u64 = 600;

const NEEDED: u64 = 3;

// The window fills the first malloc region.
const REGIONS: [RegionRecord; 1] = [RegionRecord {
    size: 12,
    freed: false,
}];

fn number(n: u64) -> Result<Value, Fault>
    ensures { outcome result ≡ number_of 32 n }
{
    Value::from_bits(ADDRESS_WIDTH, n)
}

fn window_at(offset: u64) -> Value
    ensures { result.row ≡ offset_in (Malloc 1) offset }
{
    Value::from_offset(Region::Malloc(1), offset)
}

// What is made of one sample word.
#[derive(Clone, Copy)]
struct Sample {
    word: Value,
    channel: Value,
    bits: Value,
    wide: Value,
    magnitude: Value,
}

fn sample_of(bits: u64) -> Result<Sample, Fault>
    ensures wide { IfOk result (λ s. Ok s.wide.row ≡ sample_in s.word.row) }
    ensures magnitude { IfOk result (λ s. Ok s.magnitude.row ≡ magnitude_of s.wide.row) }
{
    let word = Value::from_bits(pickup::WORD_TOP + 1, bits)?;
    let channel = restrict(word, pickup::SAMPLE_TOP + 1, pickup::WORD_TOP)?;
    let bits = restrict(word, 0, pickup::SAMPLE_TOP)?;
    let wide = pickup::sample(word)?;
    let magnitude = pickup::magnitude(wide)?;
    Ok(Sample {
        word,
        channel,
        bits,
        wide,
        magnitude,
    })
}

fn show_sample(rt: &HostRuntime, pointer: Value, sample: Sample, reaches: bool) -> io::Result<()> {
    let Sample {
        word,
        channel,
        bits,
        wide,
        magnitude,
    } = sample;
    let verdict = if reaches {
        "reaches the setting"
    } else {
        "below"
    };
    println!(rt;
        "  {pointer}: word {word}, channel {channel}, sample {bits}, signed {wide}, magnitude {magnitude}: {verdict}"
    )
}

// Where the walk over the window stands.
#[derive(Clone, Copy)]
struct Walk {
    pointer: Value,
    reached: Value,
    sum: Value,
}

fn visit(rt: &HostRuntime, walk: Walk, bits: u64, setting: Value) -> anyhow::Result<Walk> {
    let sample = sample_of(bits)?;
    let reaches = pickup::picked_up(sample.magnitude, setting)?;
    show_sample(rt, walk.pointer, sample, reaches)?;
    let more = number(reaches as u64)?;
    Ok(Walk {
        pointer: walk.pointer,
        reached: apply(BinaryOp::Add, walk.reached, more, &REGIONS)?,
        sum: apply(BinaryOp::Add, walk.sum, sample.magnitude, &REGIONS)?,
    })
}

// The walk over all samples, which ends at the last one.
fn walk_window(rt: &HostRuntime, setting: Value) -> anyhow::Result<Walk> {
    let start = Walk {
        pointer: window_at(0),
        reached: number(0)?,
        sum: number(0)?,
    };
    let mut walk = visit(rt, start, WINDOW[0], setting)?;
    for bits in &WINDOW[1..] {
        walk.pointer = pickup::next(walk.pointer, &REGIONS)?;
        walk = visit(rt, walk, *bits, setting)?;
    }
    Ok(walk)
}

fn show_decision(rt: &HostRuntime, walk: Walk) -> anyhow::Result<()> {
    let reached = walk.reached;
    let needed = number(NEEDED)?;
    let sum = walk.sum;
    let count = number(WINDOW.len() as u64)?;
    let (mean, rest) = lawful::divide(Reading::Unsigned, sum, count)?;
    let verdict = if pickup::picked_up(reached, needed)? {
        "the relay must pick up"
    } else {
        "the relay must not pick up"
    };
    println!(rt; "  samples that reach the setting: {reached}, needed: {needed}")?;
    println!(rt; "  mean magnitude: {sum} /u {count} is {mean}, remainder {rest}")?;
    println!(rt; "  {verdict}")?;
    Ok(())
}

fn show_end(rt: &HostRuntime, walk: Walk) -> anyhow::Result<()> {
    let start = window_at(0);
    let last = walk.pointer;
    let length = lawful::distance(start, last, &REGIONS)?;
    let past = Answer(pickup::next(last, &REGIONS));
    let back = lawful::there_and_back(start, length, &REGIONS)?;
    println!(rt; "  from {start} to {last} the walk went {length} bytes")?;
    println!(rt; "  {start} + {length} - {length} is {back}")?;
    println!(rt; "  one word further: {past}")?;
    Ok(())
}

fn show_pieces(rt: &HostRuntime, pointer: Value) -> anyhow::Result<()> {
    let low = restrict(pointer, 0, 7)?;
    let high = restrict(pointer, 8, 31)?;
    let joined = lawful::cut_and_join(pointer, 8)?;
    let turned = Answer(concatenate(high, low));
    let byte = lawful::restrict_twice(pointer, 8, 23, 0, 7)?;
    println!(rt; "  {pointer} is kept as {low} and {high}")?;
    println!(rt; "  joined low to high: {joined}")?;
    println!(rt; "  joined high to low: {turned}")?;
    println!(rt; "  the low byte of its bits 8 to 23: {byte}")?;
    Ok(())
}

fn show_faults(rt: &HostRuntime) -> anyhow::Result<()> {
    let unwritten = Value::undefined(16)?;
    let magnitude = pickup::magnitude(pickup::sample(unwritten)?);
    let start = window_at(0);
    let zero = number(0)?;
    let unknown = Value::undefined(ADDRESS_WIDTH)?;
    let quotient = BinaryOp::Divide(Division::Quotient(Reading::Unsigned));
    let magnitude = Answer(magnitude);
    let sum = Answer(apply(BinaryOp::Add, start, start, &REGIONS));
    let mean = Answer(apply(quotient, zero, zero, &REGIONS));
    let mean_of_unknown = Answer(apply(quotient, unknown, zero, &REGIONS));
    println!(rt; "  the magnitude of a word never written, {unwritten}: {magnitude}")?;
    println!(rt; "  {start} + {start}: {sum}")?;
    println!(rt; "  a mean over no samples, {zero} /u {zero}: {mean}")?;
    println!(rt; "  the same of an unknown sum, {unknown} /u {zero}: {mean_of_unknown}")?;
    Ok(())
}

// The pickup decision over one window, from the sample words to the answer.
pub(crate) fn run(rt: &HostRuntime) -> anyhow::Result<()> {
    let setting = number(SETTING)?;
    println!(rt; "Pickup of an overcurrent relay, over one cycle of six samples")?;
    println!(rt; "The window, with the setting {setting}:")?;
    let walk = walk_window(rt, setting)?;
    println!(rt; "The decision:")?;
    show_decision(rt, walk)?;
    println!(rt; "The end of the window:")?;
    show_end(rt, walk)?;
    println!(rt; "A pointer in pieces:")?;
    show_pieces(rt, walk.pointer)?;
    println!(rt; "What a faulty routine would meet:")?;
    show_faults(rt)
}
