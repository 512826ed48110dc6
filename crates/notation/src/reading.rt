// Text to cases. It is proved how a line is cut into words, and that what is read stands in them, word by word; that each
// well-formed text is read is proved of decimals, widths, faults and operators of two operands, and tested of the rest.
ghost use Rattle.std.specs.Prelude.{◌≡◌, ℕ, ◌+◌, ◌^◌, ◌<◌, ◌≤◌, length, IfSome, IfOk, vec_len, MatchOption, ◌≢◌, map};
ghost use Rattle.notation.specs.Lines.{words_of, line_text};
ghost use Rattle.std.specs.Option.{SomeIff};
ghost use Rattle.std.specs.Str.Parse.{IsNumeral, digits_value};
ghost use Rattle.notation.specs.declared.reading.Unread.TheVariants.{Malformed, NoMemory};
ghost use Rattle.notation.specs.Texts.{NumeralBelow, Span, NumberText, UndefinedText, PointerText, RowText, ResultText};
ghost use Rattle.notation.specs.Words.{operator_word, UnaryWord, OfTwo, OfOne, OfSize, OfSizes, TriesOne, TriesTwo, OfWords, Few};

use answer::faults::Fault;
use answer::rules::require;
use operator::ops::*;
use std::alloc::{AllocError, AllocFailed, Global};
use std::fmt;
use value::rows::*;
use value::values::{ADDRESS_WIDTH, Value};
use vector::working::Case;

// The most malloc regions that a line of sizes gives.
const MOST_SIZES: usize = 64;

// What a well-formed line says.
#[derive(Drop)]
pub enum Entry {
    Nothing,
    Sizes(Vec<RegionRecord>),
    Try(Case, Result<Value, Fault>),
}

// Why a line says nothing.
#[derive(Clone, Copy)]
pub enum Reason {
    NotText,
    NoCase,
    NoOperator,
    NoValue,
    NoResult,
    NoSizes,
}

impl fmt::Display for Reason {
    fn fmt<W: fmt::Write>(&self, f: &mut fmt::Formatter<W>) -> fmt::Result {
        f.write_str(match self {
            Reason::NotText => "not UTF-8 text",
            Reason::NoCase => "neither a case nor sizes",
            Reason::NoOperator => "no such operator",
            Reason::NoValue => "no such value",
            Reason::NoResult => "no such result",
            Reason::NoSizes => "no such sizes",
        })
    }
}

// Why a line was not read.
#[derive(Clone, Copy)]
pub enum Unread {
    Malformed(Reason),
    NoMemory,
}

impl From<Reason> for Unread {
    ghost from_gives = { λ reason r. r ≡ Malformed reason };

    fn from(reason: Reason) -> Unread {
        Unread::Malformed(reason)
    }
}

impl From<AllocError> for Unread {
    ghost from_gives = { λ _ r. r ≡ NoMemory };

    fn from(_: AllocError) -> Unread {
        Unread::NoMemory
    }
}

impl<T: Drop> From<AllocFailed<T>> for Unread {
    ghost from_gives = { λ _ r. r ≡ NoMemory };

    fn from(_: AllocFailed<T>) -> Unread {
        Unread::NoMemory
    }
}

// Digits and nothing else, at least one.
fn decimal(text: &str) -> Option<u64>
    ensures { SomeIff result (NumeralBelow (2 ^ 64) text.now) (digits_value 10 text.now) }
{
    text.parse().ok().filter(|_| !text.starts_with('+'))
}

fn byte(text: &str) -> Option<u8>
    ensures { SomeIff result (NumeralBelow (2 ^ 8) text.now) (digits_value 10 text.now) }
{
    u8::try_from(decimal(text)?).ok()
}

// `I,J}`.
fn range(text: &str) -> Option<(u8, u8)>
    ensures { IfSome result (λ p. Span text.now p.0 p.1) }
{
    let (low, high) = text.strip_suffix('}')?.split_once(',')?;
    Some((byte(low)?, byte(high)?))
}

// A number of 8 bits that is not 0.
fn width(text: &str) -> Option<u8>
    ensures { SomeIff result (NumeralBelow (2 ^ 8) text.now × (1 ≤ digits_value 10 text.now)) (digits_value 10 text.now) }
{
    byte(text).filter(|width| *width > 0)
}

// `W:N`, the number N of width W.
fn number(text: &str) -> Option<Row>
    ensures { IfSome result (NumberText text.now) }
{
    let (digits, number) = text.split_once(':')?;
    Some(Row::plain(Region::Cst, width(digits)?, decimal(number)?))
}

// `W`, the undefined value of that width.
fn undefined(text: &str) -> Option<Row>
    ensures { IfSome result (UndefinedText text.now) }
{
    Some(Row::undefined(width(text)?))
}

// `N`, an offset in a region, or `N{I,J}`, some of its bits and not all.
fn pointer(region: Region, text: &str) -> Option<Row>
    ensures { IfSome result (PointerText region text.now) }
{
    let Some((offset, bits)) = text.split_once('{') else {
        return Some(Row::plain(region, ADDRESS_WIDTH, decimal(text)?));
    };
    let (low, high) = range(bits)?;
    let row = Row {
        low,
        high,
        ..Row::plain(region, ADDRESS_WIDTH, decimal(offset)?)
    };
    row.is_part().then_some(row)
}

// `C:W:N`, `U:W`, and with a region `S` or `Mk` in front `S:N` and `S:N{I,J}`.
fn row(text: &str) -> Option<Row>
    ensures { IfSome result (RowText text.now) }
{
    let (kind, rest) = text.split_once(':')?;
    match kind {
        "C" => number(rest),
        "U" => undefined(rest),
        "S" => pointer(Region::Stack, rest),
        _ => pointer(Region::Malloc(byte(kind.strip_prefix('M')?)?), rest),
    }
}

fn value(text: &str) -> Option<Value>
    ensures { IfSome result (λ v. RowText text.now v.row) }
{
    Value::from_row(row(text)?)
}

// A value, or `!F` for the fault of that number.
fn result(text: &str) -> Option<Result<Value, Fault>>
    ensures { IfSome result (ResultText text.now) }
{
    match text.strip_prefix('!') {
        Some(number) => Some(Err(Fault::try_from(byte(number)?).ok()?)),
        None => Some(Ok(value(text)?)),
    }
}

fn binary_op(word: &str) -> Option<BinaryOp>
    ensures { MatchOption result ((op : BinaryOp) → operator_word op ≢ word.now) (λ op. operator_word op ≡ word.now) }
{
    match word {
        "+" => Some(BinaryOp::Add),
        "-" => Some(BinaryOp::Sub),
        "*" => Some(BinaryOp::Mul),
        "/u" => Some(BinaryOp::Divide(Division::Quotient(Reading::Unsigned))),
        "/s" => Some(BinaryOp::Divide(Division::Quotient(Reading::Signed))),
        "%u" => Some(BinaryOp::Divide(Division::Remainder(Reading::Unsigned))),
        "%s" => Some(BinaryOp::Divide(Division::Remainder(Reading::Signed))),
        "and" => Some(BinaryOp::And),
        "or" => Some(BinaryOp::Or),
        "=" => Some(BinaryOp::Compare(Comparison::Equal)),
        "!=" => Some(BinaryOp::Compare(Comparison::NotEqual)),
        "<u" => Some(BinaryOp::Compare(Comparison::Ordered(Reading::Unsigned, Order::Less))),
        "<=u" => Some(BinaryOp::Compare(Comparison::Ordered(
            Reading::Unsigned,
            Order::LessOrEqual,
        ))),
        ">=u" => Some(BinaryOp::Compare(Comparison::Ordered(
            Reading::Unsigned,
            Order::GreaterOrEqual,
        ))),
        ">u" => Some(BinaryOp::Compare(Comparison::Ordered(Reading::Unsigned, Order::Greater))),
        "<s" => Some(BinaryOp::Compare(Comparison::Ordered(Reading::Signed, Order::Less))),
        "<=s" => Some(BinaryOp::Compare(Comparison::Ordered(Reading::Signed, Order::LessOrEqual))),
        ">=s" => Some(BinaryOp::Compare(Comparison::Ordered(
            Reading::Signed,
            Order::GreaterOrEqual,
        ))),
        ">s" => Some(BinaryOp::Compare(Comparison::Ordered(Reading::Signed, Order::Greater))),
        _ => None,
    }
}

// `not`, `extu:K`, `exts:K` or `{I,J}`.
fn unary_op(word: &str) -> Option<UnaryOp>
    ensures { IfSome result (UnaryWord word.now) }
{
    match word.split_once(':') {
        Some(("extu", width)) => Some(UnaryOp::Extend(Reading::Unsigned, byte(width)?)),
        Some(("exts", width)) => Some(UnaryOp::Extend(Reading::Signed, byte(width)?)),
        _ if word == "not" => Some(UnaryOp::Not),
        _ => {
            let (low, high) = range(word.strip_prefix('{')?)?;
            Some(UnaryOp::Restrict(low, high))
        }
    }
}

fn case_of_one(word: &str, v: Value) -> Option<Case>
    ensures { IfSome result (OfOne word.now v) }
{
    Some(Case::Unary(unary_op(word)?, v))
}

fn case_of_two(word: &str, left: Value, right: Value) -> Option<Case>
    ensures { IfSome result (OfTwo word.now left right) }
{
    match word {
        "::" => Some(Case::Concatenate(left, right)),
        _ => Some(Case::Binary(binary_op(word)?, left, right)),
    }
}

// A malloc region of the size that a word gives.
fn region(word: &str) -> Option<RegionRecord>
    ensures { IfSome result (OfSize word.now) }
{
    let size = u16::try_from(decimal(word)?).ok().filter(|size| *size > 0)?;
    Some(RegionRecord { size, freed: false })
}

// The table of malloc regions that the words give the sizes of.
fn regions(heap: Global, words: &[&str]) -> Result<Vec<RegionRecord>, Unread>
    ensures sizes { IfOk result (λ v. OfSizes (map (λ w. w.now) words.now) v.items) }
    ensures few { IfOk result (λ v. vec_len v ≤ 64) }
{
    require(words.len() <= MOST_SIZES, Reason::NoSizes)?;
    words
        .iter()
        .map(|word| region(word).ok_or(Unread::Malformed(Reason::NoSizes)))
        .try_collect(heap)
}

fn words<'a>(heap: Global, text: &'a str) -> Result<Vec<&'a str>, AllocError>
    ensures { IfOk result (λ v. map (λ w. w.now) v.items ≡ words_of text.now) }
{
    text.split([' ', '\t'])
        .filter(|word| !word.is_empty())
        .collect(heap)
}

fn try_one(op: &str, v: &str, expected: &str) -> Result<Entry, Reason>
    ensures { IfOk result (TriesOne op.now v.now expected.now) }
{
    let v = value(v).ok_or(Reason::NoValue)?;
    let case = case_of_one(op, v).ok_or(Reason::NoOperator)?;
    let expected = result(expected).ok_or(Reason::NoResult)?;
    Ok(Entry::Try(case, expected))
}

fn try_two(op: &str, left: &str, right: &str, expected: &str) -> Result<Entry, Reason>
    ensures { IfOk result (TriesTwo op.now left.now right.now expected.now) }
{
    let left = value(left).ok_or(Reason::NoValue)?;
    let right = value(right).ok_or(Reason::NoValue)?;
    let case = case_of_two(op, left, right).ok_or(Reason::NoOperator)?;
    let expected = result(expected).ok_or(Reason::NoResult)?;
    Ok(Entry::Try(case, expected))
}

fn read_words(heap: Global, words: &[&str]) -> Result<Entry, Unread>
    ensures { IfOk result (OfWords (map (λ w. w.now) words.now)) }
{
    match words {
        [] => Ok(Entry::Nothing),
        ["sizes", sizes @ ..] => Ok(Entry::Sizes(regions(heap, sizes)?)),
        [op, v, "=", expected] => Ok(try_one(op, v, expected)?),
        [op, left, right, "=", expected] => Ok(try_two(op, left, right, expected)?),
        _ => Err(Reason::NoCase.into()),
    }
}

// What a line says, with or without its end.
pub fn read(heap: Global, line: &[u8]) -> Result<Entry, Unread>
    ensures words { IfOk result (OfWords (words_of (line_text line.now))) }
    ensures few { IfOk result Few }
{
    let text = std::str::from_utf8(line).map_err(|_| Reason::NotText)?;
    let text = text.strip_suffix('\n').unwrap_or(text);
    let text = text.strip_suffix('\r').unwrap_or(text);
    read_words(heap, words(heap, text)?.as_slice())
}
