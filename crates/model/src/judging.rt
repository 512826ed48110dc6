ghost use Rattle.std.specs.Prelude.{◌≡◌, ◌≤◌, length, None};
ghost use Rattle.model.specs.Judge.{expressed, right_width, left_width, own_rules, reached, judged_one, judged, widths_judged, sizes_bad, entered, verdict};

use crate::depths::deepest_of;
use crate::objections::{Objection, refusal};
use answer::refusals::{Place, Reason, Refusal};
use answer::rules::require;
use answer::standings::Address;
use expression::nodes::{FixedRegion, NODES, Node, Span};
use expression::walks::{HELD, walk};
use expression::widths::{Widths, access_width, declared_width};
use instruction::lookup::{is_above, is_known};
use instruction::parts;
use instruction::tables::{Action, Instruction, Left, Tables};
use value::makes::is_no_width;
use value::values::ADDRESS_WIDTH;

// The most of each table, and the most bytes of a malloc region.
pub const INSTRUCTIONS: usize = 128;

pub const VARIABLES: usize = 64;

pub const REGION_BYTES: u32 = 65535;

// The most items that a walk of the model holds.
#[derive(Clone, Copy)]
pub struct Depth {
    pub items: usize,
}

// The width of an expression, or what is wrong with it.
fn width_of(tables: &Tables<'_>, span: Span) -> Result<u8, Objection>
    ensures { result ≡ expressed tables.now.widths.now tables.now.nodes.now span }
{
    let arithmetic = Widths {
        declared: tables.widths,
        reads: true,
    };
    let mut stack = [0; HELD];
    Ok(walk(&arithmetic, tables.nodes, span, &mut stack)?)
}

// The width on the right, where there is an expression.
fn width_on_right(tables: &Tables<'_>, right: Option<Span>) -> Result<Option<u8>, Objection>
    ensures { result ≡ right_width tables.now.widths.now tables.now.nodes.now right }
{
    match right {
        None => Ok(None),
        Some(span) => Ok(Some(width_of(tables, span)?)),
    }
}

// The width on the left, where a result goes.
fn width_on_left(tables: &Tables<'_>, left: Option<Left>) -> Result<Option<u8>, Objection>
    ensures { result ≡ left_width tables.now.widths.now tables.now.nodes.now left }
{
    match left {
        None => Ok(None),
        Some(Left::Variable(variable)) => {
            let width = declared_width(tables.widths, variable).ok_or(Reason::Unresolved)?;
            Ok(Some(width))
        }
        Some(Left::Bytes(access, address)) => {
            let address = width_of(tables, address)?;
            let width = access_width(access, address).ok_or(Reason::RuleBroken)?;
            Ok(Some(width))
        }
    }
}

// An action's own rules, of the widths on its right and on its left.
fn are_kept(action: Action, right: Option<u8>, left: Option<u8>) -> bool
    ensures { result ≡ own_rules action right left }
{
    let is_pointer = left == Some(ADDRESS_WIDTH);
    match action {
        Action::Assign { .. } => left == right,
        Action::Nondet {
            region: FixedRegion::Stack,
            ..
        } => is_pointer,
        Action::Malloc { size, .. } => is_pointer && (1..=REGION_BYTES).contains(&size),
        Action::Free { .. } | Action::Jump { .. } => right == Some(ADDRESS_WIDTH),
        Action::Ite { .. } | Action::Assert { .. } | Action::Assume { .. } => right == Some(1),
        Action::Nondet { .. } | Action::Undef { .. } | Action::Goto { .. } | Action::Stop => true,
    }
}

// Whether a target stands in the table, and at number 0 where it is in another block.
fn is_reached(instructions: &[Instruction], from: Address, target: Option<Address>) -> bool
    ensures { result ≡ reached instructions.now from target }
{
    target.is_none_or(|to| {
        is_known(instructions, to) && (to.place == from.place || to.number == 0)
    })
}

// One instruction: its order, the expression on its right, its left side, its own rules, its targets.
fn judge_one(
    tables: &Tables<'_>,
    previous: Option<Address>,
    instruction: Instruction,
) -> Result<(), Objection>
    ensures { result ≡ judged_one tables.now.widths.now tables.now.nodes.now tables.now.instructions.now previous instruction }
{
    let action = instruction.action;
    let address = instruction.address;
    require(is_above(previous, address), Reason::AddressOrder)?;
    let right = width_on_right(tables, parts::right(action))?;
    let left = width_on_left(tables, parts::left(action))?;
    require(are_kept(action, right, left), Reason::RuleBroken)?;
    let next = is_reached(tables.instructions, address, parts::next(action));
    let otherwise = is_reached(tables.instructions, address, parts::otherwise(action));
    require(next && otherwise, Reason::BadTarget)?;
    Ok(())
}

// The instructions in table order: the first broken rule, with its place.
fn judge_instructions(tables: &Tables<'_>) -> Result<(), Refusal>
    requires { length tables.now.instructions.now ≤ 128 }
    ensures { result ≡ judged tables.now.widths.now tables.now.nodes.now tables.now.instructions.now 0 None tables.now.instructions.now }
{
    let mut previous = None;
    for (i, instruction) in tables.instructions.iter().enumerate() {
        judge_one(tables, previous, *instruction).map_err(|objection| objection.at(i as u16 + 1))?;
        previous = Some(instruction.address);
    }
    Ok(())
}

// The declared widths, up to the first that no value has.
fn judge_widths(widths: &[u8]) -> Result<(), Refusal>
    requires { length widths.now ≤ 64 }
    ensures { result ≡ widths_judged widths.now }
{
    match widths.iter().position(|width| is_no_width(*width)) {
        None => Ok(()),
        Some(i) => {
            let variable = Place::Variable(i as u16 + 1);
            Err(refusal(Reason::DeclaredWidth, Some(variable)))
        }
    }
}

// Whether there is no instruction, or a table is over its limit.
fn are_sizes_bad(tables: &Tables<'_>) -> bool
    ensures { result ≡ sizes_bad (length tables.now.widths.now) (length tables.now.nodes.now) (length tables.now.instructions.now) }
{
    tables.instructions.is_empty()
        || tables.instructions.len() > INSTRUCTIONS
        || tables.nodes.len() > NODES
        || tables.widths.len() > VARIABLES
}

fn is_entered(instructions: &[Instruction], entry: Address) -> bool
    ensures { result ≡ entered instructions.now entry }
{
    entry.number == 0 && is_known(instructions, entry)
}

// The first broken rule of the tables, or the depth.
pub(crate) fn judge(tables: &Tables<'_>) -> Result<Depth, Refusal>
    ensures { result ≡ verdict tables.now.widths.now tables.now.nodes.now tables.now.instructions.now tables.now.entry }
{
    require(!are_sizes_bad(tables), refusal(Reason::TableSize, None))?;
    judge_widths(tables.widths)?;
    judge_instructions(tables)?;
    let is_entered = is_entered(tables.instructions, tables.entry);
    require(is_entered, refusal(Reason::BadTarget, None))?;
    Ok(Depth {
        items: deepest_of(tables.nodes, tables.instructions),
    })
}
