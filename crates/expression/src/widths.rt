ghost use Rattle.std.specs.Prelude.{◌≡◌};
ghost use Rattle.expression.specs.Widths.{literal_fits, bytes_fit, declares, width_declared, width_accessed, width_arith, width_unary, widths_sound};

use crate::arithmetic::Arithmetic;
use crate::nodes::{Access, FixedRegion, Literal};
use crate::stops::Defect;
use answer::rules::require;
use operator::binary::result_width;
use operator::ops::{BinaryOp, UnaryOp};
use value::makes::is_no_width;
use value::values::{ADDRESS_WIDTH, WIDEST};

// The most bytes that are read or written at once.
pub const MOST_BYTES: u8 = 8;

// Whether a constant has a width of 1 to 64, 32 in `Stack`, and a number that fits it.
pub fn is_fitting(literal: Literal) -> bool
    ensures { result ≡ literal_fits literal }
{
    let width = literal.width;
    let fits = !is_no_width(width) && (width == WIDEST || literal.number < 1 << width);
    match literal.region {
        FixedRegion::Cst => fits,
        FixedRegion::Stack => fits && width == ADDRESS_WIDTH,
    }
}

// Whether so many bytes are read or written at once.
pub fn are_bytes(count: u8) -> bool
    ensures { result ≡ bytes_fit count }
{
    (1..=MOST_BYTES).contains(&count)
}

// The width of a variable, where it is declared.
pub fn declared_width(declared: &[u8], variable: u8) -> Option<u8>
    ensures { result ≡ width_declared declared.now variable }
{
    let index = variable.checked_sub(1)?;
    declared.get(index as usize).copied()
}

// The width of the bytes that an access reads or writes at an address of a width, where both meet their rules.
pub fn access_width(access: Access, address: u8) -> Option<u8>
    ensures { result ≡ width_accessed access address }
{
    let fits = are_bytes(access.bytes) && address == ADDRESS_WIDTH;
    fits.then(|| 8 * access.bytes)
}

// Whether a variable is declared.
pub fn is_declared(declared: &[u8], variable: u8) -> bool
    ensures { result ≡ declares declared.now variable }
{
    declared_width(declared, variable).is_some()
}

// The arithmetic of bare widths: the rules of the check. Memory may be read or not.
#[derive(Clone, Copy)]
pub struct Widths<'a> {
    pub declared: &'a [u8],
    pub reads: bool,
}

impl<'a> Arithmetic for Widths<'a> {
    type Item = u8;

    type Fault = Defect;

    ghost gives = { λ a. width_arith a.reads a.declared.now };

    ghost wide = { λ w. w };

    ghost widths = { λ a. a.declared.now };

    ghost sound = { λ a. widths_sound a.reads a.declared.now };

    fn constant(&self, literal: Literal) -> Result<u8, Defect> {
        require(is_fitting(literal), Defect::RuleBroken)?;
        Ok(literal.width)
    }

    fn variable(&self, variable: u8) -> Result<u8, Defect> {
        declared_width(self.declared, variable).ok_or(Defect::Unresolved)
    }

    fn memory(&self) -> Result<(), Defect> {
        require(self.reads, Defect::Unresolved)
    }

    fn read(&self, access: Access, address: u8) -> Result<u8, Defect> {
        access_width(access, address).ok_or(Defect::RuleBroken)
    }

    fn unary(&self, op: UnaryOp, x: u8) -> Result<u8, Defect> {
        match op {
            UnaryOp::Not => Ok(x),
            UnaryOp::Extend(_, width) if x < width && width <= WIDEST => Ok(width),
            UnaryOp::Restrict(low, high) if low <= high && high < x => Ok(high - low + 1),
            _ => Err(Defect::RuleBroken),
        }
    }

    fn binary(&self, op: BinaryOp, x: u8, y: u8) -> Result<u8, Defect> {
        require(x == y, Defect::RuleBroken)?;
        Ok(result_width(op, x))
    }

    fn concatenation(&self, x: u8, y: u8) -> Result<u8, Defect> {
        x.checked_add(y)
            .filter(|width| *width <= WIDEST)
            .ok_or(Defect::RuleBroken)
    }
}
