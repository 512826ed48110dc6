ghost use Rattle.std.specs.Prelude.{◌≡◌, ℕ, List};
ghost use Rattle.expression.specs.Walk.{Arith};
ghost use Rattle.expression.specs.Widths.{Sound};

use crate::nodes::{Access, Literal};
use operator::ops::{BinaryOp, UnaryOp};

// What the nodes of an expression are worked out in. Every arithmetic has its own kind of item, and every item a width.
pub trait Arithmetic {
    type Item: Copy;

    type Fault: Copy;

    // its meaning: what each kind of node gives for its operands
    ghost gives: { Self → Arith Self.Item Self.Fault };

    ghost wide: { Self.Item → ℕ };

    // the declared widths of its variables
    ghost widths: { Self → List ℕ };

    // the law: an item for operands whose widths meet the rule has the stated width
    ghost sound: { (a : Self) → Sound (widths a) wide (gives a) };

    fn constant(&self, literal: Literal) -> Result<Self::Item, Self::Fault>
        ensures { result ≡ (gives self.now).constant literal };

    fn variable(&self, variable: u8) -> Result<Self::Item, Self::Fault>
        ensures { result ≡ (gives self.now).variable variable };

    // Whether there is a memory to read, asked before a read's operand is.
    fn memory(&self) -> Result<(), Self::Fault>
        ensures { result ≡ (gives self.now).memory };

    fn read(&self, access: Access, address: Self::Item) -> Result<Self::Item, Self::Fault>
        ensures { result ≡ (gives self.now).read access address };

    fn unary(&self, op: UnaryOp, x: Self::Item) -> Result<Self::Item, Self::Fault>
        ensures { result ≡ (gives self.now).unary op x };

    fn binary(&self, op: BinaryOp, x: Self::Item, y: Self::Item) -> Result<Self::Item, Self::Fault>
        ensures { result ≡ (gives self.now).binary op x y };

    // `y` in the bits above `x`.
    fn concatenation(&self, x: Self::Item, y: Self::Item) -> Result<Self::Item, Self::Fault>
        ensures { result ≡ (gives self.now).concatenation x y };
}
