use crate::rows::*;
use crate::values::*;
use answer::faults::Fault;
use std::fmt;

impl fmt::Display for Region {
    fn fmt<W: fmt::Write>(&self, f: &mut fmt::Formatter<W>) -> fmt::Result {
        match *self {
            Region::Cst => write!(f, "Cst"),
            Region::Stack => write!(f, "Stack"),
            Region::Malloc(n) => write!(f, "Malloc {n}"),
        }
    }
}

// `18<8>` is a number with its width, `(Stack,8)` a pointer, `(Stack,8){0,7}` bits 0 to 7 of it, and `undefined<8>` an
// undefined value with its width.
impl fmt::Display for Value {
    fn fmt<W: fmt::Write>(&self, f: &mut fmt::Formatter<W>) -> fmt::Result {
        let row = self.row();
        let number = row.number;
        let width = self.width();
        match row.region {
            _ if !row.defined => write!(f, "undefined<{width}>"),
            Region::Cst => write!(f, "{number}<{width}>"),
            region if width == ADDRESS_WIDTH => write!(f, "({region},{number})"),
            region => write!(f, "({region},{number}){{{},{}}}", row.low, row.high),
        }
    }
}

// What an operator answered: the value, or the fault with its number and meaning.
#[derive(Clone, Copy)]
pub struct Answer(pub Result<Value, Fault>);

impl fmt::Display for Answer {
    fn fmt<W: fmt::Write>(&self, f: &mut fmt::Formatter<W>) -> fmt::Result {
        match self.0 {
            Ok(v) => write!(f, "{v}"),
            Err(fault) => write!(f, "{fault}"),
        }
    }
}
