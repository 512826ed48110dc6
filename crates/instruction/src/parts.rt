ghost use Rattle.std.specs.Prelude.{◌≡◌};
ghost use Rattle.instruction.specs.Parts.{right_of, left_of, address_in, next_of, otherwise_of};

use crate::tables::{Action, Left};
use answer::standings::Address;
use expression::nodes::Span;

// The expression that is worked out first, where there is one.
pub fn right(action: Action) -> Option<Span>
    ensures { result ≡ right_of action }
{
    match action {
        Action::Assign { right, .. } => Some(right),
        Action::Free { pointer, .. } => Some(pointer),
        Action::Jump { target } => Some(target),
        Action::Ite { condition, .. }
        | Action::Assert { condition, .. }
        | Action::Assume { condition, .. } => Some(condition),
        _ => None,
    }
}

// Where a result goes.
pub fn left(action: Action) -> Option<Left>
    ensures { result ≡ left_of action }
{
    match action {
        Action::Assign { left, .. }
        | Action::Nondet { left, .. }
        | Action::Undef { left, .. }
        | Action::Malloc { left, .. } => Some(left),
        _ => None,
    }
}

// The address expression of a left side.
pub fn address(left: Option<Left>) -> Option<Span>
    ensures { result ≡ address_in left }
{
    match left {
        Some(Left::Bytes(_, address)) => Some(address),
        _ => None,
    }
}

// The fixed successor; of a choice, the one for 1.
pub fn next(action: Action) -> Option<Address>
    ensures { result ≡ next_of action }
{
    match action {
        Action::Assign { next, .. }
        | Action::Nondet { next, .. }
        | Action::Undef { next, .. }
        | Action::Malloc { next, .. }
        | Action::Free { next, .. }
        | Action::Goto { next }
        | Action::Ite { then: next, .. }
        | Action::Assert { next, .. }
        | Action::Assume { next, .. } => Some(next),
        Action::Jump { .. } | Action::Stop => None,
    }
}

// The successor of a choice for 0.
pub fn otherwise(action: Action) -> Option<Address>
    ensures { result ≡ otherwise_of action }
{
    match action {
        Action::Ite { otherwise, .. } => Some(otherwise),
        _ => None,
    }
}
