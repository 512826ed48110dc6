ghost use Rattle.std.specs.Prelude.{◌≡◌, ◌<◌, not, [], ◌∷◌, length, nat_lt, IfSome, IfNone, OnErr};
ghost use Rattle.expression.specs.Walk.{most_items, pushed, leaves};

use crate::stops::Cause;
use crate::walks::HELD;
use answer::faults::Layer;
use answer::rules::require;
use std::marker::Model;

// The items that a walk holds, in lent memory. Clauses see them as a list, the top first.
#[derive(Drop)]
pub(crate) struct Stack<'a, T> {
    slots: &'a mut [T],
    depth: usize,
}

impl<'a, T> Model for Stack<'a, T> {
    ghost use Rattle.std.specs.Prelude.{◌≤◌, List, reverse, length, take};
    ghost use Rattle.expression.specs.Walk.{most_items};

    ghost Value = { List T };

    ghost view = { λ s. reverse (take s.depth s.slots.now) };

    ghost invariant = { λ s. (s.depth ≤ most_items) × (most_items ≤ length s.slots.now) };
}

impl<'a, T: Copy> Stack<'a, T> {
    pub(crate) fn new(slots: &'a mut [T; HELD]) -> Stack<'a, T>
        ensures { result ≡ [] }
    {
        Stack { slots, depth: 0 }
    }

    pub(crate) fn is_full(&self) -> bool
        ensures { result ≡ not (nat_lt (length self.now) most_items) }
    {
        self.depth == HELD
    }

    // Puts what a node gave on top, where there is room.
    pub(crate) fn push<F: Copy>(&mut self, layer: Layer, got: Result<T, F>) -> Result<(), Cause<F>>
        ensures put { leaves self.new result ≡ pushed layer got self.old }
        ensures kept { OnErr result (self.new ≡ self.old) }
    {
        let item = got.map_err(|fault| Cause::Fault(layer, fault))?;
        require(!self.is_full(), Cause::Full)?;
        self.slots[self.depth] = item;
        self.depth += 1;
        Ok(())
    }

    // Takes the top off.
    pub(crate) fn pop(&mut self) -> Option<T>
        ensures some { IfSome result (λ x. self.old ≡ x ∷ self.new) }
        ensures none { IfNone result (self.old ≡ []) }
        ensures kept { IfNone result (self.new ≡ self.old) }
    {
        self.depth = self.depth.checked_sub(1)?;
        Some(self.slots[self.depth])
    }

    // Takes two off, of which the right operand was on top.
    pub(crate) fn pop_two(&mut self) -> Option<(T, T)>
        ensures some { IfSome result (λ p. self.old ≡ p.1 ∷ (p.0 ∷ self.new)) }
        ensures none { IfNone result (length self.old < 2) }
    {
        let y = self.pop()?;
        let x = self.pop()?;
        Some((x, y))
    }
}
