//! A waiting list in lent slots: the last in is the first out.
#![tactic(auto)]

ghost use Rattle.std.specs.Prelude.{◌≡◌, ◌<◌, ◌≤◌, [], ◌∷◌, ◌++◌, length, MatchOption, MatchResult};

use std::marker::Model;

/// What waits stands in the first `len` slots, in the order in which it came.
// A slice with a length: a rule of the project wants one list over any lent slots, and the room of an `ArrayVec` is a constant of its type.
#[derive(Drop)]
pub struct Waiting<'a, T: Copy> {
    lent: &'a mut [T],
    len: usize,
}

impl<'a, T: Copy> Model for Waiting<'a, T> {
    ghost use Rattle.std.specs.Prelude.{◌≤◌, length, take};
    ghost use Rattle.waiting.specs.Held.{Held};

    ghost Value = { Held T };

    ghost view = { λ w. record { items = take w.len w.lent.now; slots = length w.lent.now } };

    ghost invariant = { λ w. w.len ≤ length w.lent.now };
}

impl<'a, T: Copy> Waiting<'a, T> {
    /// An empty list, with room for as many as there are slots.
    pub fn new(slots: &'a mut [T]) -> Self
        ensures empty { result.items ≡ [] }
        ensures slots { result.slots ≡ length slots.old }
    {
        Waiting {
            lent: slots,
            len: 0,
        }
    }

    /// Has `item` wait, or hands it back where there is no room.
    pub fn push(&mut self, item: T) -> Result<(), T>
        ensures room { MatchResult result (λ _. length self.old.items < self.old.slots) (λ _. length self.old.items ≡ self.old.slots) }
        ensures items { MatchResult result (λ _. self.new.items ≡ self.old.items ++ (item ∷ [])) (λ back. (back ≡ item) × (self.new.items ≡ self.old.items)) }
        ensures slots { self.new.slots ≡ self.old.slots }
    {
        if self.len >= self.lent.len() {
            return Err(item);
        }
        self.lent[self.len] = item;
        self.len += 1;
        Ok(())
    }

    /// Takes out what came in last.
    pub fn pop(&mut self) -> Option<T>
        ensures items { MatchOption result ((self.old.items ≡ []) × (self.new.items ≡ [])) (λ item. self.old.items ≡ self.new.items ++ (item ∷ [])) }
        ensures slots { self.new.slots ≡ self.old.slots }
        ensures within { length self.old.items ≤ self.old.slots }
    {
        if self.len == 0 {
            return None;
        }
        self.len -= 1;
        Some(self.lent[self.len])
    }
}
