//! The order of last use.
ghost use Rattle.std.specs.Prelude.{◌≡◌, ℕ, ◌+◌, ◌<◌, List, [], ◌∷◌, ◌++◌, length, IfOk};
ghost use Rattle.slot_lists.specs.Links.{IsIn};
ghost use Rattle.slot_lists.specs.Rings.{IsRing, order_data};

use std::alloc::{AllocError, Global};
use std::marker::Model;

/// Slots in an order. They are linked in both directions, in a ring through place 0, which is no
/// slot.
#[derive(Drop)]
pub struct Order {
    before: Vec<u32>,
    after: Vec<u32>,
}

impl Model for Order {
    ghost use Rattle.std.specs.Prelude.{length};
    ghost use Rattle.slot_lists.specs.Rings.{IsRing, OrderData, order_data, ring_of};

    ghost Value = { OrderData };

    ghost view = { λ o. order_data (ring_of o.after.items) (length o.after.items) };

    ghost invariant = { λ o. IsRing o.before.items o.after.items (ring_of o.after.items) };
}

impl Order {
    /// No slot of so many at most, from 1 on.
    pub fn new(alloc: Global, most: u32) -> Result<Order, AllocError>
        ensures { IfOk result (λ order. order ≡ order_data [] (most + 1)) }
    {
        let places = most as usize + 1;
        let before = vec![in alloc; 0_u32; places]?;
        let after = vec![in alloc; 0_u32; places]?;
        Ok(Order { before, after })
    }

    /// A slot becomes the first, which wasn't in the order.
    pub fn add(&mut self, slot: u32)
        requires some { 0 < slot }
        requires inside { slot < self.old.places }
        requires apart { IsIn slot self.old.slots → ⊥ }
        ensures { self.new ≡ order_data (slot ∷ self.old.slots) self.old.places }
    {
        attach(&mut self.before, &mut self.after, slot);
    }

    /// A slot becomes the first, wherever it was.
    pub fn to_front(&mut self, slot: u32)
        requires { IsIn slot self.old.slots }
        ensures { (xs ys : List ℕ) → self.old.slots ≡ xs ++ slot ∷ ys
            → self.new ≡ order_data (slot ∷ xs ++ ys) self.old.places }
    {
        detach(&mut self.before, &mut self.after, slot);
        attach(&mut self.before, &mut self.after, slot);
    }

    /// The last slot.
    pub fn last(&self) -> u32
        requires { 0 < length self.now.slots }
        ensures { (front : List ℕ) × (self.now.slots ≡ front ++ result ∷ []) }
    {
        self.before[0]
    }
}

// Takes a slot out of the ring.
#[inline]
fn detach(before: &mut Vec<u32>, after: &mut Vec<u32>, slot: u32)
    requires { (xs ys : List ℕ) × IsRing before.old.items after.old.items (xs ++ slot ∷ ys) }
    ensures ring { (xs ys : List ℕ) → IsRing before.old.items after.old.items (xs ++ slot ∷ ys)
        → IsRing before.new.items after.new.items (xs ++ ys) }
    ensures long { length after.new.items ≡ length after.old.items }
{
    let front = before[slot as usize];
    let back = after[slot as usize];
    after[front as usize] = back;
    before[back as usize] = front;
}

// Puts a slot into the ring, behind place 0.
#[inline]
fn attach(before: &mut Vec<u32>, after: &mut Vec<u32>, slot: u32)
    requires inside { slot < length after.old.items }
    requires ring { (slots : List ℕ) × IsRing before.old.items after.old.items slots }
    ensures ring { (slots : List ℕ) → IsRing before.old.items after.old.items slots
        → (IsIn slot (0 ∷ slots) → ⊥) → IsRing before.new.items after.new.items (slot ∷ slots) }
    ensures long { length after.new.items ≡ length after.old.items }
{
    let first = after[0];
    after[slot as usize] = first;
    after[0] = slot;
    before[slot as usize] = 0;
    before[first as usize] = slot;
}
