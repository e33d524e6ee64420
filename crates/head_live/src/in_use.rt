//! Numbers that are in use.

ghost use Rattle.std.specs.Prelude.{◌≡◌, ◌↔◌, ◌<◌, ◌≤◌, [], IsTrue, OnErr, OnOk, Some, length, slice_get, vec_capacity};
ghost use Rattle.head_live.specs.InUse.{AreOnce, IsMoreBy};

use std::alloc::{AllocError, Global};
use std::marker::Model;

/// Numbers, each once, in the order in which they came. A number's index is found in no more time however many there are.
#[derive(Debug, Drop)]
pub struct InUse {
    numbers: Vec<usize>,
    // the index of each number that is in use, by number
    indices: Vec<usize>,
}

impl Model for InUse {
    ghost use Rattle.std.specs.Prelude.{length};
    ghost use Rattle.std.specs.Vec.{vec_capacity};
    ghost use Rattle.head_live.specs.InUse.{AreIndexed, NumbersInUse};

    ghost Value = { NumbersInUse };

    ghost view = { λ u. record { numbers = u.numbers.items; places = length u.indices.items; room = vec_capacity u.numbers } };

    ghost invariant = { λ u. AreIndexed u.indices.items u.numbers.items };
}

impl InUse {
    /// Makes a list of no numbers.
    pub fn new(alloc: Global) -> InUse
        ensures { result.numbers ≡ [] }
    {
        InUse {
            numbers: Vec::new(alloc),
            indices: Vec::new(alloc),
        }
    }

    /// Makes a place for a number.
    pub fn make_place(&mut self, number: usize) -> Result<(), AllocError>
        ensures numbers { self.new.numbers ≡ self.old.numbers }
        ensures room { self.new.room ≡ self.old.room }
        ensures place { OnOk result (number < self.new.places) }
        ensures kept { self.old.places ≤ self.new.places }
    {
        while self.indices.len() <= number {
            self.indices.push(0)?;
        }
        Ok(())
    }

    /// Makes room for so many numbers in all.
    pub fn make_room(&mut self, count: usize) -> Result<(), AllocError>
        ensures numbers { self.new.numbers ≡ self.old.numbers }
        ensures places { self.new.places ≡ self.old.places }
        ensures room { OnOk result (count ≤ self.new.room) }
        ensures kept { self.old.room ≤ self.new.room }
        ensures short { OnErr result (self.old.room < count) }
    {
        make_room(&mut self.numbers, count)
    }

    /// Drops all numbers.
    pub fn clear(&mut self)
        ensures numbers { self.new.numbers ≡ [] }
        ensures places { self.new.places ≡ self.old.places }
        ensures room { self.new.room ≡ self.old.room }
    {
        self.numbers.clear();
    }

    // Returns whether a number is in use with this index.
    fn is_at(&self, index: usize, number: usize) -> bool
        ensures { IsTrue result ↔ (slice_get self.now.numbers index ≡ Some number) }
    {
        match self.numbers.get(index) {
            Some(found) => *found == number,
            None => false,
        }
    }

    /// Returns the index of a number, which comes last if it is new.
    pub fn index_of(&mut self, number: usize) -> usize
        requires place { number < self.old.places }
        requires room { length self.old.numbers < self.old.room }
        ensures numbers { IsMoreBy number self.old.numbers self.new.numbers }
        ensures index { slice_get self.new.numbers result ≡ Some number }
        ensures places { self.new.places ≡ self.old.places }
        ensures room { self.new.room ≡ self.old.room }
    {
        let index = self.indices[number];
        if self.is_at(index, number) {
            return index;
        }
        let index = self.numbers.len();
        self.indices[number] = index;
        self.numbers.push_reserved(number);
        index
    }

    /// Borrows the numbers.
    pub fn numbers(&self) -> &[usize]
        ensures numbers { result.now ≡ self.now.numbers }
        ensures once { AreOnce result.now }
    {
        &self.numbers
    }
}

/// Makes room for so many items in all. Allocates nothing if there is room.
pub fn make_room<T>(items: &mut Vec<T>, count: usize) -> Result<(), AllocError>
    ensures items { items.new.items ≡ items.old.items }
    ensures room { OnOk result (count ≤ vec_capacity items.new) }
    ensures kept { vec_capacity items.old ≤ vec_capacity items.new }
    ensures short { OnErr result (vec_capacity items.old < count) }
{
    if count <= items.capacity() {
        return Ok(());
    }
    items.reserve(count)
}
