//! A heap of references, the least first.

ghost use Rattle.std.specs.Prelude.{◌≡◌, ◌+◌, ◌<◌, ◌≤◌, ◌%◌, ◌^◌, ◌∷◌, ◌++◌, ℕ, true, false, length, slice_index, IfOk};
ghost use Rattle.series_references.specs.Has.{has};
ghost use Rattle.series_references.specs.Heap.{references, IsBelowAll, IsParted, Leaf, Node};
ghost use Rattle.series_references.specs.Links.{items_of, tree_of};

use std::alloc::{AllocError, Global};
use std::marker::Model;
use std::mem;

/// A reference, and two heaps of greater ones. Which of the two a reference is added to depends on its bits, the last bit first, so
/// fewer references lie one below another than a reference has bits and one (`heap_height`). Contracts see the references as they lie.
#[cycle(heap)]
#[derive(Debug, Drop)]
pub struct Heap {
    least: u64,
    even: Link,
    odd: Link,
}

/// A heap, or none.
#[cycle(heap)]
#[derive(Debug, Drop)]
pub(crate) enum Link {
    Empty,
    Full(Box<Heap>),
}

impl Model for Heap {
    ghost use Rattle.std.specs.Prelude.{◌≡◌, ◌≤◌, ◌++◌, ℕ, true};
    ghost use Rattle.series_references.specs.Has.{has};
    ghost use Rattle.series_references.specs.Heap.{height, Node, Tree};
    ghost use Rattle.series_references.specs.HeapCode.{tree_code};

    ghost Value = { Tree };

    ghost coded = { tree_code };

    // below `Value`, since these name the type
    ghost use Rattle.series_references.specs.Links.{items_of, tree_of};

    ghost view = { λ h. Node h.least (tree_of h.even) (tree_of h.odd) };

    ghost invariant = { λ h. (r : ℕ) → has (items_of h.even ++ items_of h.odd) r ≡ true → h.least ≤ r };

    ghost size = { height };

    ghost use Rattle.series_references.specs.HeapFalls.{deep_le-height};

    ghost size_decreases = { λ a h. deep_le-height a.least a.even a.odd };
}

impl Heap {
    // Returns one reference alone.
    fn single(reference: u64) -> Heap
        ensures { result ≡ Node reference Leaf Leaf }
    {
        Heap {
            least: reference,
            even: Link::Empty,
            odd: Link::Empty,
        }
    }

    /// Allocates a box for a reference that is added later, or returns an error if out of memory.
    pub fn boxed(alloc: Global) -> Result<Box<Heap>, AllocError> {
        Ok(Box::new(alloc, Heap::single(0))?)
    }

    // Returns the least reference.
    pub(crate) fn least(&self) -> u64
        ensures first { result ≡ slice_index (references self.now) 0 }
        ensures there { has (references self.now) result ≡ true }
        ensures least { (r : ℕ) → has (references self.now) r ≡ true → result ≤ r }
    {
        self.least
    }

    // Returns a copy of the heap.
    #[cycle(copies)]
    fn copy(&self, alloc: Global) -> Result<Heap, AllocError>
        ensures { IfOk result (λ copy. copy ≡ self.now) }
    {
        Ok(Heap {
            least: self.least,
            even: copied(alloc, &self.even)?,
            odd: copied(alloc, &self.odd)?,
        })
    }
}

// Returns whether the bit of a reference at a depth is 0.
fn is_even(reference: u64, depth: u32) -> bool
    requires { depth < 64 }
    ensures even { result ≡ true → reference % 2 ^ (depth + 1) ≡ reference % 2 ^ depth }
    ensures odd { result ≡ false → reference % 2 ^ (depth + 1) ≡ reference % 2 ^ depth + 2 ^ depth }
{
    (reference >> depth) % 2 == 0
}

// Returns the heap with one more reference, in a box that was made for it. So many last bits of all are those of the reference.
pub(crate) fn with(link: Link, reference: u64, depth: u32, mut node: Box<Heap>) -> Box<Heap>
    requires { IsParted depth (reference % 2 ^ depth) (tree_of link) }
    ensures with { (r : ℕ) → has (references result.value) r ≡ has (reference ∷ items_of link) r }
    ensures parted { IsParted depth (reference % 2 ^ depth) result.value }
{
    match link {
        Link::Empty => {
            *node = Heap::single(reference);
            node
        }
        Link::Full(mut heap) => {
            if reference == heap.least {
                return heap;
            }
            let Heap {
                least: first,
                even,
                odd,
            } = mem::replace(&mut *heap, Heap::single(0));
            let greater = first.max(reference);
            let least = first.min(reference);
            if is_even(greater, depth) {
                let below = with(even, greater, depth + 1, node);
                let even = Link::Full(below);
                let whole = Heap { least, even, odd };
                *heap = whole;
                return heap;
            }
            let below = with(odd, greater, depth + 1, node);
            let odd = Link::Full(below);
            let whole = Heap { least, even, odd };
            *heap = whole;
            heap
        }
    }
}

// Returns the box with a reference and two heaps of greater ones.
fn under(mut heap: Box<Heap>, least: u64, even: Link, odd: Link) -> Link
    requires { (r : ℕ) → has (items_of even ++ items_of odd) r ≡ true → least ≤ r }
    ensures { tree_of result ≡ Node least (tree_of even) (tree_of odd) }
{
    let whole = Heap { least, even, odd };
    *heap = whole;
    Link::Full(heap)
}

// Returns the heap without its least reference. A heap below it stays where it is, so that its references are parted by the same bits.
pub(crate) fn without_least(mut heap: Box<Heap>) -> Link
    ensures fewer { length (references heap.value) ≡ length (items_of result) + 1 }
    ensures same { (r : ℕ) → has (references heap.value) r ≡ has (slice_index (references heap.value) 0 ∷ items_of result) r }
    ensures parted { (depth bits : ℕ) → IsParted depth bits heap.value → IsParted depth bits (tree_of result) }
    ensures above { (depth bits : ℕ) → IsParted depth bits heap.value → IsBelowAll (slice_index (references heap.value) 0) (items_of result) }
{
    let Heap {
        least: _,
        even,
        odd,
    } = mem::replace(&mut *heap, Heap::single(0));
    match even {
        Link::Empty => match odd {
            Link::Empty => Link::Empty,
            Link::Full(odd) => {
                let least = odd.least();
                let odd = without_least(odd);
                under(heap, least, Link::Empty, odd)
            }
        },
        Link::Full(even) => match odd {
            Link::Empty => {
                let least = even.least();
                let even = without_least(even);
                under(heap, least, even, Link::Empty)
            }
            Link::Full(odd) => {
                let first = even.least();
                let second = odd.least();
                if first < second {
                    let even = without_least(even);
                    return under(heap, first, even, Link::Full(odd));
                }
                let odd = without_least(odd);
                under(heap, second, Link::Full(even), odd)
            }
        },
    }
}

// Returns a copy of a heap.
#[cycle(copies)]
pub(crate) fn copied(alloc: Global, link: &Link) -> Result<Link, AllocError>
    ensures { IfOk result (λ copy. tree_of copy ≡ tree_of link.now) }
{
    match link {
        Link::Empty => Ok(Link::Empty),
        Link::Full(heap) => {
            let copy = heap.copy(alloc)?;
            Ok(Link::Full(Box::new(alloc, copy)?))
        }
    }
}
