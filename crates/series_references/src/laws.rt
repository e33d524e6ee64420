//! Laws of the heap of references.

ghost use Rattle.std.specs.Prelude.{◌≡◌, ◌<◌, ◌≤◌, ◌^◌, ℕ, true};
ghost use Rattle.series_references.specs.Has.{has};
ghost use Rattle.series_references.specs.Heap.{height, references, IsParted, Tree};

/// Proves that in a heap of references of 64 bits at most 65 lie one below another, however many are added: so no call of its
/// functions goes deeper, and none runs out of stack.
pub fn heap_height()
    ensures { (heap : Tree) → IsParted 0 0 heap → ((r : ℕ) → has (references heap) r ≡ true → r < 2 ^ 64) → height heap ≤ 65 }
{}
