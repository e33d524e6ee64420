//! What binding a label set needs, made beforehand.

ghost use Rattle.std.specs.Prelude.{◌≡◌, ◌≤◌, [], length, map, reverse, IfOk};
ghost use Rattle.std.specs.Vec.{vec_capacity};
ghost use Rattle.head_series.specs.Rows.{label};

use series_references::Heap;
use std::alloc::{AllocError, Global};
use std::marker::Model;
use wal_record::LabelSet;

/// The memory for binding a label set: for a new one copies of its texts and a list with room for their numbers, and for a known one a
/// box for the reference. Contracts see the label set.
#[derive(Debug)]
pub struct Ready {
    // the last label first
    texts: Vec<(Vec<u8>, Vec<u8>)>,
    numbers: Vec<(u32, u32)>,
    node: Box<Heap>,
}

// Written out so that the proof of a function that drops these has one call, and not a copy of this.
impl Drop for Ready {
    fn drop(self) {
        let Ready {
            texts: _texts,
            numbers: _numbers,
            node: _node,
        } = self;
    }
}

impl Model for Ready {
    ghost use Rattle.std.specs.Prelude.{◌≡◌, ◌≤◌, [], length, map, reverse};
    ghost use Rattle.std.specs.Vec.{vec_capacity};
    ghost use Rattle.head_series.specs.Rows.{label};
    ghost use Rattle.head_series.specs.Table.{Labels};

    ghost Value = { Labels };

    ghost view = { λ r. reverse (map (λ p. label p.0.items p.1.items) r.texts.items) };

    ghost invariant = { λ r. (r.numbers.items ≡ []) × (length r.texts.items ≤ vec_capacity r.numbers) };
}

impl Ready {
    /// Allocates what binding a label set needs, in any table, or returns an error if out of memory.
    pub fn new(alloc: Global, labels: &LabelSet) -> Result<Ready, AllocError>
        ensures { IfOk result (λ ready. ready ≡ labels.now) }
    {
        let node = Heap::boxed(alloc)?;
        let numbers = Vec::with_capacity(alloc, labels.len())?;
        let mut texts = Vec::with_capacity(alloc, labels.len())?;
        let mut left = labels.len();
        while left > 0 {
            left -= 1;
            let (name, value) = labels.pair(left);
            let name = Vec::from_slice(alloc, name)?;
            let value = Vec::from_slice(alloc, value)?;
            texts.push((name, value))?;
        }
        Ok(Ready {
            texts,
            numbers,
            node,
        })
    }

    // Returns the texts, the last label first, and the list with room for their numbers.
    pub(crate) fn into_parts(self) -> (Vec<(Vec<u8>, Vec<u8>)>, Vec<(u32, u32)>)
        ensures texts { reverse (map (λ p. label p.0.items p.1.items) result.0.items) ≡ self }
        ensures numbers { result.1.items ≡ [] }
        ensures room { length result.0.items ≤ vec_capacity result.1 }
    {
        let Ready {
            texts,
            numbers,
            node: _node,
        } = self;
        (texts, numbers)
    }

    // Returns the box for the reference.
    pub(crate) fn into_node(self) -> Box<Heap> {
        let Ready {
            texts: _texts,
            numbers: _numbers,
            node,
        } = self;
        node
    }
}
