//! An interner: numbers for texts.

ghost use Rattle.std.specs.Prelude.{take, [], ◌++◌, ◌+◌, ◌^◌, ◌≡◌, ◌<◌, ◌≤◌, ◌⊎◌, Some, None, Err, false, true, length, slice_get, IfOk, OnOk, OnErr, IsOk};
ghost use Rattle.wal_record.specs.Labels.{same_text};
ghost use Rattle.head_series.specs.Rows.{labels_in, AreWithin};
ghost use Rattle.head_series.specs.Texts.{has_text, place, with_text, with_texts, texts_of};

use crate::ready::Ready;
use hash_seed::HashSeed;
use indexmap::IndexSet;
use std::alloc::{AllocError, AllocFailed, Global};
use std::error::Error;
use std::fmt;
use std::marker::Model;
use wal_record::LabelSet;

/// An error of an interner: why a text was not numbered.
#[derive(Clone, Copy, Debug, PartialEq, Eq)]
pub enum InternFault {
    /// The text is new, and the limit of texts is reached.
    Full,
    /// Out of memory.
    Memory,
}

impl fmt::Display for InternFault {
    fn fmt<W: fmt::Write>(&self, f: &mut fmt::Formatter<W>) -> fmt::Result {
        f.write_str(match self {
            InternFault::Full => "too many texts",
            InternFault::Memory => "out of memory",
        })
    }
}

impl Error for InternFault {}

impl From<AllocError> for InternFault {
    ghost use Rattle.std.specs.Prelude.{◌≡◌};
    ghost use Rattle.head_series.specs.declared.interner.InternFault.TheVariants.{Memory};

    ghost from_gives = { λ _ e. e ≡ Memory };

    fn from(_error: AllocError) -> InternFault {
        InternFault::Memory
    }
}

impl<T: Drop> From<AllocFailed<T>> for InternFault {
    ghost use Rattle.std.specs.Prelude.{◌≡◌};
    ghost use Rattle.head_series.specs.declared.interner.InternFault.TheVariants.{Memory};

    ghost from_gives = { λ _ e. e ≡ Memory };

    fn from(_error: AllocFailed<T>) -> InternFault {
        InternFault::Memory
    }
}

/// Texts, of any bytes, each kept once and numbered from 0 in the order of first sight. Contracts see the list of texts and the limit
/// of their number.
#[derive(Debug)]
pub struct Interner {
    texts: IndexSet<Vec<u8>, HashSeed>,
    most: u32,
}

// Written out so that the proof of a function that drops the texts has one call, and not a copy of this.
impl Drop for Interner {
    fn drop(self) {
        let Interner {
            texts: _texts,
            most: _,
        } = self;
    }
}

impl Model for Interner {
    ghost use Rattle.std.specs.Prelude.{map, length, ◌≤◌};
    ghost use Rattle.wal_record.specs.Labels.{same_text};
    ghost use Rattle.head_series.specs.Rows.{AreDistinct};
    ghost use Rattle.head_series.specs.Texts.{TextTable};
    ghost use Rattle.indexmap.specs.IndexSet.{spare};

    ghost Value = { TextTable };

    ghost view = { λ t. record { texts = map (λ v. v.items) t.texts.keys; most = t.most; room = spare t.texts } };

    ghost invariant = { λ t. (length t.texts.keys ≤ t.most) × AreDistinct same_text (map (λ v. v.items) t.texts.keys) };
}

impl Interner {
    /// Returns an interner of no texts, for at most `most` texts. Its hashes are those of the seed that all know. Allocates nothing.
    pub fn new(alloc: Global, most: u32) -> Interner
        ensures texts { result.texts ≡ [] }
        ensures most { result.most ≡ most }
    {
        Interner::with_seed(alloc, HashSeed::known(), most)
    }

    /// Returns an interner of no texts, as `new` does, with hashes by a seed.
    pub fn with_seed(alloc: Global, seed: HashSeed, most: u32) -> Interner
        ensures texts { result.texts ≡ [] }
        ensures most { result.most ≡ most }
    {
        Interner {
            texts: IndexSet::with_hasher(alloc, seed),
            most,
        }
    }

    /// Returns the number of texts.
    pub fn len(&self) -> usize
        ensures count { result ≡ length self.now.texts }
        ensures few { result ≤ self.now.most }
        ensures fits { result < 2 ^ 32 }
    {
        // gives the proof the invariant, which it knows where a field is named
        let _most = self.most;
        self.texts.len()
    }

    // Returns the number of a text, or `None` if it has none.
    fn find(&self, text: &[u8]) -> Option<u32>
        ensures { result ≡ place (same_text text.now) self.now.texts }
    {
        // gives the proof the invariant, which it knows where a field is named
        let _most = self.most;
        match self.texts.get_index_of(text) {
            Some(index) => Some(index as u32),
            None => None,
        }
    }

    /// Returns the number of a text, of which it keeps a copy if it is new. Returns `Full` if it is new and the limit of texts is
    /// reached, and `Memory` if out of memory; the texts are then unchanged.
    pub fn number(&mut self, text: &[u8]) -> Result<u32, InternFault>
        ensures texts { OnOk result (self.new.texts ≡ with_text self.old.texts text.now) }
        ensures number { IfOk result (λ n. place (same_text text.now) self.new.texts ≡ Some n) }
        ensures within { IfOk result (λ n. n < length self.new.texts) }
        ensures full { (result ≡ Err InternFault.Full) → (has_text self.old.texts text.now ≡ false) × (length self.old.texts ≡ self.old.most) }
        ensures room { IsOk result → (has_text self.old.texts text.now ≡ true) ⊎ (length self.old.texts < self.old.most) }
        // Where nothing grows, nothing is allocated.
        ensures known { has_text self.old.texts text.now ≡ true → IsOk result }
        ensures limit { has_text self.old.texts text.now ≡ false → length self.old.texts ≡ self.old.most → result ≡ Err InternFault.Full }
        ensures kept { OnErr result (self.new.texts ≡ self.old.texts) }
        ensures most { self.new.most ≡ self.old.most }
    {
        match self.find(text) {
            Some(number) => return Ok(number),
            None => {}
        }
        let number = self.texts.len();
        if number >= self.most as usize {
            return Err(InternFault::Full);
        }
        let text = Vec::from_slice(*self.texts.allocator(), text)?;
        self.texts.insert_full(text)?;
        Ok(number as u32)
    }

    // Returns whether the text of a number is this one.
    fn is_at(&self, number: u32, text: &[u8]) -> bool
        ensures { result ≡ true → place (same_text text.now) self.now.texts ≡ Some number }
    {
        // gives the proof the invariant, which it knows where a field is named
        let _most = self.most;
        (number as usize) < self.len() && self.bytes(number) == text
    }

    // Returns the number of a text, as `number` does. Compares it first with the text of the number `guess`.
    fn number_near(&mut self, text: &[u8], guess: u32) -> Result<u32, InternFault>
        ensures texts { OnOk result (self.new.texts ≡ with_text self.old.texts text.now) }
        ensures number { IfOk result (λ n. place (same_text text.now) self.new.texts ≡ Some n) }
        ensures within { IfOk result (λ n. n < length self.new.texts) }
        ensures full { (result ≡ Err InternFault.Full) → (has_text self.old.texts text.now ≡ false) × (length self.old.texts ≡ self.old.most) }
        ensures room { IsOk result → (has_text self.old.texts text.now ≡ true) ⊎ (length self.old.texts < self.old.most) }
        ensures kept { OnErr result (self.new.texts ≡ self.old.texts) }
        ensures most { self.new.most ≡ self.old.most }
    {
        if self.is_at(guess, text) {
            return Ok(guess);
        }
        self.number(text)
    }

    // Returns the number of a text, which it keeps if it is new. Has room for it.
    fn put(&mut self, text: Vec<u8>) -> u32
        requires room { 0 < self.old.room }
        requires few { has_text self.old.texts text.items ≡ false → length self.old.texts < self.old.most }
        ensures texts { self.new.texts ≡ with_text self.old.texts text.items }
        ensures number { place (same_text text.items) self.new.texts ≡ Some result }
        ensures within { result < length self.new.texts }
        ensures room { self.old.room ≤ self.new.room + 1 }
        ensures most { self.new.most ≡ self.old.most }
    {
        match self.find(&text) {
            Some(known) => return known,
            None => {}
        }
        let number = self.texts.len();
        match self.texts.insert_full(text) {
            Ok(_) => {}
            Err(_) => unreachable!(),
        }
        number as u32
    }

    // Returns the numbers of the texts of a label set, of which copies were made beforehand. Has room for them.
    pub(crate) fn put_all(&mut self, ready: Ready) -> Vec<(u32, u32)>
        requires room { length (texts_of ready) ≤ self.old.room }
        requires few { length (with_texts self.old.texts (texts_of ready)) ≤ self.old.most }
        ensures texts { self.new.texts ≡ with_texts self.old.texts (texts_of ready) }
        ensures numbers { labels_in self.new.texts result.items ≡ ready }
        ensures within { AreWithin (length self.new.texts) result.items }
        ensures room { self.old.room ≤ self.new.room + length (texts_of ready) }
        ensures most { self.new.most ≡ self.old.most }
    {
        let (mut texts, mut numbers) = ready.into_parts();
        while let Some((name, value)) = texts.pop() {
            let first = self.put(name);
            let second = self.put(value);
            numbers.push_reserved((first, second));
        }
        // gives the proof the invariant, which it knows where a field is named
        let _texts = &self.texts;
        numbers
    }

    // Makes room for this many more texts.
    pub(crate) fn reserve(&mut self, many: usize) -> Result<(), AllocError>
        ensures texts { self.new.texts ≡ self.old.texts }
        ensures most { self.new.most ≡ self.old.most }
        ensures room { OnOk result (many ≤ self.new.room) }
    {
        // gives the proof the invariant, which it knows where a field is named
        let _most = self.most;
        self.texts.reserve(many)
    }

    // Adds to `more` the texts of a label set that this interner has not.
    pub(crate) fn note(&self, more: &mut Interner, labels: &LabelSet) -> Result<(), InternFault>
        ensures { OnOk result (self.now.texts ++ more.new.texts ≡ with_texts (self.now.texts ++ more.old.texts) (texts_of labels.now)) }
    {
        for i in 0..labels.len() {
            let (name, value) = labels.pair(i);
            self.note_text(more, name)?;
            self.note_text(more, value)?;
        }
        Ok(())
    }

    // Adds a text to `more` if this interner has it not.
    fn note_text(&self, more: &mut Interner, text: &[u8]) -> Result<(), InternFault>
        ensures { OnOk result (self.now.texts ++ more.new.texts ≡ with_text (self.now.texts ++ more.old.texts) text.now) }
    {
        match self.find(text) {
            Some(_) => Ok(()),
            None => {
                more.number(text)?;
                Ok(())
            }
        }
    }

    /// Returns the text with a number, borrowed from the interner.
    pub fn bytes(&self, number: u32) -> &[u8]
        requires { number < length self.now.texts }
        ensures { slice_get self.now.texts number ≡ Some result.now }
    {
        self.texts[number as usize].as_slice()
    }

    // Keeps only the first texts, and drops the others.
    fn truncate(&mut self, many: usize)
        ensures texts { self.new.texts ≡ take many self.old.texts }
        ensures most { self.new.most ≡ self.old.most }
    {
        // gives the proof the invariant, which it knows where a field is named
        let _most = self.most;
        self.texts.truncate(many);
    }

    // Returns the numbers of the texts of a label set. Compares each text first with the one at the same place of the label set with the
    // numbers `near`. On an error the texts are unchanged.
    pub(crate) fn numbers(
        &mut self,
        labels: &LabelSet,
        near: &[(u32, u32)],
    ) -> Result<Vec<(u32, u32)>, InternFault>
        ensures texts { OnOk result (self.new.texts ≡ with_texts self.old.texts (texts_of labels.now)) }
        ensures numbers { IfOk result (λ ns. labels_in self.new.texts ns.items ≡ labels.now) }
        ensures within { IfOk result (λ ns. AreWithin (length self.new.texts) ns.items) }
        ensures front { OnOk result (take (length self.old.texts) self.new.texts ≡ self.old.texts) }
        ensures full { (result ≡ Err InternFault.Full) → self.old.most < length (with_texts self.old.texts (texts_of labels.now)) }
        ensures room { IsOk result → length (with_texts self.old.texts (texts_of labels.now)) ≤ self.old.most }
        ensures kept { OnErr result (self.new.texts ≡ self.old.texts) }
        ensures most { self.new.most ≡ self.old.most }
    {
        let many = self.len();
        match self.numbers_in(labels, near) {
            Ok(numbers) => Ok(numbers),
            Err(fault) => {
                self.truncate(many);
                Err(fault)
            }
        }
    }

    // Returns the numbers of a label set's texts, as `numbers` does. On an error, texts may have been added.
    fn numbers_in(
        &mut self,
        labels: &LabelSet,
        near: &[(u32, u32)],
    ) -> Result<Vec<(u32, u32)>, InternFault>
        ensures texts { OnOk result (self.new.texts ≡ with_texts self.old.texts (texts_of labels.now)) }
        ensures numbers { IfOk result (λ ns. labels_in self.new.texts ns.items ≡ labels.now) }
        ensures within { IfOk result (λ ns. AreWithin (length self.new.texts) ns.items) }
        ensures front { take (length self.old.texts) self.new.texts ≡ self.old.texts }
        ensures full { (result ≡ Err InternFault.Full) → self.old.most < length (with_texts self.old.texts (texts_of labels.now)) }
        ensures room { IsOk result → length self.new.texts ≤ self.old.most }
        ensures most { self.new.most ≡ self.old.most }
    {
        let mut numbers = Vec::with_capacity(*self.texts.allocator(), labels.len())?;
        for i in 0..labels.len() {
            let (name, value) = labels.pair(i);
            let guess = near.get(i).copied().unwrap_or((0, 0));
            let first = match self.number_near(name, guess.0) {
                Ok(first) => first,
                Err(fault) => return Err(fault),
            };
            let second = match self.number_near(value, guess.1) {
                Ok(second) => second,
                Err(fault) => return Err(fault),
            };
            numbers.push((first, second))?;
        }
        // gives the proof the invariant, which it knows where a field is named
        let _texts = &self.texts;
        Ok(numbers)
    }

    // Returns a copy of the texts.
    pub(crate) fn copy(&self) -> Result<Interner, AllocError>
        ensures texts { IfOk result (λ copy. copy.texts ≡ self.now.texts) }
        ensures most { IfOk result (λ copy. copy.most ≡ self.now.most) }
    {
        let mut copy = Interner::with_seed(
            *self.texts.allocator(),
            *self.texts.hasher(),
            self.most,
        );
        for i in 0..self.texts.len() {
            match copy.number(self.bytes(i as u32)) {
                Ok(_) => {}
                Err(InternFault::Full) => unreachable!(),
                Err(InternFault::Memory) => return Err(AllocError),
            }
        }
        Ok(copy)
    }
}
