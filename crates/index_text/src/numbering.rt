//! Where texts probably are among the symbols. Nothing is proved of these places: whoever uses one checks it.

use crate::ordering::RowLabel;
use hw_bytes::crc32c;
use std::alloc::{AllocError, Global};

/// The probable places of the names and the values of labels among the symbols.
pub(crate) struct LabelPlaces {
    /// The place of each label's name.
    pub(crate) names: Vec<u32>,
    /// The place of each label's value.
    pub(crate) values: Vec<u32>,
    /// How many places there are.
    pub(crate) count: usize,
}

impl Drop for LabelPlaces {
    fn drop(self) {
        let LabelPlaces {
            names: _names,
            values: _values,
            count: _count,
        } = self;
    }
}

impl LabelPlaces {
    /// Returns the probable place of the name of the label at an index.
    pub(crate) fn name(&self, index: usize) -> usize {
        number_at(self.names.as_slice(), index) as usize
    }

    /// Returns the probable place of the value of the label at an index.
    pub(crate) fn value(&self, index: usize) -> usize {
        number_at(self.values.as_slice(), index) as usize
    }
}

// how many texts are remembered at once
const REMEMBERED: usize = 1 << 17;

// Texts in the order in which they came first. A text that was forgotten counts as new when it comes again.
struct SeenTexts<'a> {
    texts: Vec<&'a [u8]>,
    // by checksum, the number of the last text that has it
    remembered: Vec<u32>,
}

impl Drop for SeenTexts<'_> {
    fn drop(self) {
        let SeenTexts {
            texts: _texts,
            remembered: _remembered,
        } = self;
    }
}

impl<'a> SeenTexts<'a> {
    // Makes one without texts.
    fn new(alloc: Global) -> Result<SeenTexts<'a>, AllocError> {
        Ok(SeenTexts {
            texts: Vec::new(alloc),
            remembered: Vec::from_elem(alloc, 0, REMEMBERED)?,
        })
    }

    // Returns the number of a text.
    fn number(&mut self, text: &'a [u8]) -> Result<u32, AllocError> {
        let place = crc32c(text) as usize % REMEMBERED;
        let number = number_at(self.remembered.as_slice(), place);
        if let Some(seen) = self.texts.get(number as usize) {
            if *seen == text {
                return Ok(number);
            }
        }
        let next = (self.texts.len() % 0x1_0000_0000) as u32;
        self.texts.push(text)?;
        if let Some(last) = self.remembered.get_mut(place) {
            *last = next;
        }
        Ok(next)
    }
}

/// Returns the number at an index, or 0 if there is none.
pub(crate) fn number_at(numbers: &[u32], index: usize) -> u32 {
    match numbers.get(index) {
        Some(number) => *number,
        None => 0,
    }
}

// Lists texts with their numbers, in the order of the texts.
fn sorted_texts<'a>(
    alloc: Global,
    texts: &[&'a [u8]],
) -> Result<Vec<(&'a [u8], usize)>, AllocError> {
    let mut sorted = Vec::with_capacity(alloc, texts.len())?;
    for i in 0..texts.len() {
        sorted.push((texts[i], i))?;
    }
    sorted.sort_unstable();
    Ok(sorted)
}

// Returns for the number of each text its place among the texts without repeats, and how many places there are.
fn places_of(alloc: Global, texts: &[&[u8]]) -> Result<(Vec<u32>, usize), AllocError> {
    let sorted = sorted_texts(alloc, texts)?;
    let mut places = Vec::from_elem(alloc, 0, texts.len())?;
    let mut place: u32 = 0;
    for i in 0..sorted.len() {
        if i > 0 && sorted[i - 1].0 != sorted[i].0 {
            place = place.wrapping_add(1);
        }
        if let Some(found) = places.get_mut(sorted[i].1) {
            *found = place;
        }
    }
    Ok((places, (place as usize).saturating_add(1)))
}

// Replaces the numbers of texts by their places.
fn place_all(numbers: &mut Vec<u32>, places: &[u32]) {
    for number in numbers.iter_mut() {
        *number = number_at(places, *number as usize);
    }
}

/// Lists for each label the probable places of its name and its value among the symbols.
pub(crate) fn label_places(
    alloc: Global,
    labels: &[RowLabel<'_>],
) -> Result<LabelPlaces, AllocError> {
    let mut seen = SeenTexts::new(alloc)?;
    let mut names = Vec::with_capacity(alloc, labels.len())?;
    let mut values = Vec::with_capacity(alloc, labels.len())?;
    for label in labels {
        names.push(seen.number(label.label.name)?)?;
        values.push(seen.number(label.label.value)?)?;
    }
    let (places, count) = places_of(alloc, seen.texts.as_slice())?;
    place_all(&mut names, places.as_slice());
    place_all(&mut values, places.as_slice());
    Ok(LabelPlaces {
        names,
        values,
        count,
    })
}
