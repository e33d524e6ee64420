//! Counts of labels and of label names.

ghost use Rattle.std.specs.Prelude.{◌≡◌, ◌+◌, OnOk};

use std::alloc::AllocError;

/// How much of a head has one label.
#[derive(Clone, Copy, Debug, PartialEq, Eq)]
pub struct LabelCount<'a> {
    pub name: &'a [u8],
    pub value: &'a [u8],
    /// The number of series with this label.
    pub series: u64,
    /// The number of accepted samples of these series.
    pub samples: u64,
}

/// How much there is in a head.
#[derive(Clone, Copy, Debug, PartialEq, Eq)]
pub struct HeadTotals {
    pub series: u64,
    /// The number of the accepted samples of all series.
    pub samples: u64,
}

/// How many values a label name has.
#[derive(Clone, Copy, Debug, PartialEq, Eq)]
pub struct NameCount<'a> {
    pub name: &'a [u8],
    pub values: u64,
}

impl LabelCount<'_> {
    // Counts a series with this many samples. Returns an error if there is no such number.
    pub(crate) fn add(&mut self, samples: u64) -> Result<(), AllocError>
        ensures { OnOk result (self.new ≡ record self.old { series = self.old.series + 1; samples = self.old.samples + samples }) }
    {
        self.series = self.series.checked_add(1).ok_or(AllocError)?;
        self.samples = self.samples.checked_add(samples).ok_or(AllocError)?;
        Ok(())
    }
}

impl NameCount<'_> {
    // Counts a value. Returns an error if there is no such number.
    pub(crate) fn add(&mut self) -> Result<(), AllocError>
        ensures { OnOk result (self.new ≡ record self.old { values = self.old.values + 1 }) }
    {
        self.values = self.values.checked_add(1).ok_or(AllocError)?;
        Ok(())
    }
}
