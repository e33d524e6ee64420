//! Samples.

/// A sample: a time in milliseconds, and a value, whose eight bytes are kept as a signed number.
#[derive(Clone, Copy, Debug, PartialEq, Eq)]
pub struct Sample {
    pub time: i64,
    pub value: i64,
}
