//! Rows before they are checked, and rows that come again.

/// An unchecked row: the name and the value of each label, a time in milliseconds, and the eight bytes of the value as a number.
#[derive(Debug, Drop)]
pub struct RawRow {
    pub pairs: Vec<(Vec<u8>, Vec<u8>)>,
    pub time: i64,
    pub value: i64,
}

/// A row that was checked before, with another time in milliseconds and another value, the eight bytes of it as a number.
#[derive(Clone, Copy, Debug, PartialEq, Eq)]
pub struct AgainRow {
    /// Its place among the rows that were checked.
    pub place: usize,
    pub time: i64,
    pub value: i64,
}
