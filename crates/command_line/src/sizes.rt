//! Sizes: numbers of bytes as they are written on a command line.

/// What is reported of a size that is none.
pub(crate) const BAD_SIZE: &str =
    "invalid value for '--memory <SIZE>': it is a number of bytes, which may end in K, M, G or T";

/// What is reported of a time after which a log is synced that is none.
pub(crate) const BAD_SYNC: &str =
    "invalid value for '--sync <MS>': it is `each` or a number of milliseconds";

// Returns the number before the last letter of a size, and how many bytes one of its unit is: a power of 1024.
fn parts_of(text: &str) -> (&str, u64) {
    for (letter, bytes) in [
        ('K', 1 << 10),
        ('M', 1 << 20),
        ('G', 1 << 30),
        ('T', 1 << 40),
    ] {
        if let Some(number) = text.strip_suffix(letter) {
            return (number, bytes);
        }
    }
    (text, 1)
}

/// Returns the size that this text says, in bytes. A number may have a `K`, `M`, `G` or `T` after it. Returns `None` where it is no size, or one
/// past 2^64 - 1.
pub(crate) fn size_of(text: &str) -> Option<u64> {
    let (number, bytes) = parts_of(text);
    number.parse::<u64>().ok()?.checked_mul(bytes)
}
