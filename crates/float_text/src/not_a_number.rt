//! The bits of a not-a-number.

ghost use Rattle.std.specs.Prelude.{◌≡◌};
ghost use Rattle.std.specs.Float.Ieee.{binary64, nan_bits};

// The bits that a server stores for a value that is not a number.
pub(crate) const NORMAL_NAN: u64 = 0x7ff8_0000_0000_0001;

// The bits of the staleness marker: the series has no value from this time on.
pub(crate) const STALE_NAN: u64 = 0x7ff0_0000_0000_0002;

// Returns whether these are the bits of a not-a-number.
pub(crate) fn is_nan(bits: u64) -> bool
    ensures { result ≡ nan_bits binary64 bits }
{
    0x7ff0_0000_0000_0000 < bits % 0x8000_0000_0000_0000
}
